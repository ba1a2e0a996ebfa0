//! Zones, in minutes east of UTC.
ghost use Rattle.std.specs.Prelude.{◌≡◌, ◌≤◌, IfSome};
ghost use Rattle.mail_dates.specs.DateTimes.{IsZone};
ghost use Rattle.mail_dates.specs.Zones as zones;

use crate::digits::two_digits;
use crate::names::hours_west;

/// The minutes of `hhmm`, from `0000` to `2359`.
#[tactic(auto, unfolding(crate::specs::Zones::offset_of))]
fn offset_of(digits: &[u8]) -> Option<u16>
    ensures is { result ≡ zones.offset_of digits.now }
    ensures within { IfSome result (λ minutes. minutes ≤ 1439) }
{
    if digits.len() != 4 {
        return None;
    }
    let (hours, minutes) = digits.split_at(2);
    let hours = two_digits(hours, 23)?;
    let minutes = two_digits(minutes, 59)?;
    Some(u16::from(hours) * 60 + u16::from(minutes))
}

/// The zone that a script gives: `+hhmm` or `-hhmm` (RFC 5260, 4.1), in minutes east of UTC.
///
/// `None` if the text is anything else, also for hours over 23 and minutes over 59.
#[tactic(auto, unfolding(crate::specs::Zones::numeric_of))]
pub fn read_zone(text: &[u8]) -> Option<i16>
    ensures is { result ≡ zones.numeric_of text.now }
    ensures within { IfSome result IsZone }
{
    match text {
        [b'+', digits @ ..] => {
            let minutes = offset_of(digits)?;
            Some(minutes as i16)
        }
        [b'-', digits @ ..] => {
            let minutes = offset_of(digits)?;
            Some(-(minutes as i16))
        }
        _ => None,
    }
}

/// The zone with this name. Each unknown name is UTC (RFC 5322, 4.3).
#[tactic(auto, unfolding(crate::specs::Zones::named_of))]
fn named_zone(word: &[u8]) -> i16
    ensures is { result ≡ zones.named_of word.now }
    ensures within { IsZone result }
{
    -(i16::from(hours_west(word)) * 60)
}

/// The zone of a date: a number or a name.
#[tactic(auto, unfolding(crate::specs::Zones::zone_of, crate::specs::Zones::numeric_of))]
pub(crate) fn zone_of(word: &[u8]) -> Option<i16>
    ensures is { result ≡ zones.zone_of word.now }
    ensures within { IfSome result IsZone }
{
    match word {
        [first, ..] if first.is_ascii_alphabetic() => Some(named_zone(word)),
        _ => read_zone(word),
    }
}
