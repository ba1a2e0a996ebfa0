//! A rule for a zone.
ghost use Rattle.std.specs.Prelude.{◌≡◌, ◌↔◌, pos, ◌*ℤ◌, IsTrue, IfSome, IfNone};
ghost use Rattle.std.specs.Option.{ForSome};
ghost use Rattle.jiff_tz.specs.PosixReader.{read_whole};
ghost use Rattle.jiff_tz.specs.PosixRule.{offset_at};
ghost use Rattle.jiff_tz.specs.PosixText.{TzText, tz_view};
ghost use Rattle.mail_dates.specs.DateTimes.{IsZone};
ghost use Rattle.mail_dates.specs.Offsets.{IsWhole, AreWhole, nanos_at};

use jiff_core::{Offset, Timestamp};
use jiff_tz::posix::TimeZone;

/// The last second whose offset is looked up; its offset is also that of each later moment.
const LAST: u64 = 253_402_207_200;

/// A rule for a zone (POSIX, Base Definitions, 8.3, TZ), whose offsets are all whole minutes and less than a day.
#[derive(Clone, Copy, Debug)]
pub struct ZoneRule {
    pub rule: TimeZone,
    pub ghost standard: { IsWhole rule.std_offset.seconds },
    pub ghost daylight: { ForSome rule.dst (λ dst. IsWhole dst.offset.seconds) },
}

impl ZoneRule {
    /// Reads a rule; `None` if the text isn't one, or if an offset isn't a whole number of minutes or is a day or more.
    pub fn read(text: &[u8]) -> Option<ZoneRule>
        ensures some { IfSome result (λ zone. read_whole text.now ≡ Some (tz_view zone.rule)) }
        ensures none { IfNone result ((read : TzText) → read_whole text.now ≡ Some read → AreWhole read → ⊥) }
    {
        let Ok(rule) = TimeZone::parse(text) else {
            return None;
        };
        if is_whole(rule.std_offset) && has_whole_daylight(&rule) {
            Some(ZoneRule { rule })
        } else {
            None
        }
    }

    /// The zone at a moment in seconds since 1970-01-01 UTC, in minutes east of UTC.
    pub fn at(&self, moment: u64) -> i16
        ensures within { IsZone result }
        ensures is { result *ℤ pos 60 ≡ (offset_at self.now.rule (nanos_at moment)).seconds }
    {
        let nanosecond = i128::from(moment.min(LAST)) * 1_000_000_000;
        minutes_of(self.rule.to_offset(Timestamp { nanosecond }))
    }
}

/// An offset in minutes.
fn minutes_of(offset: Offset) -> i16
    requires { IsWhole offset.seconds }
    ensures within { IsZone result }
    ensures is { result *ℤ pos 60 ≡ offset.seconds }
{
    (offset.seconds / 60) as i16
}

/// Whether an offset is a whole number of minutes and less than a day.
fn is_whole(offset: Offset) -> bool
    ensures { IsTrue result ↔ IsWhole offset.seconds }
{
    -86_400 < offset.seconds && offset.seconds < 86_400 && offset.seconds % 60 == 0
}

/// Whether this holds of the offset of the rule's daylight saving time, if it has one.
fn has_whole_daylight(rule: &TimeZone) -> bool
    ensures { IsTrue result ↔ ForSome rule.now.dst (λ dst. IsWhole dst.offset.seconds) }
{
    match rule.dst {
        Some(dst) => is_whole(dst.offset),
        None => true,
    }
}
