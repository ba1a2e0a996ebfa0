//! Numbers in a date's text.
ghost use Rattle.std.specs.Prelude.{◌≡◌, ◌≤◌, IfSome};
ghost use Rattle.mail_dates.specs.Words as words;

use octets::parse_decimal;

/// The number that one or more digits write, up to a limit.
#[tactic(auto, unfolding(crate::specs::Words::number_in))]
fn number_in(word: &[u8], limit: u16) -> Option<u16>
    ensures is { result ≡ words.number_in limit word.now }
    ensures within { IfSome result (λ number. number ≤ limit) }
{
    let number = parse_decimal(word)?;
    if number <= u64::from(limit) {
        Some(number as u16)
    } else {
        None
    }
}

/// Two digits, up to a limit.
#[tactic(auto, unfolding(crate::specs::Words::two_digits))]
pub(crate) fn two_digits(word: &[u8], limit: u8) -> Option<u8>
    ensures is { result ≡ words.two_digits limit word.now }
    ensures within { IfSome result (λ number. number ≤ limit) }
{
    if word.len() != 2 {
        return None;
    }
    let number = number_in(word, u16::from(limit))?;
    Some(number as u8)
}

/// A day of a month, in one digit or two.
#[tactic(auto, unfolding(crate::specs::Words::day_of))]
pub(crate) fn day_of(word: &[u8]) -> Option<u8>
    ensures { result ≡ words.day_of word.now }
{
    if word.len() > 2 {
        return None;
    }
    let number = number_in(word, 31)?;
    Some(number as u8)
}

/// Completes a year of two digits with its century (RFC 5322, 4.3).
fn in_century(year: u16) -> u16
    requires { year ≤ 99 }
    ensures is { result ≡ words.in_century year }
    ensures within { result ≤ 9999 }
{
    if year < 50 { 2000 + year } else { 1900 + year }
}

/// A year in two digits or more.
#[tactic(auto, unfolding(crate::specs::Words::year_of))]
pub(crate) fn year_of(word: &[u8]) -> Option<u16>
    ensures is { result ≡ words.year_of word.now }
    ensures within { IfSome result (λ year. year ≤ 9999) }
{
    match word.len() {
        0 | 1 => None,
        2 => {
            let year = number_in(word, 99)?;
            Some(in_century(year))
        }
        3 => {
            let year = number_in(word, 999)?;
            Some(1900 + year)
        }
        _ => number_in(word, 9999),
    }
}
