//! Reads a date from a field's text.
ghost use Rattle.std.specs.Prelude.{◌≡◌, ◌≤◌, None, Some, MatchOption, IfSome, IsTrue, ◌↔◌, pos, []};
ghost use Rattle.jiff_core.specs.Calendar.{IsCivilDate};
ghost use Rattle.mail_dates.specs.declared.date_time.DateTime.{DateTime};
ghost use Rattle.mail_dates.specs.DateTexts.{IsDateText};
ghost use Rattle.mail_dates.specs.DateTimes.{IsDateTime};
ghost use Rattle.mail_dates.specs.Words as words;
ghost use Rattle.mail_dates.specs.Zones as zones;
ghost use Rattle.mail_dates.specs.Reading as reading;
ghost use Rattle.mail_dates.specs.Reading.{reads};

use crate::date_time::DateTime;
use crate::digits::{day_of, two_digits, year_of};
use crate::names::{month_of, weekday_of};
use crate::pieces::next_piece;
use crate::zone::zone_of;
use jiff_core::civil::Date;

/// A day as a text gives it, whether or not there is such a day.
#[derive(Clone, Copy)]
pub(crate) struct Day {
    year: u16,
    month: u8,
    day: u8,
}

/// A time of day.
#[derive(Clone, Copy)]
pub(crate) struct Time {
    hour: u8,
    minute: u8,
    second: u8,
}

/// A day of the week, and what follows it.
#[tactic(auto, unfolding(crate::specs::Reading::reads))]
fn next_weekday(text: &[u8]) -> Option<(u8, &[u8])>
    ensures { MatchOption result (reads words.weekday_of text.now ≡ None) (λ r. reads words.weekday_of text.now ≡ Some (r.0, r.1.now)) }
{
    let (word, rest) = next_piece(text)?;
    Some((weekday_of(word)?, rest))
}

/// A mark, and what follows it.
#[tactic(auto, unfolding(crate::specs::Reading::reads, crate::specs::Words::mark_of))]
fn next_mark(text: &[u8], mark: u8) -> Option<&[u8]>
    ensures { MatchOption result (reads (words.mark_of mark) text.now ≡ None) (λ rest. reads (words.mark_of mark) text.now ≡ Some (mark, rest.now)) }
{
    let (word, rest) = next_piece(text)?;
    match word {
        [octet] if *octet == mark => Some(rest),
        _ => None,
    }
}

/// A day of a month, and what follows it.
#[tactic(auto, unfolding(crate::specs::Reading::reads))]
fn next_day(text: &[u8]) -> Option<(u8, &[u8])>
    ensures { MatchOption result (reads words.day_of text.now ≡ None) (λ r. reads words.day_of text.now ≡ Some (r.0, r.1.now)) }
{
    let (word, rest) = next_piece(text)?;
    Some((day_of(word)?, rest))
}

/// A month, and what follows it.
#[tactic(auto, unfolding(crate::specs::Reading::reads))]
fn next_month(text: &[u8]) -> Option<(u8, &[u8])>
    ensures { MatchOption result (reads words.month_of text.now ≡ None) (λ r. reads words.month_of text.now ≡ Some (r.0, r.1.now)) }
{
    let (word, rest) = next_piece(text)?;
    Some((month_of(word)?, rest))
}

/// A year, and what follows it.
#[tactic(auto, unfolding(crate::specs::Reading::reads))]
fn next_year(text: &[u8]) -> Option<(u16, &[u8])>
    ensures { MatchOption result (reads words.year_of text.now ≡ None) (λ r. reads words.year_of text.now ≡ Some (r.0, r.1.now)) }
{
    let (word, rest) = next_piece(text)?;
    Some((year_of(word)?, rest))
}

/// The number of two digits, up to a limit, and what follows them.
#[tactic(auto, unfolding(crate::specs::Reading::reads))]
fn next_two(text: &[u8], limit: u8) -> Option<(u8, &[u8])>
    ensures { MatchOption result (reads (words.two_digits limit) text.now ≡ None) (λ r. reads (words.two_digits limit) text.now ≡ Some (r.0, r.1.now)) }
{
    let (word, rest) = next_piece(text)?;
    Some((two_digits(word, limit)?, rest))
}

/// A zone, and what follows it.
#[tactic(auto, unfolding(crate::specs::Reading::reads))]
fn next_zone(text: &[u8]) -> Option<(i16, &[u8])>
    ensures { MatchOption result (reads zones.zone_of text.now ≡ None) (λ r. reads zones.zone_of text.now ≡ Some (r.0, r.1.now)) }
{
    let (word, rest) = next_piece(text)?;
    Some((zone_of(word)?, rest))
}

/// What follows a day's name and its comma, or the text itself if it doesn't begin with a day's name.
#[tactic(auto, unfolding(crate::specs::Reading::after_name))]
fn skip_day_name(text: &[u8]) -> Option<&[u8]>
    ensures { MatchOption result (reading.after_name text.now ≡ None) (λ rest. reading.after_name text.now ≡ Some rest.now) }
{
    match next_weekday(text) {
        Some((_, rest)) => next_mark(rest, b','),
        None => Some(text),
    }
}

/// Day, month and year, and what follows them.
#[tactic(auto, unfolding(crate::specs::Reading::day_from))]
fn next_date(text: &[u8]) -> Option<(Day, &[u8])>
    ensures { MatchOption result (reading.day_from text.now ≡ None) (λ r. reading.day_from text.now ≡ Some (r.0, r.1.now)) }
{
    let (day, rest) = next_day(text)?;
    let (month, rest) = next_month(rest)?;
    let (year, rest) = next_year(rest)?;
    Some((Day { year, month, day }, rest))
}

/// The second after a colon, or 0 if there is no colon, and what follows.
#[tactic(auto, unfolding(crate::specs::Reading::second_from))]
fn next_second(text: &[u8]) -> Option<(u8, &[u8])>
    ensures { MatchOption result (reading.second_from text.now ≡ None) (λ r. reading.second_from text.now ≡ Some (r.0, r.1.now)) }
{
    match next_mark(text, b':') {
        Some(rest) => next_two(rest, 60),
        None => Some((0, text)),
    }
}

/// A time of day, and what follows it.
#[tactic(auto, unfolding(crate::specs::Reading::time_from))]
fn next_time(text: &[u8]) -> Option<(Time, &[u8])>
    ensures { MatchOption result (reading.time_from text.now ≡ None) (λ r. reading.time_from text.now ≡ Some (r.0, r.1.now)) }
{
    let (hour, rest) = next_two(text, 23)?;
    let rest = next_mark(rest, b':')?;
    let (minute, rest) = next_two(rest, 59)?;
    let (second, rest) = next_second(rest)?;
    Some((
        Time {
            hour,
            minute,
            second,
        },
        rest,
    ))
}

/// The date and time of these parts.
fn joined(day: Day, time: Time, zone: i16) -> DateTime
    ensures { result ≡ reading.date_time_of day time zone }
{
    DateTime {
        year: day.year,
        month: day.month,
        day: day.day,
        hour: time.hour,
        minute: time.minute,
        second: time.second,
        zone,
    }
}

/// The date and time that a text gives, whether or not there is such a day, and what follows.
#[tactic(auto, unfolding(crate::specs::Reading::parts_from))]
fn next_parts(text: &[u8]) -> Option<(DateTime, &[u8])>
    ensures { MatchOption result (reading.parts_from text.now ≡ None) (λ r. reading.parts_from text.now ≡ Some (r.0, r.1.now)) }
{
    let rest = skip_day_name(text)?;
    let (day, rest) = next_date(rest)?;
    let (time, rest) = next_time(rest)?;
    let (zone, rest) = next_zone(rest)?;
    Some((joined(day, time, zone), rest))
}

/// Whether nothing but a gap is left.
fn is_over(text: &[u8]) -> bool
    ensures { IsTrue result ↔ (reading.piece text.now ≡ Some ([], [])) }
{
    match next_piece(text) {
        Some((word, _)) => word.is_empty(),
        None => false,
    }
}

/// Whether the calendar has this day.
fn is_civil(date: &DateTime) -> bool
    requires { date.now.year ≤ 9999 }
    ensures { IsTrue result ↔ IsCivilDate (pos date.now.year) date.now.month date.now.day }
{
    date.month <= 12
        && date.day <= 31
        && Date::new(date.year as i16, date.month as i8, date.day as i8).is_ok()
}

/// Reads the date and time of a field's text (RFC 5322, 3.3, with the obsolete forms of 4.3).
///
/// `None` if the text isn't a date, the day isn't in the calendar, or an hour, a minute, a second or a zone is out of range. The name
/// of the day isn't checked against the date. Linear time, no memory.
pub fn read_date(text: &[u8]) -> Option<DateTime>
    ensures exact { MatchOption result ((date : DateTime) → IsDateText text.now date → ⊥) (λ date. IsDateText text.now date) }
    ensures valid { IfSome result IsDateTime }
{
    let (date, rest) = next_parts(text)?;
    if is_over(rest) && is_civil(&date) {
        Some(date)
    } else {
        None
    }
}
