//! The parts of a date, by their names (RFC 5260, 4.2).
ghost use Rattle.std.specs.Prelude.{◌≡◌};
ghost use Rattle.mail_dates.specs.Parts as parts;

use crate::names::is_named;

/// A part of a date and time. Each is taken by the clock of the zone.
#[derive(Clone, Copy)]
pub enum DatePart {
    /// Four digits.
    Year,
    /// `01` to `12`.
    Month,
    /// `01` to `31`.
    Day,
    /// `yyyy-mm-dd`.
    Date,
    /// The Modified Julian Day: the number of days since 17 November 1858, in decimal, with a minus sign for earlier days.
    Julian,
    /// `00` to `23`.
    Hour,
    /// `00` to `59`.
    Minute,
    /// `00` to `60`.
    Second,
    /// `hh:mm:ss`.
    Time,
    /// `yyyy-mm-ddThh:mm:ss` and `Z`, or `+hh:mm` or `-hh:mm` if the zone isn't UTC.
    Iso8601,
    /// `Mon, 05 Oct 2026 10:00:00 +0000`.
    Std11,
    /// `+hhmm` or `-hhmm`; UTC is `+0000`.
    Zone,
    /// `0` for Sunday to `6`.
    Weekday,
}

impl DatePart {
    /// The part with this name, ignoring ASCII case.
    #[tactic(auto, unfolding(crate::specs::Parts::part_named))]
    pub fn named(name: &[u8]) -> Option<DatePart>
        ensures { result ≡ parts.part_named name.now }
    {
        if is_named(name, b"year") {
            Some(DatePart::Year)
        } else if is_named(name, b"month") {
            Some(DatePart::Month)
        } else if is_named(name, b"day") {
            Some(DatePart::Day)
        } else if is_named(name, b"date") {
            Some(DatePart::Date)
        } else if is_named(name, b"julian") {
            Some(DatePart::Julian)
        } else if is_named(name, b"hour") {
            Some(DatePart::Hour)
        } else if is_named(name, b"minute") {
            Some(DatePart::Minute)
        } else if is_named(name, b"second") {
            Some(DatePart::Second)
        } else if is_named(name, b"time") {
            Some(DatePart::Time)
        } else if is_named(name, b"iso8601") {
            Some(DatePart::Iso8601)
        } else if is_named(name, b"std11") {
            Some(DatePart::Std11)
        } else if is_named(name, b"zone") {
            Some(DatePart::Zone)
        } else if is_named(name, b"weekday") {
            Some(DatePart::Weekday)
        } else {
            None
        }
    }
}
