//! The parts of dates (RFC 5260, section 4).
ghost use Rattle.std.specs.Prelude.{IfSome};
ghost use Rattle.mail_dates.specs.DateTimes.{IsDateTime};

use mail_dates::{DatePart, DateTime, read_date, read_zone, write_part};
use octets::{Octets, parse_decimal};
use std::alloc::AllocError;

/// A part of a date, of a field's text or of `@` and a moment, in a zone, or in that of the text if the zone is empty.
pub fn add_part(out: &mut Octets, text: &[u8], zone: &[u8], part: &[u8]) -> Result<(), AllocError> {
    match (DatePart::named(part), date_in(text, zone)) {
        (Some(part), Some(date)) => write_part(out, part, &date),
        _ => out.extend_from_slice(b"none"),
    }
}

fn date_in(text: &[u8], zone: &[u8]) -> Option<DateTime>
    ensures { IfSome result IsDateTime }
{
    if zone.is_empty() {
        return read_date(text);
    }
    let zone = read_zone(zone)?;
    match text {
        [b'@', seconds @ ..] => DateTime::from_moment(parse_decimal(seconds)?, zone),
        _ => {
            let date = read_date(text)?;
            date.in_zone(zone)
        }
    }
}
