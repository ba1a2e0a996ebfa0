//! The parts of a date as texts (RFC 5260, 4.2).
ghost use Rattle.std.specs.Prelude.{◌≡◌, ◌++◌, ◌<◌, ◌≤◌, ◌∷◌, ◌+◌, ◌-◌, [], OnOk, get_or, codes, pos, ◌+ℤ◌};
ghost use Rattle.std.specs.Int.{IsInRange};
ghost use Rattle.jiff_core.specs.Weekday.{sunday_zero};
ghost use Rattle.mail_dates.specs.DateTimes.{IsDateTime, IsZone};
ghost use Rattle.mail_dates.specs.Parts as parts;

use crate::date_time::DateTime;
use crate::part::DatePart;
use jiff_core::civil::Weekday;
use octets::{Octets, write_decimal};
use std::alloc::AllocError;

/// Appends a number in two digits.
fn write_two(out: &mut Octets, number: u8) -> Result<(), AllocError>
    requires { number < 100 }
    ensures { OnOk result (out.new ≡ out.old ++ parts.two number) }
{
    out.push(b'0' + number / 10)?;
    out.push(b'0' + number % 10)
}

/// Appends a number in four digits.
fn write_four(out: &mut Octets, number: u16) -> Result<(), AllocError>
    requires { number ≤ 9999 }
    ensures { OnOk result (out.new ≡ out.old ++ parts.four number) }
{
    write_two(out, (number / 100) as u8)?;
    write_two(out, (number % 100) as u8)
}

/// Appends `yyyy-mm-dd`.
fn write_day(out: &mut Octets, date: &DateTime) -> Result<(), AllocError>
    requires { IsDateTime date.now }
    ensures { OnOk result (out.new ≡ out.old ++ parts.date_text date.now) }
{
    write_four(out, date.year)?;
    out.push(b'-')?;
    write_two(out, date.month)?;
    out.push(b'-')?;
    write_two(out, date.day)
}

/// Appends `hh:mm:ss`.
fn write_time(out: &mut Octets, date: &DateTime) -> Result<(), AllocError>
    requires { IsDateTime date.now }
    ensures { OnOk result (out.new ≡ out.old ++ parts.time_text date.now) }
{
    write_two(out, date.hour)?;
    out.push(b':')?;
    write_two(out, date.minute)?;
    out.push(b':')?;
    write_two(out, date.second)
}

/// The sign of a zone; UTC has a plus.
fn sign(zone: i16) -> u8
    ensures { result ≡ parts.sign zone }
{
    if zone < 0 { b'-' } else { b'+' }
}

/// Appends `+hhmm` or `-hhmm`.
fn write_zone(out: &mut Octets, zone: i16) -> Result<(), AllocError>
    requires { IsZone zone }
    ensures { OnOk result (out.new ≡ out.old ++ parts.zone_text zone) }
{
    let minutes = zone.unsigned_abs();
    out.push(sign(zone))?;
    write_two(out, (minutes / 60) as u8)?;
    write_two(out, (minutes % 60) as u8)
}

/// Appends `Z`, `+hh:mm` or `-hh:mm`.
fn write_iso_zone(out: &mut Octets, zone: i16) -> Result<(), AllocError>
    requires { IsZone zone }
    ensures { OnOk result (out.new ≡ out.old ++ parts.iso_zone zone) }
{
    let minutes = zone.unsigned_abs();
    if minutes == 0 {
        return out.push(b'Z');
    }
    out.push(sign(zone))?;
    write_two(out, (minutes / 60) as u8)?;
    out.push(b':')?;
    write_two(out, (minutes % 60) as u8)
}

/// The number of a day of the week: 0 for Sunday.
fn weekday_number(weekday: Weekday) -> u8
    ensures { result ≡ sunday_zero weekday }
{
    match weekday {
        Weekday::Sunday => 0,
        Weekday::Monday => 1,
        Weekday::Tuesday => 2,
        Weekday::Wednesday => 3,
        Weekday::Thursday => 4,
        Weekday::Friday => 5,
        Weekday::Saturday => 6,
    }
}

/// The day of the week: 0 for Sunday.
fn weekday(date: &DateTime) -> u8
    requires { IsDateTime date.now }
    ensures is { result ≡ parts.weekday date.now }
    ensures within { result < 7 }
{
    weekday_number(date.civil().weekday())
}

/// The name of a day of the week, from Sunday.
fn day_name(weekday: u8) -> &'static [u8]
    requires { weekday < 7 }
    ensures { result.now ≡ get_or parts.day_names weekday [] }
{
    match weekday {
        0 => b"Sun",
        1 => b"Mon",
        2 => b"Tue",
        3 => b"Wed",
        4 => b"Thu",
        5 => b"Fri",
        _ => b"Sat",
    }
}

/// The name of a month, counted from 1.
fn month_name(month: u8) -> &'static [u8]
    requires { IsInRange 1 12 month }
    ensures { result.now ≡ get_or parts.month_names (month - 1) [] }
{
    match month {
        1 => b"Jan",
        2 => b"Feb",
        3 => b"Mar",
        4 => b"Apr",
        5 => b"May",
        6 => b"Jun",
        7 => b"Jul",
        8 => b"Aug",
        9 => b"Sep",
        10 => b"Oct",
        11 => b"Nov",
        _ => b"Dec",
    }
}

/// Appends `Mon, 05 Oct 2026`.
fn write_mail_day(out: &mut Octets, date: &DateTime) -> Result<(), AllocError>
    requires { IsDateTime date.now }
    ensures { OnOk result (out.new ≡ out.old ++ parts.mail_day date.now) }
{
    out.extend_from_slice(day_name(weekday(date)))?;
    out.extend_from_slice(b", ")?;
    write_two(out, date.day)?;
    out.push(b' ')?;
    out.extend_from_slice(month_name(date.month))?;
    out.push(b' ')?;
    write_four(out, date.year)
}

/// Appends the Modified Julian Day.
fn write_julian(out: &mut Octets, date: &DateTime) -> Result<(), AllocError>
    requires { IsDateTime date.now }
    ensures { OnOk result (out.new ≡ out.old ++ parts.signed_decimal (parts.day_number date.now +ℤ pos 40587)) }
{
    let julian = date.julian();
    if julian < 0 {
        out.push(b'-')?;
    }
    write_decimal(out, julian.unsigned_abs())
}

/// Appends a date and a time, and the zone, as ISO 8601 has them.
fn write_iso(out: &mut Octets, date: &DateTime) -> Result<(), AllocError>
    requires { IsDateTime date.now }
    ensures { OnOk result (out.new ≡ out.old ++ (parts.date_text date.now ++ (84 ∷ (parts.time_text date.now ++ parts.iso_zone date.now.zone)))) }
{
    write_day(out, date)?;
    out.push(b'T')?;
    write_time(out, date)?;
    write_iso_zone(out, date.zone)
}

/// Appends a date as a header field has it.
fn write_mail(out: &mut Octets, date: &DateTime) -> Result<(), AllocError>
    requires { IsDateTime date.now }
    ensures { OnOk result (out.new ≡ out.old ++ (parts.mail_day date.now ++ (32 ∷ (parts.time_text date.now ++ (32 ∷ parts.zone_text date.now.zone))))) }
{
    write_mail_day(out, date)?;
    out.push(b' ')?;
    write_time(out, date)?;
    out.push(b' ')?;
    write_zone(out, date.zone)
}

/// Appends a part of a date. Lack of memory is the only error.
#[tactic(auto, unfolding(crate::specs::Parts::part_text))]
pub fn write_part(out: &mut Octets, part: DatePart, date: &DateTime) -> Result<(), AllocError>
    requires { IsDateTime date.now }
    ensures { OnOk result (out.new ≡ out.old ++ parts.part_text part date.now) }
{
    match part {
        DatePart::Year => write_four(out, date.year),
        DatePart::Month => write_two(out, date.month),
        DatePart::Day => write_two(out, date.day),
        DatePart::Date => write_day(out, date),
        DatePart::Julian => write_julian(out, date),
        DatePart::Hour => write_two(out, date.hour),
        DatePart::Minute => write_two(out, date.minute),
        DatePart::Second => write_two(out, date.second),
        DatePart::Time => write_time(out, date),
        DatePart::Iso8601 => write_iso(out, date),
        DatePart::Std11 => write_mail(out, date),
        DatePart::Zone => write_zone(out, date.zone),
        DatePart::Weekday => out.push(b'0' + weekday(date)),
    }
}
