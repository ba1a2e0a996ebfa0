//! The date and time of a moment (RFC 5322, 3.3), as the ported jiff prints it.
ghost use Rattle.std.specs.Prelude.{◌≡◌, ◌≤◌, ◌/◌, ◌%◌, OnOk, pos};
ghost use Rattle.jiff_core.specs.Date.{epoch_day};
ghost use Rattle.jiff_core.specs.Time.{time_seconds};
ghost use Rattle.sieve_vacation.specs.Dates.{WritesDate};

use jiff_core::Offset;
use jiff_core::civil::{Date, DateTime, Time};
use jiff_fmt::rfc2822::DateTimePrinter;
use octets::Octets;
use std::alloc::AllocError;

/// The last moment whose date is written: the last second of the year 9999, since a year has four digits (RFC 5322, 3.3).
pub const MAX_MOMENT: u64 = 253_402_300_799;

/// The number of seconds in a day.
const DAY_LEN: u64 = 86_400;

/// The number of days from jiff's first day, 1 January of the year -9999, to 1 January 1970.
const EPOCH_DAY: u64 = 4_371_587;

/// Appends the date and time of a moment in UTC, such as `Tue, 14 Nov 2023 22:13:20 +0000`.
///
/// A moment is in seconds since 1 January 1970, up to [`MAX_MOMENT`]. Constant time; lack of memory is the only error.
pub fn write_date(out: &mut Octets, moment: u64) -> Result<(), AllocError>
    requires { moment ≤ MAX_MOMENT }
    ensures { OnOk result (WritesDate moment out.old out.new) }
{
    let clock = utc_clock(moment);
    let text = DateTimePrinter::new()
        .datetime_text(clock, Some(Offset::UTC))
        .unwrap();
    out.extend_from_slice(text.as_str().as_bytes())
}

/// What a clock in UTC shows at a moment.
fn utc_clock(moment: u64) -> DateTime
    requires { moment ≤ MAX_MOMENT }
    ensures day { epoch_day result.date ≡ pos (moment / 86400) }
    ensures second { time_seconds result.time ≡ moment % 86400 }
{
    DateTime {
        date: Date::from_days_since_min((EPOCH_DAY + moment / DAY_LEN) as u32),
        time: Time::from_second((moment % DAY_LEN) as u32, 0),
    }
}
