//! A date and time with its zone.
ghost use Rattle.std.specs.Prelude.{◌≡◌, ◌≤◌, MatchOption, pos, ◌+ℤ◌, ◌-ℤ◌, ◌<ℤ◌};
ghost use Rattle.jiff_core.specs.Date.{IsYmd};
ghost use Rattle.mail_dates.specs.declared.date_time.DateTime.{DateTime};
ghost use Rattle.mail_dates.specs.Parts.{day_number};
ghost use Rattle.mail_dates.specs.DateTimes.{IsDateTime, IsZone, IsClock, IsMoment, IsSameMoment, local_minutes};

use jiff_core::civil::Date;

/// The minutes of a day.
const DAY: u64 = 1440;

/// The Modified Julian Day of 1 January 1970.
const EPOCH_JULIAN: i64 = 40_587;

/// The last day, counted from -9999-01-01.
const LAST_DAY: u64 = 7_304_483;

/// The number of minutes from the start of -9999-01-01 to that of 1970-01-01.
const EPOCH: i64 = 6_295_085_280;

/// A date and time by the clock of its zone.
#[derive(Clone, Copy)]
pub struct DateTime {
    /// 0 to 9999.
    pub year: u16,
    /// 1 to 12.
    pub month: u8,
    /// From 1.
    pub day: u8,
    /// 0 to 23.
    pub hour: u8,
    /// 0 to 59.
    pub minute: u8,
    /// 0 to 60, where 60 is a leap second.
    pub second: u8,
    /// The zone, in minutes east of UTC: -1439 to 1439.
    pub zone: i16,
}

/// What the clock of another zone shows at the same moment.
fn moved(minutes: u64, from: i16, to: i16) -> u64
    requires early { 2880 ≤ minutes }
    requires late { minutes ≤ 10_518_456_960 }
    requires from_in { IsZone from }
    requires to_in { IsZone to }
    ensures { pos result ≡ (pos minutes -ℤ from) +ℤ to }
{
    (minutes as i64 - i64::from(from) + i64::from(to)) as u64
}

/// The year of a day, if it isn't before year 0.
fn year_of(day: Date) -> Option<u16>
    ensures { MatchOption result (day.year <ℤ pos 0) (λ year. pos year ≡ day.year) }
{
    u16::try_from(day.year).ok()
}

/// The date and time that many minutes after the start of -9999-01-01 by the clock of the zone, if its year is from 0 to 9999.
fn at_minute(minutes: u64, second: u8, zone: i16) -> Option<DateTime>
    requires second_in { second ≤ 60 }
    requires zone_in { IsZone zone }
    ensures { MatchOption result ((date : DateTime) → IsClock minutes second zone date → ⊥) (λ date. IsClock minutes second zone date) }
{
    let days = minutes / DAY;
    if days > LAST_DAY {
        return None;
    }
    let day = Date::from_days_since_min(days as u32);
    let year = year_of(day)?;
    let minute = minutes % DAY;
    Some(DateTime {
        year,
        month: day.month,
        day: day.day,
        hour: (minute / 60) as u8,
        minute: (minute % 60) as u8,
        second,
        zone,
    })
}

impl DateTime {
    /// The date and time of a moment in a zone.
    ///
    /// The moment is in seconds since 1 January 1970 in UTC, the zone in minutes east of UTC. `None` if the year in that zone is past 9999.
    pub fn from_moment(seconds: u64, zone: i16) -> Option<DateTime>
        requires { IsZone zone }
        ensures { MatchOption result ((date : DateTime) → IsMoment seconds zone date → ⊥) (λ date. IsMoment seconds zone date) }
    {
        let minutes = (seconds / 60) as i64 + EPOCH + i64::from(zone);
        at_minute(minutes as u64, (seconds % 60) as u8, zone)
    }

    /// The same moment in another zone, in minutes east of UTC. `None` if the year in that zone isn't from 0 to 9999.
    pub fn in_zone(&self, zone: i16) -> Option<DateTime>
        requires date { IsDateTime self.now }
        requires zone_in { IsZone zone }
        ensures { MatchOption result ((date : DateTime) → IsSameMoment self.now zone date → ⊥) (λ date. IsSameMoment self.now zone date) }
    {
        at_minute(moved(self.clock(), self.zone, zone), self.second, zone)
    }

    /// The day in jiff's calendar.
    pub(crate) fn civil(&self) -> Date
        requires { IsDateTime self.now }
        ensures { IsYmd (pos self.now.year) (pos self.now.month) (pos self.now.day) result }
    {
        Date::constrain(self.year as i16, self.month, self.day)
    }

    /// The number of minutes from the start of -9999-01-01 to this one, both by the clock of its zone.
    fn clock(&self) -> u64
        requires { IsDateTime self.now }
        ensures is { local_minutes self.now +ℤ pos 6_295_085_280 ≡ pos result }
        ensures early { 2880 ≤ result }
        ensures late { result ≤ 10_518_456_960 }
    {
        let days = self.civil().days_since_min();
        u64::from(days) * DAY + u64::from(self.hour) * 60 + u64::from(self.minute)
    }

    /// The Modified Julian Day by the clock of the zone: the number of days since 17 November 1858.
    pub(crate) fn julian(&self) -> i64
        requires { IsDateTime self.now }
        ensures { result ≡ day_number self.now +ℤ pos 40587 }
    {
        i64::from(self.civil().to_unix_epoch_day()) + EPOCH_JULIAN
    }
}
