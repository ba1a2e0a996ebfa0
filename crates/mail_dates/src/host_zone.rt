//! The zone of a host.
ghost use Rattle.std.specs.Prelude.{◌≡◌, ℕ, pos, IfSome, IfNone};
ghost use Rattle.mail_dates.specs.DateTimes.{IsZone};

use crate::read_zone;
use crate::zone_rule::ZoneRule;

/// An offset that is the same at each moment.
#[derive(Clone, Copy, Debug)]
pub struct Offset {
    /// In minutes east of UTC: -1439 to 1439.
    pub minutes: i16,
    pub ghost within: { IsZone minutes },
}

/// The zone of a host.
#[derive(Clone, Copy, Debug)]
pub enum HostZone {
    /// The same offset at each moment.
    Always(Offset),
    /// By a rule.
    ByRule(ZoneRule),
}

impl HostZone {
    ghost use Rattle.mail_dates.specs.declared.host_zone.HostZone.{HostZone};
    ghost use Rattle.mail_dates.specs.HostZones.{IsZoneText, IsOffsetAt};

    /// UTC.
    pub fn utc() -> HostZone
        ensures { (moment : ℕ) → IsOffsetAt result moment (pos 0) }
    {
        HostZone::Always(Offset { minutes: 0 })
    }

    /// Reads a zone: `+hhmm`, `-hhmm`, or a rule such as `CET-1CEST,M3.5.0,M10.5.0/3` (POSIX, Base Definitions, 8.3, TZ).
    ///
    /// `None` for anything else, for hours over 23 and minutes over 59, and for a rule with an offset that isn't a whole number of
    /// minutes or is a day or more. Linear; takes no memory.
    pub fn read(text: &[u8]) -> Option<HostZone>
        ensures some { IfSome result (IsZoneText text.now) }
        ensures none { IfNone result ((zone : HostZone) → IsZoneText text.now zone → ⊥) }
    {
        if let Some(minutes) = read_zone(text) {
            return Some(HostZone::Always(Offset { minutes }));
        }
        match ZoneRule::read(text) {
            Some(rule) => Some(HostZone::ByRule(rule)),
            None => None,
        }
    }

    /// The zone at a moment in seconds since 1970-01-01 UTC, in minutes east of UTC. Takes no memory.
    pub fn at(&self, moment: u64) -> i16
        ensures within { IsZone result }
        ensures is { IsOffsetAt self.now moment result }
    {
        match self {
            HostZone::Always(offset) => offset.minutes,
            HostZone::ByRule(rule) => rule.at(moment),
        }
    }
}
