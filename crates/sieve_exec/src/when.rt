//! When a message is delivered.
ghost use Rattle.std.specs.Prelude.{◌≡◌, pos, IfSome, IfNone};
ghost use Rattle.mail_dates.specs.DateTimes.{IsZone};

/// When a message is delivered: a moment, and the zone of the host at that moment.
#[derive(Debug, Clone, Copy)]
pub struct When {
    /// Seconds since 1970-01-01 UTC.
    pub moment: u64,
    /// The zone in minutes east of UTC: -1439 to 1439.
    pub zone: i16,
    pub ghost within: { IsZone zone },
}

impl When {
    /// A moment, with UTC as the zone.
    pub fn in_utc(moment: u64) -> When
        ensures moment { result.moment ≡ moment }
        ensures zone { result.zone ≡ pos 0 }
    {
        When { moment, zone: 0 }
    }

    /// A moment, with a zone in minutes east of UTC; `None` if that is a day or more.
    pub fn in_zone(moment: u64, zone: i16) -> Option<When>
        ensures moment { IfSome result (λ when. when.moment ≡ moment) }
        ensures zone { IfSome result (λ when. when.zone ≡ zone) }
        ensures none { IfNone result (IsZone zone → ⊥) }
    {
        if -1440 < zone && zone < 1440 {
            Some(When { moment, zone })
        } else {
            None
        }
    }
}
