//! What a delivery is done under: what the host says of each one, and when it is.
ghost use Rattle.std.specs.Prelude.{◌≡◌, ℕ, pos, None, IfOk};
ghost use Rattle.mail_dates.specs.HostZones.{IsOffsetAt};
ghost use Rattle.sieve_plan.specs.Sequences.{no_host_scripts};
ghost use Rattle.store_engine.specs.Terms.{terms_of};

use mail_dates::HostZone;
use octets::Octets;
use sieve_exec::When;
use sieve_plan::HostScripts;
use std::alloc::{AllocError, Global};

/// What the host says of each delivery. It is read once, when the program begins.
#[derive(Drop)]
pub struct HostSettings {
    /// The zone of its clock.
    pub zone: HostZone,
    /// The text of its default script, if it has one: it is used for an account without an active script as if it were the active
    /// one.
    pub default: Option<Octets>,
    /// The scripts of its own, which run before each user's script and after it.
    pub scripts: HostScripts,
}

/// What a delivery is done under.
#[derive(Drop)]
pub struct Terms {
    /// When it is, by the host's clock.
    pub when: When,
    pub host: HostSettings,
}

/// The same, where what the host says is lent.
#[derive(Clone, Copy)]
pub struct LentTerms<'a> {
    /// When it is, by the host's clock.
    pub when: When,
    pub host: &'a HostSettings,
}

impl HostSettings {
    /// UTC, and no script of the host's own. Takes no memory.
    pub fn in_utc(alloc: Global) -> HostSettings
        ensures zone { (moment : ℕ) → IsOffsetAt result.zone moment (pos 0) }
        ensures default { result.default ≡ None }
        ensures scripts { result.scripts ≡ no_host_scripts }
    {
        HostSettings {
            zone: HostZone::utc(),
            default: None,
            scripts: HostScripts::none(alloc),
        }
    }

    /// The terms of a delivery at a moment, in seconds since 1970-01-01 UTC. Takes no memory.
    pub fn at(&self, moment: u64) -> LentTerms<'_>
        ensures host { result.host.now ≡ self.now }
        ensures moment { result.when.moment ≡ moment }
        ensures zone { IsOffsetAt self.now.zone moment result.when.zone }
    {
        LentTerms {
            when: When {
                moment,
                zone: self.zone.at(moment),
            },
            host: self,
        }
    }

    /// The same, kept. Takes no memory.
    pub fn into_terms(self, moment: u64) -> Terms
        ensures host { result.host ≡ self }
        ensures moment { result.when.moment ≡ moment }
        ensures zone { IsOffsetAt self.zone moment result.when.zone }
    {
        let when = self.at(moment).when;
        Terms { when, host: self }
    }

    /// A copy. Lack of memory is the only error.
    pub fn try_clone(&self, alloc: Global) -> Result<HostSettings, AllocError>
        ensures { IfOk result (λ copy. copy ≡ self.now) }
    {
        let default = match &self.default {
            Some(text) => Some(text.try_clone(alloc)?),
            None => None,
        };
        Ok(HostSettings {
            zone: self.zone,
            default,
            scripts: self.scripts.try_clone(alloc)?,
        })
    }
}

impl Terms {
    /// The same, lent. Takes no memory.
    pub fn lend(&self) -> LentTerms<'_>
        ensures lent { terms_of result ≡ self.now }
        ensures when { result.when ≡ self.now.when }
    {
        LentTerms {
            when: self.when,
            host: &self.host,
        }
    }
}
