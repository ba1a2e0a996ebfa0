//! What scripts do.
ghost use Rattle.std.specs.Prelude.{◌≡◌, IfOk};
ghost use Rattle.sieve_plan.specs.Delivered.{kept};
ghost use Rattle.sieve_plan.specs.Plans.{deeds_in};

use crate::placements::inbox;
use mail_address::Addr;
use mail_flags::Placement;
use octets::List;
use sieve_syntax::VacationArgs;
use std::alloc::{AllocError, Global};

/// What the scripts do that ran on a message.
#[derive(Drop)]
pub struct Deeds {
    /// The mailboxes that the message goes into, each once, with the flags of its copy there.
    pub filed: List<Placement>,
    /// The addresses that it is sent to, each once.
    pub sent: List<Addr>,
    /// What the sender is answered, if `vacation` was executed.
    pub reply: Option<VacationArgs>,
}

impl Deeds {
    /// The implicit keep, and nothing else.
    pub(crate) fn kept(alloc: Global) -> Result<Deeds, AllocError>
        ensures { IfOk result (λ deeds. deeds_in deeds ≡ kept) }
    {
        Ok(Deeds {
            filed: inbox(alloc)?,
            sent: List::new(alloc),
            reply: None,
        })
    }
}
