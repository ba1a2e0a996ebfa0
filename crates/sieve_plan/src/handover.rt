//! What a script leaves to the one behind it, and a run that begins with it (RFC 5228, 2.10; RFC 5230; RFC 5232).
ghost use Rattle.std.specs.Prelude.{◌≡◌, ℕ, Bool, List as ListOf, cond, IfOk};
ghost use Rattle.sieve_exec.specs.Runs.{run_state_of};
ghost use Rattle.sieve_syntax.specs.RunState.{Going};
ghost use Rattle.sieve_plan.specs.Delivered.{kept};
ghost use Rattle.sieve_plan.specs.Handover.{nothing_left, begins_from, inbox_flags as inbox_flags_of, first_reply, ended_by};
ghost use Rattle.sieve_plan.specs.Plans.{deeds_in};
ghost use Rattle.sieve_plan.specs.Turns.{IsScriptEnd, handover_by, handover_of};

use crate::deeds::Deeds;
use crate::placements::{copied_placements, filed_behind, filed_for_good, has_inbox, inbox_flags};
use crate::targets::copied_addresses;
use mail_flags::Flags;
use octets::{List, Octets};
use sieve_exec::{Failure, RunState};
use sieve_syntax::VacationArgs;
use std::alloc::{AllocError, Global};

/// What stands of the scripts that ran so far.
#[derive(Drop)]
pub struct Standing {
    /// What is done where no other script runs. The next one begins with its addresses and its mailboxes, but INBOX only if that is
    /// there for good.
    pub done: Deeds,
    /// Whether a `fileinto` named INBOX: its copy is there for good then, and isn't that of a keep alone.
    pub names_inbox: bool,
    /// The flags of the copy of the last `keep`, if one was executed.
    pub keep_flags: Option<Octets>,
}

/// What a script and those before it leave to the next.
#[derive(Drop)]
pub struct Handover {
    pub stands: Standing,
    /// The flags that are set.
    pub flags: Flags,
    /// Whether the message is still to be kept.
    pub is_kept: bool,
}

/// How a script ends.
#[derive(Drop)]
pub enum ScriptEnd {
    /// At its last command or at a `stop`.
    Ended(Handover),
    /// It failed, and does nothing: this is done by those before it.
    Failed(Deeds, Failure),
}

impl Handover {
    /// Before the first script.
    pub(crate) fn first(alloc: Global) -> Result<Handover, AllocError>
        ensures left { IfOk result (λ left. handover_of left ≡ nothing_left) }
        ensures done { IfOk result (λ left. deeds_in left.stands.done ≡ kept) }
    {
        Ok(Handover {
            stands: Standing {
                done: Deeds::kept(alloc)?,
                names_inbox: false,
                keep_flags: None,
            },
            flags: Flags::new(alloc),
            is_kept: true,
        })
    }
}

impl Standing {
    /// A run that begins with what stands and these flags. The mailboxes and the addresses are copied.
    pub(crate) fn begin(&self, alloc: Global, flags: Flags) -> Result<RunState, AllocError>
        ensures { IfOk result (λ state. (is_kept : Bool) → run_state_of state ≡ begins_from (handover_by self.now flags is_kept)) }
    {
        let copies = copied_placements(alloc, self.done.filed.as_slice())?;
        Ok(RunState {
            filed: filed_for_good(self.names_inbox, copies),
            flags,
            sent: copied_addresses(alloc, self.done.sent.as_slice())?,
            reply: None,
            cancelled: false,
            has_kept: false,
            names_inbox: false,
        })
    }

    /// How a script ends whose run began with this and came so far: its implicit keep comes last.
    pub(crate) fn end(self, alloc: Global, at_end: RunState) -> Result<ScriptEnd, AllocError>
        ensures { IfOk result (λ end. (flags : ListOf (ListOf ℕ)) (is_kept : Bool)
            → IsScriptEnd (ended_by (handover_by self flags is_kept) (Going (run_state_of at_end))) (deeds_in self.done) end) }
    {
        let Standing {
            done,
            names_inbox,
            keep_flags,
        } = self;
        let is_kept = at_end.has_kept || !at_end.cancelled;
        let next_flags = keep_flags_behind(alloc, &at_end, &keep_flags)?;
        let mut kept = at_end;
        if let Some(failure) = kept.keep_implicitly(alloc, keep_flags)? {
            return Ok(ScriptEnd::Failed(done, failure));
        }
        let Deeds { filed, reply, .. } = done;
        let before = filed_for_good(names_inbox, filed.into_vec());
        let names_inbox = has_inbox(before.as_slice()) || kept.names_inbox;
        Ok(ScriptEnd::Ended(Handover {
            stands: Standing {
                done: Deeds {
                    filed: filed_behind(before, kept.filed)?,
                    sent: kept.sent,
                    reply: first_reply(reply, kept.reply),
                },
                names_inbox,
                keep_flags: next_flags,
            },
            flags: kept.flags,
            is_kept,
        }))
    }
}

/// The flags of the copy of the last `keep` behind a run that came so far, given those of one that was executed before it.
fn keep_flags_behind(
    alloc: Global,
    at_end: &RunState,
    before: &Option<Octets>,
) -> Result<Option<Octets>, AllocError>
    ensures { IfOk result (λ flags. flags ≡ cond at_end.now.has_kept (inbox_flags_of at_end.now.filed.items) before.now) }
{
    if at_end.has_kept {
        return inbox_flags(alloc, at_end.filed.as_slice());
    }
    match before {
        Some(flags) => Ok(Some(flags.try_clone(alloc)?)),
        None => Ok(None),
    }
}

/// The first answer stands.
fn first_reply(one: Option<VacationArgs>, later: Option<VacationArgs>) -> Option<VacationArgs>
    ensures { result ≡ first_reply one later }
{
    if one.is_some() { one } else { later }
}
