//! `vacation`: the answer to the sender (RFC 5230).
ghost use Rattle.std.specs.Prelude.{◌≡◌, IfOk};
ghost use Rattle.sieve_syntax.specs.RunState.{replied_by};

use crate::outcome::Failure;
use crate::run_state::{RunState, copied_address};
use mail_address::Addr;
use octets::{List, Octets};
use sieve_syntax::{ReplyFrom, VacationArgs};
use std::alloc::{AllocError, Global};

impl RunState {
    ghost use Rattle.sieve_exec.specs.Runs.{run_state_of, flow_of};

    /// Answers the sender, or returns why the run fails: another `vacation` was run (RFC 5230, 4.7).
    pub(crate) fn reply_by(
        &mut self,
        alloc: Global,
        args: &VacationArgs,
    ) -> Result<Option<Failure>, AllocError>
        ensures { IfOk result (λ failed. flow_of failed (run_state_of self.new) ≡ replied_by args.now (run_state_of self.old)) }
    {
        if self.reply.is_some() {
            return Ok(Some(Failure::TwoVacations));
        }
        self.reply = Some(copied_args(alloc, args)?);
        Ok(None)
    }
}

/// Copies the arguments of `vacation`.
fn copied_args(alloc: Global, args: &VacationArgs) -> Result<VacationArgs, AllocError>
    ensures { IfOk result (λ copy. copy ≡ args.now) }
{
    Ok(VacationArgs {
        days: args.days,
        seconds: args.seconds,
        subject: copied_text(alloc, &args.subject)?,
        from: copied_from(alloc, &args.from)?,
        addresses: copied_addresses(alloc, args.addresses.as_slice())?,
        mime: args.mime,
        handle: copied_text(alloc, &args.handle)?,
        reason: args.reason.try_clone(alloc)?,
    })
}

fn copied_text(alloc: Global, text: &Option<Octets>) -> Result<Option<Octets>, AllocError>
    ensures { IfOk result (λ copy. copy ≡ text.now) }
{
    match text {
        Some(text) => Ok(Some(text.try_clone(alloc)?)),
        None => Ok(None),
    }
}

fn copied_from(alloc: Global, from: &Option<ReplyFrom>) -> Result<Option<ReplyFrom>, AllocError>
    ensures { IfOk result (λ copy. copy ≡ from.now) }
{
    match from {
        Some(from) => Ok(Some(ReplyFrom {
            text: from.text.try_clone(alloc)?,
            display: from.display.try_clone(alloc)?,
            address: copied_address(alloc, &from.address)?,
        })),
        None => Ok(None),
    }
}

fn copied_addresses(alloc: Global, addresses: &[Addr]) -> Result<List<Addr>, AllocError>
    ensures { IfOk result (λ copies. copies ≡ addresses.now) }
{
    let mut copies = List::new(alloc);
    for address in addresses {
        copies.push(copied_address(alloc, address)?)?;
    }
    Ok(copies)
}
