//! `vacation` (RFC 5230).
ghost use Rattle.std.specs.Prelude.{◌≡◌, IfOk};
ghost use Rattle.sieve_syntax.specs.Capabilities.{granted_by};
ghost use Rattle.sieve_syntax.specs.Extension.Vacation.{IsVacation, MayReply};
ghost use Rattle.sieve_syntax.specs.Parsing.{FindsFit};

pub mod arguments;
pub mod reason;

use crate::capability::{Capabilities, Capability};
use crate::error::ParseError;
use crate::extension::vacation::arguments::read_vacation;
use crate::extension::vacation::reason::check_reason;
use crate::parser::argument::Argument;
use mail_address::Addr;
use octets::{List, Octets};
use std::alloc::{AllocError, Global};
use std::marker::Model;

/// The arguments of `vacation`, if it is permitted.
///
/// Syntax: vacation [":days" number / ":seconds" number] [":subject" string] [":from" string] [":addresses" string-list] [":mime"]
/// [":handle" string] <reason: string>; requires `vacation`, and `:seconds` requires `vacation-seconds` (RFC 5230, 4; RFC 6131).
pub(crate) fn permitted_vacation(
    alloc: Global,
    args: &[Argument<'_>],
    granted: &Capabilities,
) -> Result<Vacation, ParseError>
    ensures { FindsFit (IsVacation args.now) (MayReply (granted_by granted.now)) result }
{
    granted.require_some(Capability::Vacation, Capability::VacationSeconds)?;
    let vacation = read_vacation(alloc, args)?;
    granted.require_if(vacation.seconds.is_some(), Capability::VacationSeconds)?;
    check_reason(&vacation)?;
    Ok(Vacation::new(alloc, vacation)?)
}

/// The arguments of `vacation`, boxed so that the other actions take no memory for them. Contracts
/// see the arguments.
#[derive(Drop)]
pub struct Vacation {
    args: Box<VacationArgs>,
}

impl Model for Vacation {
    ghost use Rattle.sieve_syntax.specs.declared.extension.vacation.VacationArgs.{VacationArgs};

    ghost Value = { VacationArgs };

    ghost view = { λ reply. reply.args.value };
}

impl Vacation {
    /// Boxes these arguments, without a copy; if there is no memory they are dropped.
    pub(crate) fn new(alloc: Global, args: VacationArgs) -> Result<Vacation, AllocError>
        ensures { IfOk result (λ reply. reply ≡ args) }
    {
        Ok(Vacation {
            args: Box::new(alloc, args)?,
        })
    }

    /// The arguments.
    pub fn args(&self) -> &VacationArgs
        ensures { result.now ≡ self.now }
    {
        &self.args
    }
}

/// The arguments of `vacation`, as they were written (RFC 5230, 4). A tag that isn't given is `None`.
#[derive(Drop)]
pub struct VacationArgs {
    /// `:days`: for how many days the same sender gets no second answer, in any range (RFC 5230, 4.1).
    pub days: Option<u64>,
    /// `:seconds`: for how many seconds, instead of `:days`, in any range (RFC 6131).
    pub seconds: Option<u64>,
    /// `:subject` (RFC 5230, 4.3).
    pub subject: Option<Octets>,
    /// `:from` (RFC 5230, 4.3).
    pub from: Option<ReplyFrom>,
    /// `:addresses`: the addresses of the user besides those known already (RFC 5230, 4.5), in order. A text that
    /// isn't an address adds none.
    pub addresses: List<Addr>,
    /// `:mime`: the reason is a MIME entity, a header and a body (RFC 5230, 4.4).
    pub mime: bool,
    /// `:handle`: the name of the answer, under which it is remembered whether the sender has received it (RFC 5230, 4.2).
    pub handle: Option<Octets>,
    /// The reason: the text of the answer.
    pub reason: Octets,
}

/// The value of `:from`.
#[derive(Drop)]
pub struct ReplyFrom {
    /// The text as it was written.
    pub text: Octets,
    /// Its display name: the words before an address in angle brackets, or nothing.
    pub display: Octets,
    /// Its address.
    pub address: Addr,
}
