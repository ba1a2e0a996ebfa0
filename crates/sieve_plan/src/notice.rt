//! The notice for the user on a message that the scripts don't decide on any further.
ghost use Rattle.std.specs.Prelude.{◌≡◌, IfOk};
ghost use Rattle.sieve_exec.specs.Runs.{failure_view};
ghost use Rattle.sieve_plan.specs.Delivered.{failure_text};
ghost use Rattle.sieve_plan.specs.Plans.{notice_cause_text};
ghost use Rattle.sieve_plan.specs.Sequences.{told_of};
ghost use Rattle.sieve_plan.specs.SequencePlans.{failure_notice_text};

use crate::scripts::Whose;
use octets::Octets;
use sieve_exec::Failure;
use std::alloc::{AllocError, Global};

/// Why the scripts don't decide on a message any further.
#[derive(Clone, Copy, Debug)]
pub enum FailureNotice {
    /// No script was run: the message may go round in a loop.
    Loop,
    /// A script failed.
    Script {
        /// Whose it was.
        whose: Whose,
        /// Why it failed.
        cause: NoticeCause,
    },
}

/// Why a script fails.
#[derive(Clone, Copy, Debug)]
pub enum NoticeCause {
    /// Its text is no valid script.
    Invalid,
    /// Its run failed.
    Failed(Failure),
}

impl FailureNotice {
    /// The notice, of at most 35 octets; that of a failure of a host's script says whose it was.
    pub fn text(self, alloc: Global) -> Result<Octets, AllocError>
        ensures { IfOk result (λ text. text ≡ failure_notice_text self) }
    {
        match self {
            FailureNotice::Loop => Octets::from_slice(alloc, LOOP_TEXT),
            FailureNotice::Script { whose, cause } => tell_of(alloc, whose, cause.text()),
        }
    }
}

/// The notice on a failure for this reason, of a script of these.
fn tell_of(alloc: Global, whose: Whose, why: &[u8]) -> Result<Octets, AllocError>
    ensures { IfOk result (λ text. text ≡ told_of whose why.now) }
{
    let mut text = match whose {
        Whose::Before => Octets::from_slice(alloc, b"before: ")?,
        Whose::Own => Octets::new(alloc),
        Whose::After => Octets::from_slice(alloc, b"after: ")?,
    };
    text.extend_from_slice(why)?;
    Ok(text)
}

impl NoticeCause {
    /// The notice, but for whose the script was. Takes no memory.
    pub fn text(self) -> &'static [u8]
        ensures { result.now ≡ notice_cause_text self }
    {
        match self {
            NoticeCause::Invalid => b"script is not valid",
            NoticeCause::Failed(failure) => failure_text(failure),
        }
    }
}

/// The notice on a message that may go round in a loop.
const LOOP_TEXT: &[u8] = b"more than 100 Received fields";

/// The notice on a message with a long header.
pub(crate) const LONG_TEXT: &[u8] = b"header larger than 1 MiB";

/// The notice on a message for which there was no room in the queue.
pub(crate) const FULL_TEXT: &[u8] = b"queue is full";

/// The notice on a message that is too large for one delivery to write it for each address.
pub(crate) const LARGE_TEXT: &[u8] = b"too large to be sent on to all";

/// The notice on a message that was sent on as often as one may be.
pub(crate) const MANY_TEXT: &[u8] = b"sent on to 16 addresses before";

/// The notice on a message that was sent on to an address before.
pub(crate) const BEFORE_TEXT: &[u8] = b"sent on before";

/// The notice on a run that failed (RFC 5228, 2.10.6): `more than 16 redirects`. Takes no memory.
pub fn failure_text(failure: Failure) -> &'static [u8]
    ensures { result.now ≡ failure_text (failure_view failure) }
{
    match failure {
        Failure::TwoVacations => b"vacation executed twice",
        Failure::TooManyRedirects => b"more than 16 redirects",
        Failure::TooManyMailboxes => b"more than 100 mailboxes",
        Failure::TooMuchWork => b"script takes too much work",
    }
}
