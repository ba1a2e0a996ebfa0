//! What a run has done so far.
ghost use Rattle.std.specs.Prelude.{◌≡◌, Bool, true, not, [], ◌∷◌, ◌++◌, None, IfOk};
ghost use Rattle.std.specs.List.{list_any};
ghost use Rattle.sieve_syntax.specs.RunState.{performed, at_first, filed_into, kept_with, same_target as same_target_of, sent_to, Going};
ghost use Rattle.sieve_syntax.specs.Meaning.{outcome_after};
ghost use Rattle.sieve_syntax.specs.declared.tree.action.Action.TheVariants.{Keep};

use crate::mailboxes::{file, has_room};
use crate::outcome::{Failure, Outcome};
use mail_address::Addr;
use mail_flags::{Flags, Placement};
use octets::{List, Octets, Texts};
use sieve_syntax::{Action, Redirect, VacationArgs};
use std::alloc::{AllocError, Global};

/// The mailbox of `keep`, of the implicit keep, and of a message that no script files.
pub const INBOX: &[u8] = b"INBOX";

/// The most addresses to which a run sends a message.
const MAX_TARGETS: usize = 16;

/// What a run has done so far.
#[derive(Drop)]
pub struct RunState {
    /// The mailboxes that the message goes into, each once, in the order of the first command that says so, with the flags that
    /// the last one gives the copy.
    pub filed: Vec<Placement>,
    /// The flags that are set (RFC 5232, 3).
    pub flags: Flags,
    /// The addresses that the message is sent to, each once, in the order of the first command that says so.
    pub sent: List<Addr>,
    /// The arguments of the `vacation` that was run, if one was.
    pub reply: Option<VacationArgs>,
    /// Whether the implicit keep is cancelled.
    pub cancelled: bool,
    /// Whether a `keep` was executed.
    pub has_kept: bool,
    /// Whether a `fileinto` was executed that names INBOX.
    pub names_inbox: bool,
}

impl RunState {
    ghost use Rattle.sieve_exec.specs.Runs.{run_state_of, flow_of, outcome_view};

    /// Nothing has been done yet. Takes no memory.
    pub fn new(alloc: Global) -> RunState
        ensures { run_state_of result ≡ at_first }
    {
        RunState {
            filed: Vec::new(alloc),
            flags: Flags::new(alloc),
            sent: List::new(alloc),
            reply: None,
            cancelled: false,
            has_kept: false,
            names_inbox: false,
        }
    }

    /// Carries out an action, or returns why the run fails (RFC 5228, 4; RFC 5230; RFC 5232, 3 and 5).
    pub(crate) fn act(
        &mut self,
        alloc: Global,
        action: &Action,
    ) -> Result<Option<Failure>, AllocError>
        ensures { IfOk result (λ failed. flow_of failed (run_state_of self.new) ≡ performed action.now (run_state_of self.old)) }
    {
        match action {
            Action::Keep(given) => self.keep_by(alloc, given),
            Action::Discard => {
                self.cancelled = true;
                Ok(None)
            }
            Action::FileInto(filing) => self.file_by(alloc, filing),
            Action::Redirect(Redirect { target, copy }) => self.send_to(alloc, target, *copy),
            Action::Vacation(reply) => self.reply_by(alloc, reply.args()),
            Action::SetFlag(texts) => {
                self.flags.set(alloc, texts.as_slice())?;
                Ok(None)
            }
            Action::AddFlag(texts) => {
                self.flags.add(alloc, texts.as_slice())?;
                Ok(None)
            }
            Action::RemoveFlag(texts) => {
                self.flags.remove(texts.as_slice());
                Ok(None)
            }
        }
    }

    /// The outcome of a run that is over: the implicit keep comes last, with the flags that are set then.
    pub(crate) fn finish(mut self, alloc: Global) -> Result<Outcome, AllocError>
        ensures { IfOk result (λ done. outcome_view done ≡ outcome_after (Going (run_state_of self))) }
    {
        if let Some(failure) = self.keep_implicitly(alloc, None)? {
            return Ok(Outcome::Failed(failure));
        }
        Ok(Outcome::Done {
            filed: List::from_vec(self.filed),
            sent: self.sent,
            reply: self.reply,
        })
    }

    /// The implicit keep, unless it is cancelled; its copy gets these flags, or otherwise those that are set (RFC 5228, 2.10.2; RFC 5232, 5).
    /// Returns why the run fails, if it does.
    pub fn keep_implicitly(
        &mut self,
        alloc: Global,
        flags: Option<Octets>,
    ) -> Result<Option<Failure>, AllocError>
        ensures { IfOk result (λ failed. flow_of failed (run_state_of self.new) ≡ kept_with flags (run_state_of self.old)) }
    {
        if self.cancelled {
            return Ok(None);
        }
        let flags = match flags {
            Some(flags) => flags,
            None => self.flags_given(alloc, &None)?,
        };
        self.file_into(alloc, INBOX, flags, true)
    }

    /// Carries out `keep`, with the flags that it gives its copy (RFC 5228, 4.3; RFC 5232, 5).
    fn keep_by(
        &mut self,
        alloc: Global,
        given: &Option<Texts>,
    ) -> Result<Option<Failure>, AllocError>
        ensures { IfOk result (λ failed. flow_of failed (run_state_of self.new) ≡ performed (Keep given.now) (run_state_of self.old)) }
    {
        self.has_kept = true;
        let flags = self.flags_given(alloc, given)?;
        self.file_into(alloc, INBOX, flags, false)
    }

    /// Files the message into a mailbox, with these flags of its copy.
    pub(crate) fn file_into(
        &mut self,
        alloc: Global,
        mailbox: &[u8],
        flags: Octets,
        copy: bool,
    ) -> Result<Option<Failure>, AllocError>
        ensures { IfOk result (λ failed. flow_of failed (run_state_of self.new) ≡ filed_into mailbox.now flags copy (run_state_of self.old)) }
    {
        if !has_room(self.filed.as_slice(), mailbox) {
            return Ok(Some(Failure::TooManyMailboxes));
        }
        let mailbox = Octets::from_slice(alloc, mailbox)?;
        file(&mut self.filed, Placement { mailbox, flags })?;
        self.cancelled = self.cancelled || !copy;
        Ok(None)
    }

    fn send_to(
        &mut self,
        alloc: Global,
        target: &Addr,
        copy: bool,
    ) -> Result<Option<Failure>, AllocError>
        ensures { IfOk result (λ failed. flow_of failed (run_state_of self.new) ≡ sent_to target.now copy (run_state_of self.old)) }
    {
        if !has_address(self.sent.as_slice(), target) {
            if self.sent.as_slice().len() >= MAX_TARGETS {
                return Ok(Some(Failure::TooManyRedirects));
            }
            self.sent.push(copied_address(alloc, target)?)?;
        }
        self.cancelled = self.cancelled || !copy;
        Ok(None)
    }
}

/// Whether an address is among these.
fn has_address(addresses: &[Addr], target: &Addr) -> bool
    ensures { result ≡ list_any (λ there. same_target_of there target.now) addresses.now }
{
    addresses.iter().any(|there| is_same(there, target))
}

/// Whether two addresses have the same local part and the same domain, by octets.
fn is_same(there: &Addr, target: &Addr) -> bool
    ensures { result ≡ same_target_of there.now target.now }
{
    there.local.as_slice() == target.local.as_slice()
        && there.domain.as_slice() == target.domain.as_slice()
}

/// Copies an address.
pub(crate) fn copied_address(alloc: Global, address: &Addr) -> Result<Addr, AllocError>
    ensures { IfOk result (λ copy. copy ≡ address.now) }
{
    Ok(Addr {
        local: address.local.try_clone(alloc)?,
        domain: address.domain.try_clone(alloc)?,
    })
}
