//! `fileinto`: the message is filed into a mailbox (RFC 5228, 4.1).
ghost use Rattle.std.specs.Prelude.{◌≡◌, IfOk};
ghost use Rattle.sieve_syntax.specs.RunState.{mailbox_named, performed};
ghost use Rattle.sieve_syntax.specs.declared.tree.action.Action.TheVariants as action;

use crate::outcome::Failure;
use crate::run_state::{INBOX, RunState};
use sieve_syntax::FileInto;
use std::alloc::{AllocError, Global};

impl RunState {
    ghost use Rattle.sieve_exec.specs.Runs.{run_state_of, flow_of};

    /// Files the message into the mailbox that the arguments name, or returns why the run fails.
    pub(crate) fn file_by(
        &mut self,
        alloc: Global,
        filing: &FileInto,
    ) -> Result<Option<Failure>, AllocError>
        ensures { IfOk result (λ failed. flow_of failed (run_state_of self.new) ≡ performed (action.FileInto filing.now) (run_state_of self.old)) }
    {
        let mailbox = mailbox_named(filing.mailbox.as_slice());
        self.names_inbox = self.names_inbox || mailbox == INBOX;
        let flags = self.flags_given(alloc, &filing.flags)?;
        self.file_into(alloc, mailbox, flags, filing.copy)
    }
}

/// The mailbox that a name means: `INBOX` in any ASCII case is `INBOX`, other names are taken as they are.
fn mailbox_named(name: &[u8]) -> &[u8]
    ensures { result.now ≡ mailbox_named name.now }
{
    if name.eq_ignore_ascii_case(INBOX) {
        INBOX
    } else {
        name
    }
}
