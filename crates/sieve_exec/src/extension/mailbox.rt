//! `mailbox`: the test of names of mailboxes, `mailboxexists` (RFC 5490, 3.1).
ghost use Rattle.std.specs.Prelude.{◌↔◌, IsTrue};
ghost use Rattle.sieve_exec.specs.Sizes.{IsLeft};
ghost use Rattle.sieve_exec.specs.Extension.Mailbox.{MailboxesExist, mailboxes_work};

use crate::work::spend_texts;
use octets::Octets;
use sieve_syntax::is_mailbox;

/// Whether each name is that of a mailbox: each such mailbox exists as soon as something is filed into it. Linear; takes no memory.
pub(crate) fn are_mailboxes(names: &[Octets]) -> bool
    ensures { IsTrue result ↔ MailboxesExist names.now }
{
    names.iter().all(|name| is_mailbox(name.as_slice()))
}

/// What `mailboxexists` leaves.
pub(crate) fn spend_mailboxes(names: &[Octets], left: u64) -> Option<u64>
    ensures { IsLeft left (mailboxes_work names.now) result }
{
    spend_texts(left, names)
}
