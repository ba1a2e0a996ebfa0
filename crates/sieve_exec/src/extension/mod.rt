//! What a run does of each extension: a room for each, and here which of their tests hold, and the work that these take.
ghost use Rattle.std.specs.Prelude.{◌≡◌, IfOk};
ghost use Rattle.sieve_exec.specs.Extension.{extension_truth, extension_work};
ghost use Rattle.sieve_exec.specs.Sizes.{IsLeft};

pub(crate) mod date;
pub(crate) mod envelope;
pub(crate) mod fileinto;
pub(crate) mod imap4flags;
pub(crate) mod mailbox;
pub(crate) mod numeric;
pub(crate) mod relational;
pub(crate) mod subaddress;
pub(crate) mod vacation;

use crate::extension::date::{current_holds, date_holds, spend_current, spend_date};
use crate::extension::envelope::{envelope_holds, spend_envelope};
use crate::extension::imap4flags::{flag_holds, spend_flags};
use crate::extension::mailbox::{are_mailboxes, spend_mailboxes};
use crate::mail::Mail;
use mail_flags::Flags;
use sieve_syntax::ExtensionTest;
use std::alloc::{AllocError, Global};

/// Whether a test of an extension holds of a mail and the flags of the run.
///
/// Each `date` reads the one value that it looks at, and `hasflag` looks only at the flags.
pub(crate) fn extension_holds(
    alloc: Global,
    mail: &Mail<'_>,
    flags: &Flags,
    test: &ExtensionTest,
) -> Result<bool, AllocError>
    ensures { IfOk result (λ holds. holds ≡ extension_truth mail.now flags.now test.now) }
{
    match test {
        ExtensionTest::Envelope(test) => Ok(envelope_holds(mail, test)),
        ExtensionTest::MailboxExists(names) => Ok(are_mailboxes(names.as_slice())),
        ExtensionTest::Date(test) => date_holds(alloc, mail, test),
        ExtensionTest::CurrentDate(test) => current_holds(alloc, mail, test),
        ExtensionTest::HasFlag(test) => Ok(flag_holds(flags.names(), test)),
    }
}

/// What a test of an extension leaves of the work that may be taken, or `None` if it takes more.
pub(crate) fn spend_extension(
    alloc: Global,
    mail: &Mail<'_>,
    flags: &Flags,
    test: &ExtensionTest,
    left: u64,
) -> Result<Option<u64>, AllocError>
    ensures { IfOk result (IsLeft left (extension_work mail.now flags.now test.now)) }
{
    match test {
        ExtensionTest::Envelope(test) => Ok(spend_envelope(mail, test, left)),
        ExtensionTest::MailboxExists(names) => Ok(spend_mailboxes(names.as_slice(), left)),
        ExtensionTest::Date(test) => spend_date(alloc, mail, test, left),
        ExtensionTest::CurrentDate(test) => Ok(spend_current(test, left)),
        ExtensionTest::HasFlag(test) => Ok(spend_flags(flags.names(), test, left)),
    }
}
