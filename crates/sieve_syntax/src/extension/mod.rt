//! The extensions: a room for each, and here which of them has which test.
ghost use Rattle.sieve_syntax.specs.Capabilities.{granted_by};
ghost use Rattle.sieve_syntax.specs.Extension.{IsExtensionTest, MayAsk};
ghost use Rattle.sieve_syntax.specs.Parsing.{FindsFit};

pub mod copy;
pub mod date;
pub mod encoded_character;
pub mod envelope;
pub mod fileinto;
pub mod imap4flags;
pub mod mailbox;
pub mod numeric;
pub mod relational;
pub mod subaddress;
pub mod vacation;
pub mod vacation_seconds;

use crate::capability::Capabilities;
use crate::error::ParseError;
use crate::extension::date::{CurrentDate, DateTest, current_date_test, date_test};
use crate::extension::envelope::{EnvelopeTest, envelope_test};
use crate::extension::imap4flags::{HasFlag, has_flag_test};
use crate::extension::mailbox::mailboxes_test;
use crate::parser::argument::Argument;
use crate::table::keyword::Keyword;
use octets::Texts;
use sieve_lex::FaultKind;
use std::alloc::Global;

/// A test of an extension.
#[derive(Drop)]
pub enum ExtensionTest {
    /// `envelope` (RFC 5228, 5.4).
    Envelope(EnvelopeTest),
    /// `mailboxexists`, with the names that all have to be names of mailboxes (RFC 5490, 3.1).
    MailboxExists(Texts),
    /// `date` (RFC 5260, 4).
    Date(DateTest),
    /// `currentdate` (RFC 5260, 5).
    CurrentDate(CurrentDate),
    /// `hasflag`, which looks at the flags that are set so far (RFC 5232, 4).
    HasFlag(HasFlag),
}

/// The test of an extension that this word and these arguments are, if it is permitted.
pub(crate) fn extension_test(
    alloc: Global,
    keyword: Keyword,
    args: &[Argument<'_>],
    granted: &Capabilities,
) -> Result<ExtensionTest, ParseError>
    ensures { FindsFit (IsExtensionTest keyword args.now) (MayAsk (granted_by granted.now)) result }
{
    match keyword {
        Keyword::Envelope => envelope_test(alloc, args, granted),
        Keyword::MailboxExists => mailboxes_test(alloc, args, granted),
        Keyword::Date => date_test(alloc, args, granted),
        Keyword::CurrentDate => current_date_test(alloc, args, granted),
        Keyword::HasFlag => has_flag_test(alloc, args, granted),
        _ => Err(ParseError::Fault(FaultKind::UnknownTest)),
    }
}
