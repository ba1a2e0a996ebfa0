//! `mailbox`: the tag `:create` of `fileinto`, and the test `mailboxexists` (RFC 5490, 3).
ghost use Rattle.std.specs.Prelude.{◌≡◌};
ghost use Rattle.sieve_syntax.specs.Capabilities.{granted_by};
ghost use Rattle.sieve_syntax.specs.Extension.Mailbox.{IsMailboxesTest, MayAskMailboxes, create_in};
ghost use Rattle.sieve_syntax.specs.declared.extension.ExtensionTest.TheVariants as X;
ghost use Rattle.sieve_syntax.specs.Extension.{MayAsk};
ghost use Rattle.sieve_syntax.specs.Parsing.{FindsFit};
ghost use Rattle.sieve_syntax.specs.Rows.{IsTableRow};

use crate::capability::{Capabilities, Capability};
use crate::error::ParseError;
use crate::extension::ExtensionTest;
use crate::parser::argument::Argument;
use crate::table::positional::read_list;
use crate::table::tag_group::TagValue;
use octets::Texts;
use std::alloc::Global;

/// The test `mailboxexists`, if it is permitted.
///
/// Syntax: mailboxexists <mailbox-names: string-list>; requires `mailbox` (RFC 5490, 3.1).
pub(crate) fn mailboxes_test(
    alloc: Global,
    args: &[Argument<'_>],
    granted: &Capabilities,
) -> Result<ExtensionTest, ParseError>
    ensures { FindsFit (IsTableRow IsMailboxesTest X.MailboxExists args.now) (MayAsk (granted_by granted.now)) result }
{
    let names = permitted_names(alloc, args, granted)?;
    Ok(ExtensionTest::MailboxExists(names))
}

/// The names of `mailboxexists`, if it is permitted.
fn permitted_names(
    alloc: Global,
    args: &[Argument<'_>],
    granted: &Capabilities,
) -> Result<Texts, ParseError>
    ensures { FindsFit (IsMailboxesTest args.now) (λ names. MayAskMailboxes (granted_by granted.now)) result }
{
    granted.require(Capability::Mailbox)?;
    let names = read_list(alloc, args)?;
    Ok(names)
}

/// Whether a mailbox that doesn't exist is to be created.
///
/// Syntax: fileinto [":create"]; requires `mailbox` (RFC 5490, 3.2).
pub(crate) fn given_create(tag_values: &[TagValue]) -> bool
    ensures { result ≡ create_in tag_values.now }
{
    for tag_value in tag_values {
        if let TagValue::Create = tag_value {
            return true;
        }
    }
    false
}
