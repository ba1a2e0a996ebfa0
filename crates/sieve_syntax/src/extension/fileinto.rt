//! `fileinto` (RFC 5228, 4.1).
ghost use Rattle.std.specs.Prelude.{◌↔◌, IsTrue};
ghost use Rattle.sieve_syntax.specs.Capabilities.{granted_by};
ghost use Rattle.sieve_syntax.specs.Extension.FileInto.{IsFileInto, IsMailboxName, MayFileInto, SaysFileInto};
ghost use Rattle.sieve_syntax.specs.Parsing.{FindsFit, FindsValue};

use crate::capability::{Capabilities, Capability};
use crate::error::ParseError;
use crate::extension::copy::given_copy;
use crate::extension::imap4flags::given_flags;
use crate::extension::mailbox::given_create;
use crate::parser::argument::Argument;
use crate::table::positional::text;
use crate::table::tag_group::{TagGroup, TagValue, split_tags};
use crate::table::utf8::is_utf8;
use octets::{Octets, Texts};
use sieve_lex::FaultKind;
use std::alloc::Global;

/// The most octets of a mailbox's name.
const MAX_MAILBOX: usize = 255;

/// The arguments of `fileinto`.
#[derive(Drop)]
pub struct FileInto {
    /// The mailbox as it was written: 1 to 255 octets, none below 32 and none 127.
    pub mailbox: Octets,
    /// `:copy`: the implicit keep isn't cancelled (RFC 3894, 3.1).
    pub copy: bool,
    /// `:create`: the mailbox is created if it doesn't exist, which is also done without it (RFC 5490, 3.2).
    pub create: bool,
    /// The texts of `:flags`: which flags the copy has, instead of those that are set (RFC 5232, 5).
    pub flags: Option<Texts>,
}

/// The arguments of `fileinto`, if it is permitted.
///
/// Syntax: fileinto [":copy"] [":create"] [":flags" <list-of-flags: string-list>] <mailbox: string>; requires `fileinto`,
/// and its tags require `copy`, `mailbox` and `imap4flags` (RFC 5228, 4.1; RFC 3894; RFC 5490, 3.2; RFC 5232, 5).
pub(crate) fn permitted_filing(
    alloc: Global,
    args: &[Argument<'_>],
    granted: &Capabilities,
) -> Result<FileInto, ParseError>
    ensures { FindsFit (IsFileInto args.now) (MayFileInto (granted_by granted.now)) result }
{
    granted.require(Capability::FileInto)?;
    let filing = read_file_into(alloc, args)?;
    granted.require_if(filing.copy, Capability::Copy)?;
    granted.require_if(filing.create, Capability::Mailbox)?;
    granted.require_if(filing.flags.is_some(), Capability::Imap4flags)?;
    if !is_mailbox(filing.mailbox.as_slice()) {
        return Err(ParseError::Fault(FaultKind::BadMailbox));
    }
    Ok(filing)
}

/// Reads the arguments of `fileinto`.
fn read_file_into(alloc: Global, args: &[Argument<'_>]) -> Result<FileInto, ParseError>
    ensures { FindsValue (IsFileInto args.now) result }
{
    let allowed = &[TagGroup::Copy, TagGroup::Create, TagGroup::Flags];
    let (tag_values, positional) = split_tags(alloc, args, allowed)?;
    file_into_from(alloc, tag_values.as_slice(), positional)
}

fn file_into_from(
    alloc: Global,
    tag_values: &[TagValue],
    positional: &[Argument<'_>],
) -> Result<FileInto, ParseError>
    ensures { FindsValue (SaysFileInto tag_values.now positional.now) result }
{
    let mailbox = text(alloc, positional)?;
    let flags = given_flags(alloc, tag_values)?;
    Ok(FileInto {
        mailbox,
        copy: given_copy(tag_values),
        create: given_create(tag_values),
        flags,
    })
}

/// Whether a text is the name of a mailbox: 1 to 255 octets of UTF-8, none below 32 and none 127. Linear; takes no memory.
pub fn is_mailbox(name: &[u8]) -> bool
    ensures { IsTrue result ↔ IsMailboxName name.now }
{
    !name.is_empty()
        && name.len() <= MAX_MAILBOX
        && name.iter().all(|octet| *octet >= 32 && *octet != 127)
        && is_utf8(name)
}
