//! `imap4flags`: `:flags` of `keep` and `fileinto`, `setflag`, `addflag`, `removeflag`, and the test `hasflag` (RFC 5232).
ghost use Rattle.std.specs.Prelude.{◌≡◌, IfOk};
ghost use Rattle.sieve_syntax.specs.Capabilities.{granted_by};
ghost use Rattle.sieve_syntax.specs.Extension.Imap4flags.{IsFlagList, IsHasFlagTest, MayAskHasFlag, MaySetFlags, SaysHasFlag, flags_in};
ghost use Rattle.sieve_syntax.specs.declared.extension.ExtensionTest.TheVariants as X;
ghost use Rattle.sieve_syntax.specs.Extension.{MayAsk};
ghost use Rattle.sieve_syntax.specs.Parsing.{FindsFit, FindsValue};
ghost use Rattle.sieve_syntax.specs.Rows.{IsTableRow};

use crate::capability::{Capabilities, Capability};
use crate::error::ParseError;
use crate::extension::ExtensionTest;
use crate::parser::argument::Argument;
use crate::table::comparators::require_match;
use crate::table::positional::{list, read_list};
use crate::table::tag_group::{TagGroup, TagValue, split_tags};
use crate::table::tag_values::{given_comparator, given_matching};
use crate::tree::checks::{Collation, Matching};
use octets::Texts;
use std::alloc::{AllocError, Global};

/// The arguments of `hasflag`: one of the flags that are set, or their number, has to match one of the keys (RFC 5232, 4).
#[derive(Drop)]
pub struct HasFlag {
    /// How octets are compared.
    pub comparator: Collation,
    /// How a flag has to match a key.
    pub matching: Matching,
    /// The keys, as they were written: one may name several flags.
    pub keys: Texts,
}

/// The texts of `setflag`, `addflag` or `removeflag`, if it is permitted.
///
/// Syntax: setflag <list-of-flags: string-list>, and addflag and removeflag alike; require `imap4flags` (RFC 5232, 3.1 to 3.3).
pub(crate) fn permitted_flags(
    alloc: Global,
    args: &[Argument<'_>],
    granted: &Capabilities,
) -> Result<Texts, ParseError>
    ensures { FindsFit (IsFlagList args.now) (λ texts. MaySetFlags (granted_by granted.now)) result }
{
    granted.require(Capability::Imap4flags)?;
    let texts = read_list(alloc, args)?;
    Ok(texts)
}

/// The test `hasflag`, if it is permitted.
///
/// Syntax: hasflag [MATCH-TYPE] [COMPARATOR] <list-of-flags: string-list>; requires `imap4flags` (RFC 5232, 4).
pub(crate) fn has_flag_test(
    alloc: Global,
    args: &[Argument<'_>],
    granted: &Capabilities,
) -> Result<ExtensionTest, ParseError>
    ensures { FindsFit (IsTableRow IsHasFlagTest X.HasFlag args.now) (MayAsk (granted_by granted.now)) result }
{
    let flag = permitted_has_flag(alloc, args, granted)?;
    Ok(ExtensionTest::HasFlag(flag))
}

/// The arguments of `hasflag`, if it is permitted.
fn permitted_has_flag(
    alloc: Global,
    args: &[Argument<'_>],
    granted: &Capabilities,
) -> Result<HasFlag, ParseError>
    ensures { FindsFit (IsHasFlagTest args.now) (MayAskHasFlag (granted_by granted.now)) result }
{
    granted.require(Capability::Imap4flags)?;
    let flag = read_has_flag(alloc, args)?;
    require_match(granted, flag.comparator, flag.matching)?;
    Ok(flag)
}

/// Reads the arguments of `hasflag`.
fn read_has_flag(alloc: Global, args: &[Argument<'_>]) -> Result<HasFlag, ParseError>
    ensures { FindsValue (IsHasFlagTest args.now) result }
{
    let (tag_values, positional) = split_tags(
        alloc,
        args,
        &[TagGroup::Comparator, TagGroup::Matching],
    )?;
    has_flag_from(alloc, tag_values.as_slice(), positional)
}

fn has_flag_from(
    alloc: Global,
    tag_values: &[TagValue],
    positional: &[Argument<'_>],
) -> Result<HasFlag, ParseError>
    ensures { FindsValue (SaysHasFlag tag_values.now positional.now) result }
{
    let keys = list(alloc, positional)?;
    Ok(HasFlag {
        comparator: given_comparator(tag_values),
        matching: given_matching(tag_values),
        keys,
    })
}

/// The texts of `:flags`, if they are given.
///
/// Syntax: keep [":flags" <list-of-flags: string-list>], fileinto alike; requires `imap4flags` (RFC 5232, 5).
pub(crate) fn given_flags(
    alloc: Global,
    tag_values: &[TagValue],
) -> Result<Option<Texts>, AllocError>
    ensures { IfOk result (λ found. found ≡ flags_in tag_values.now) }
{
    for tag_value in tag_values {
        if let TagValue::Flags(texts) = tag_value {
            return Ok(Some(texts.try_clone(alloc)?));
        }
    }
    Ok(None)
}
