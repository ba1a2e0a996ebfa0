//! The arguments of `keep` (RFC 5228, 4.3; RFC 5232, 5).
ghost use Rattle.sieve_syntax.specs.Parsing.{FindsValue};
ghost use Rattle.sieve_syntax.specs.Table.{IsKeep, SaysKeep};

use crate::error::ParseError;
use crate::extension::imap4flags::given_flags;
use crate::parser::argument::Argument;
use crate::table::positional::no_arguments;
use crate::table::tag_group::{TagGroup, TagValue, split_tags};
use octets::Texts;
use std::alloc::Global;

/// Reads the texts of `keep`'s `:flags`, if they are given.
pub(crate) fn read_keep(alloc: Global, args: &[Argument<'_>]) -> Result<Option<Texts>, ParseError>
    ensures { FindsValue (IsKeep args.now) result }
{
    let (tag_values, positional) = split_tags(alloc, args, &[TagGroup::Flags])?;
    keep_from(alloc, tag_values.as_slice(), positional)
}

fn keep_from(
    alloc: Global,
    tag_values: &[TagValue],
    positional: &[Argument<'_>],
) -> Result<Option<Texts>, ParseError>
    ensures { FindsValue (SaysKeep tag_values.now positional.now) result }
{
    no_arguments(positional)?;
    let given = given_flags(alloc, tag_values)?;
    Ok(given)
}
