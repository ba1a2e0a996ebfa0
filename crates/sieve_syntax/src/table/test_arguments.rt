//! The arguments of the base language's tests that look at a message.
ghost use Rattle.sieve_syntax.specs.Parsing.{FindsValue};
ghost use Rattle.sieve_syntax.specs.Table.{SaysSize, SaysHeader, SaysAddress, IsSizeTest, IsHeaderTest, IsAddressTest};

use crate::error::ParseError;
use crate::parser::argument::Argument;
use crate::table::positional::{lists, number};
use crate::table::tag_group::{TagGroup, TagValue, split_tags};
use crate::table::tag_values::{given_bound, given_comparator, given_matching, given_part};
use crate::tree::checks::{Address, Header, Size};
use sieve_lex::FaultKind;
use std::alloc::Global;

/// Reads the arguments of `size`.
pub(crate) fn read_size(alloc: Global, args: &[Argument<'_>]) -> Result<Size, ParseError>
    ensures { FindsValue (IsSizeTest args.now) result }
{
    let (tag_values, positional) = split_tags(alloc, args, &[TagGroup::Bound])?;
    size_from(tag_values.as_slice(), positional)
}

fn size_from(tag_values: &[TagValue], positional: &[Argument<'_>]) -> Result<Size, ParseError>
    ensures { FindsValue (SaysSize tag_values.now positional.now) result }
{
    let Some(bound) = given_bound(tag_values) else {
        return Err(ParseError::Fault(FaultKind::MissingArgument));
    };
    let limit = number(positional)?;
    Ok(Size { bound, limit })
}

/// Reads the arguments of `header`.
pub(crate) fn read_header(alloc: Global, args: &[Argument<'_>]) -> Result<Header, ParseError>
    ensures { FindsValue (IsHeaderTest args.now) result }
{
    let (tag_values, positional) = split_tags(
        alloc,
        args,
        &[TagGroup::Comparator, TagGroup::Matching],
    )?;
    header_from(alloc, tag_values.as_slice(), positional)
}

fn header_from(
    alloc: Global,
    tag_values: &[TagValue],
    positional: &[Argument<'_>],
) -> Result<Header, ParseError>
    ensures { FindsValue (SaysHeader tag_values.now positional.now) result }
{
    let (fields, keys) = lists(alloc, positional)?;
    Ok(Header {
        comparator: given_comparator(tag_values),
        matching: given_matching(tag_values),
        fields,
        keys,
    })
}

/// Reads the arguments of `address`.
pub(crate) fn read_address(alloc: Global, args: &[Argument<'_>]) -> Result<Address, ParseError>
    ensures { FindsValue (IsAddressTest args.now) result }
{
    let allowed = &[TagGroup::Comparator, TagGroup::Part, TagGroup::Matching];
    let (tag_values, positional) = split_tags(alloc, args, allowed)?;
    address_from(alloc, tag_values.as_slice(), positional)
}

fn address_from(
    alloc: Global,
    tag_values: &[TagValue],
    positional: &[Argument<'_>],
) -> Result<Address, ParseError>
    ensures { FindsValue (SaysAddress tag_values.now positional.now) result }
{
    let (fields, keys) = lists(alloc, positional)?;
    Ok(Address {
        comparator: given_comparator(tag_values),
        part: given_part(tag_values),
        matching: given_matching(tag_values),
        fields,
        keys,
    })
}
