//! Tagged arguments, in any order (RFC 5228, 2.6.2).
ghost use Rattle.std.specs.Prelude.{map, IsTrue, ◌↔◌, ◌≡◌, ◌<◌, ◌≤◌, List, ◌∷◌, length, drop, MatchOption, IfOk, IfSome};
ghost use Rattle.std.specs.List.{Contains};
ghost use Rattle.sieve_syntax.specs.declared.parser.argument.Argument.TheVariants as A;
ghost use Rattle.sieve_syntax.specs.Parsing.{IfParseFault};
ghost use Rattle.sieve_syntax.specs.Tags.{IsTagValue, group_of, IsAllowed, BeginsUntagged, IsSplit, IsSplitAlone, HasNoTag};

use crate::error::ParseError;
use crate::extension::date::zone_at;
use crate::extension::relational::relation_at;
use crate::parser::argument::Argument;
use crate::table::comparators::collation_at;
use crate::table::tag::Tag;
use crate::table::tagged::{number_at, text_at, texts_at};
use crate::tree::checks::{AddressPart, Bound, Collation, Matching};
use octets::{Octets, Texts};
use sieve_lex::FaultKind;
use std::alloc::Global;

/// What a tag with its value says.
#[derive(Drop)]
pub enum TagValue {
    /// `:over`, `:under`.
    Bound(Bound),
    /// `:comparator`.
    Comparator(Collation),
    /// `:is`, `:contains`, `:matches`, `:value`, `:count`.
    Matching(Matching),
    /// `:all`, `:localpart`, `:domain`, `:user`, `:detail`.
    Part(AddressPart),
    /// `:days`.
    Days(u64),
    /// `:seconds`.
    Seconds(u64),
    /// `:subject`.
    Subject(Octets),
    /// `:from`.
    From(Octets),
    /// `:addresses`.
    Addresses(Texts),
    /// `:mime`.
    Mime,
    /// `:handle`.
    Handle(Octets),
    /// `:copy`.
    Copy,
    /// `:create`.
    Create,
    /// `:zone`, in minutes east of UTC.
    Zone(i16),
    /// `:originalzone`.
    OriginalZone,
    /// `:flags`.
    Flags(Texts),
}

/// What a tag settles. Tags that exclude each other settle one thing.
#[derive(Clone, Copy, PartialEq, Eq)]
pub enum TagGroup {
    Bound,
    Comparator,
    Matching,
    Part,
    Period,
    Subject,
    From,
    Addresses,
    Mime,
    Handle,
    Copy,
    Create,
    Zone,
    Flags,
}

impl TagValue {
    fn group(&self) -> TagGroup
        ensures { result ≡ group_of self.now }
    {
        match self {
            TagValue::Bound(_) => TagGroup::Bound,
            TagValue::Comparator(_) => TagGroup::Comparator,
            TagValue::Matching(_) => TagGroup::Matching,
            TagValue::Part(_) => TagGroup::Part,
            TagValue::Days(_) => TagGroup::Period,
            TagValue::Seconds(_) => TagGroup::Period,
            TagValue::Subject(_) => TagGroup::Subject,
            TagValue::From(_) => TagGroup::From,
            TagValue::Addresses(_) => TagGroup::Addresses,
            TagValue::Mime => TagGroup::Mime,
            TagValue::Handle(_) => TagGroup::Handle,
            TagValue::Copy => TagGroup::Copy,
            TagValue::Create => TagGroup::Create,
            TagValue::Zone(_) => TagGroup::Zone,
            TagValue::OriginalZone => TagGroup::Zone,
            TagValue::Flags(_) => TagGroup::Flags,
        }
    }
}

/// Splits arguments into the tags at the beginning, each of an allowed group and no group twice, and the positional arguments after them.
pub(crate) fn split_tags<'a, 't>(
    alloc: Global,
    args: &'a [Argument<'t>],
    allowed: &[TagGroup],
) -> Result<(Vec<TagValue>, &'a [Argument<'t>]), ParseError>
    ensures found { IfOk result (λ r. IsSplit allowed.now args.now r.0.items r.1.now) }
    ensures only { IfOk result (λ r. IsSplitAlone allowed.now args.now r.0.items r.1.now) }
    ensures fault { IfParseFault result ((tag_values : List TagValue) (positional : List Argument) → IsSplit allowed.now args.now tag_values positional → ⊥) }
{
    let mut tag_values = Vec::new(alloc);
    let mut at = 0;
    'tag_values: while let Some((tag_value, width)) = next_tag(
        alloc,
        args.split_at(at).1,
        allowed,
        tag_values.as_slice(),
    )? {
        tag_values.push(tag_value)?;
        at += width;
    }
    Ok((tag_values, args.split_at(at).1))
}

/// The first tag, and how many arguments it and its value are, or `None` if no tag is first.
fn next_tag(
    alloc: Global,
    args: &[Argument<'_>],
    allowed: &[TagGroup],
    taken: &[TagValue],
) -> Result<Option<(TagValue, usize)>, ParseError>
    ensures found { IfOk result (λ o. MatchOption o (BeginsUntagged args.now) (λ r. IsAllowed allowed.now r.0 args.now (drop r.1 args.now))) }
    ensures width { IfOk result (λ o. IfSome o (λ r. (0 < r.1) × (r.1 ≤ length args.now))) }
    ensures free { IfOk result (λ o. MatchOption o (Unit {0}) (λ r. Contains (map group_of taken.now) (group_of r.0) → ⊥)) }
    ensures begun { IfParseFault result (BeginsUntagged args.now → ⊥) }
    ensures fault { IfParseFault result (HasNoTag allowed.now (map group_of taken.now) args.now) }
{
    let Some((first, rest)) = args.split_first() else {
        return Ok(None);
    };
    let Argument::Tag(tag) = first else {
        return Ok(None);
    };
    let (tag_value, after) = tag_value_at(alloc, *tag, rest)?;
    if !allowed.contains(&tag_value.group()) {
        return Err(ParseError::Fault(FaultKind::UnknownTag));
    }
    if is_settled(taken, tag_value.group()) {
        return Err(ParseError::Fault(FaultKind::DoubleTag));
    }
    Ok(Some((tag_value, args.len() - after.len())))
}

/// Whether one of the tags is of this group.
fn is_settled(tag_values: &[TagValue], group: TagGroup) -> bool
    ensures { IsTrue result ↔ Contains (map group_of tag_values.now) group }
{
    for tag_value in tag_values {
        if tag_value.group() == group {
            return true;
        }
    }
    false
}

/// What this tag, with the value in the arguments after it, says, and what follows it.
fn tag_value_at<'a, 't>(
    alloc: Global,
    tag: Tag,
    args: &'a [Argument<'t>],
) -> Result<(TagValue, &'a [Argument<'t>]), ParseError>
    ensures found { IfOk result (λ r. IsTagValue r.0 (A.Tag tag ∷ args.now) r.1.now) }
    ensures fault { IfParseFault result ((s : TagValue) (to : List Argument) → IsTagValue s (A.Tag tag ∷ args.now) to → ⊥) }
{
    match tag {
        Tag::Over => Ok((TagValue::Bound(Bound::Over), args)),
        Tag::Under => Ok((TagValue::Bound(Bound::Under), args)),
        Tag::Is => Ok((TagValue::Matching(Matching::Is), args)),
        Tag::Contains => Ok((TagValue::Matching(Matching::Contains), args)),
        Tag::Matches => Ok((TagValue::Matching(Matching::Matches), args)),
        Tag::All => Ok((TagValue::Part(AddressPart::All), args)),
        Tag::LocalPart => Ok((TagValue::Part(AddressPart::LocalPart), args)),
        Tag::Domain => Ok((TagValue::Part(AddressPart::Domain), args)),
        Tag::User => Ok((TagValue::Part(AddressPart::User), args)),
        Tag::Detail => Ok((TagValue::Part(AddressPart::Detail), args)),
        Tag::Mime => Ok((TagValue::Mime, args)),
        Tag::Copy => Ok((TagValue::Copy, args)),
        Tag::Create => Ok((TagValue::Create, args)),
        Tag::OriginalZone => Ok((TagValue::OriginalZone, args)),
        Tag::Zone => {
            let (zone, rest) = zone_at(args)?;
            Ok((TagValue::Zone(zone), rest))
        }
        Tag::Value => {
            let (relation, rest) = relation_at(args)?;
            Ok((TagValue::Matching(Matching::Value(relation)), rest))
        }
        Tag::Count => {
            let (relation, rest) = relation_at(args)?;
            Ok((TagValue::Matching(Matching::Count(relation)), rest))
        }
        Tag::Comparator => {
            let (collation, rest) = collation_at(args)?;
            Ok((TagValue::Comparator(collation), rest))
        }
        Tag::Days => {
            let (days, rest) = number_at(args)?;
            Ok((TagValue::Days(days), rest))
        }
        Tag::Seconds => {
            let (seconds, rest) = number_at(args)?;
            Ok((TagValue::Seconds(seconds), rest))
        }
        Tag::Subject => {
            let (subject, rest) = text_at(alloc, args)?;
            Ok((TagValue::Subject(subject), rest))
        }
        Tag::From => {
            let (text, rest) = text_at(alloc, args)?;
            Ok((TagValue::From(text), rest))
        }
        Tag::Handle => {
            let (handle, rest) = text_at(alloc, args)?;
            Ok((TagValue::Handle(handle), rest))
        }
        Tag::Addresses => {
            let (texts, rest) = texts_at(alloc, args)?;
            Ok((TagValue::Addresses(texts), rest))
        }
        Tag::Flags => {
            let (texts, rest) = texts_at(alloc, args)?;
            Ok((TagValue::Flags(texts), rest))
        }
        Tag::Other => Err(ParseError::Fault(FaultKind::UnknownTag)),
    }
}
