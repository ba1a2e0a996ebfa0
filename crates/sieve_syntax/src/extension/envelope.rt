//! `envelope` (RFC 5228, 5.4).
ghost use Rattle.std.specs.Prelude.{◌≡◌};
ghost use Rattle.std.specs.List.{list_all, list_any};
ghost use Rattle.sieve_syntax.specs.Capabilities.{granted_by};
ghost use Rattle.sieve_syntax.specs.Extension.Envelope.{IsEnvelopeTest, MayAskEnvelope, NamesParts, SaysEnvelope};
ghost use Rattle.sieve_syntax.specs.Extension.Envelope as spec;
ghost use Rattle.sieve_syntax.specs.Lexemes.{same_name};
ghost use Rattle.sieve_syntax.specs.declared.extension.ExtensionTest.TheVariants as X;
ghost use Rattle.sieve_syntax.specs.Extension.{MayAsk};
ghost use Rattle.sieve_syntax.specs.Parsing.{FindsFit, FindsValue};
ghost use Rattle.sieve_syntax.specs.Rows.{IsTableRow};

use crate::capability::{Capabilities, Capability};
use crate::error::ParseError;
use crate::extension::ExtensionTest;
use crate::extension::subaddress::require_part;
use crate::parser::argument::Argument;
use crate::table::comparators::require_match;
use crate::table::keyword::is_name;
use crate::table::positional::lists;
use crate::table::tag_group::{TagGroup, TagValue, split_tags};
use crate::table::tag_values::{given_comparator, given_matching, given_part};
use crate::tree::checks::{AddressPart, Collation, Matching};
use octets::{Octets, Texts};
use sieve_lex::FaultKind;
use std::alloc::Global;

/// The arguments of `envelope`: a part of one of the envelope's addresses has to match one of the keys.
#[derive(Drop)]
pub struct EnvelopeTest {
    /// How octets are compared.
    pub comparator: Collation,
    /// The part of the address.
    pub part: AddressPart,
    /// How the part has to match a key.
    pub matching: Matching,
    /// The addresses that are looked at.
    pub parts: EnvelopeParts,
    /// The keys.
    pub keys: Texts,
}

/// Which addresses of the envelope a test names.
#[derive(Clone, Copy, Debug, PartialEq, Eq)]
pub struct EnvelopeParts {
    /// The sender.
    pub from: bool,
    /// The recipient.
    pub to: bool,
}

/// The test `envelope`, if it is permitted.
///
/// Syntax: envelope [COMPARATOR] [ADDRESS-PART] [MATCH-TYPE] <envelope-part: string-list> <key-list: string-list>;
/// requires `envelope`, and `:user` and `:detail` require `subaddress` (RFC 5228, 5.4; RFC 5233).
pub(crate) fn envelope_test(
    alloc: Global,
    args: &[Argument<'_>],
    granted: &Capabilities,
) -> Result<ExtensionTest, ParseError>
    ensures { FindsFit (IsTableRow IsEnvelopeTest X.Envelope args.now) (MayAsk (granted_by granted.now)) result }
{
    let envelope = permitted_envelope(alloc, args, granted)?;
    Ok(ExtensionTest::Envelope(envelope))
}

/// The arguments of `envelope`, if it is permitted.
fn permitted_envelope(
    alloc: Global,
    args: &[Argument<'_>],
    granted: &Capabilities,
) -> Result<EnvelopeTest, ParseError>
    ensures { FindsFit (IsEnvelopeTest args.now) (MayAskEnvelope (granted_by granted.now)) result }
{
    granted.require(Capability::Envelope)?;
    let envelope = read_envelope(alloc, args)?;
    require_part(granted, envelope.part)?;
    require_match(granted, envelope.comparator, envelope.matching)?;
    Ok(envelope)
}

/// Reads the arguments of `envelope`.
fn read_envelope(alloc: Global, args: &[Argument<'_>]) -> Result<EnvelopeTest, ParseError>
    ensures { FindsValue (IsEnvelopeTest args.now) result }
{
    let allowed = &[TagGroup::Comparator, TagGroup::Part, TagGroup::Matching];
    let (tag_values, positional) = split_tags(alloc, args, allowed)?;
    envelope_from(alloc, tag_values.as_slice(), positional)
}

fn envelope_from(
    alloc: Global,
    tag_values: &[TagValue],
    positional: &[Argument<'_>],
) -> Result<EnvelopeTest, ParseError>
    ensures { FindsValue (SaysEnvelope tag_values.now positional.now) result }
{
    let (names, keys) = lists(alloc, positional)?;
    let parts = envelope_parts(names.as_slice())?;
    Ok(EnvelopeTest {
        comparator: given_comparator(tag_values),
        part: given_part(tag_values),
        matching: given_matching(tag_values),
        parts,
        keys,
    })
}

/// The parts of the envelope that these names name.
fn envelope_parts(names: &[Octets]) -> Result<EnvelopeParts, ParseError>
    ensures { FindsValue (NamesParts names.now) result }
{
    if !all_parts(names) {
        return Err(ParseError::Fault(FaultKind::WrongArgument));
    }
    Ok(EnvelopeParts {
        from: has_part(names, b"from"),
        to: has_part(names, b"to"),
    })
}

fn all_parts(names: &[Octets]) -> bool
    ensures { result ≡ list_all spec.is_part names.now }
{
    names.iter().all(|name| is_part(name.as_slice()))
}

fn is_part(name: &[u8]) -> bool
    ensures { result ≡ spec.is_part name.now }
{
    is_name(name, b"from") || is_name(name, b"to")
}

fn has_part(names: &[Octets], part: &[u8]) -> bool
    ensures { result ≡ list_any (λ name. same_name name part.now) names.now }
{
    names.iter().any(|name| is_name(name.as_slice(), part))
}
