//! `date`: the tests `date` and `currentdate` (RFC 5260, 4 and 5).
ghost use Rattle.std.specs.Prelude.{◌≡◌, ℕ, ℤ, List, ◌∷◌, IfOk, Some, None};
ghost use Rattle.mail_dates.specs.Parts.{part_named};
ghost use Rattle.mail_dates.specs.Zones.{IsOffset};
ghost use Rattle.sieve_syntax.specs.declared.parser.argument.Argument.{Argument};
ghost use Rattle.sieve_syntax.specs.declared.parser.argument.Argument.TheVariants as A;
ghost use Rattle.sieve_syntax.specs.Capabilities.{granted_by};
ghost use Rattle.sieve_syntax.specs.Extension.Date.{IsCurrentDateTest, IsDateTest, MayAskCurrentDate, MayAskDate, SaysCurrentDate, SaysDate, zone_in};
ghost use Rattle.sieve_syntax.specs.Extension.Date as spec;
ghost use Rattle.sieve_syntax.specs.declared.extension.ExtensionTest.TheVariants as X;
ghost use Rattle.sieve_syntax.specs.Extension.{MayAsk};
ghost use Rattle.sieve_syntax.specs.Parsing.{FindsFit, FindsValue, IfParseFault};
ghost use Rattle.sieve_syntax.specs.Rows.{IsTableRow};

use crate::capability::{Capabilities, Capability};
use crate::error::ParseError;
use crate::extension::ExtensionTest;
use crate::parser::argument::Argument;
use crate::table::comparators::require_match;
use crate::table::positional::{text_and_list, two_texts_and_list};
use crate::table::tag_group::{TagGroup, TagValue, split_tags};
use crate::table::tag_values::{given_comparator, given_matching};
use crate::table::tagged::value_at;
use crate::tree::checks::{Collation, Matching};
use mail_dates::{DatePart, read_zone};
use octets::{Octets, Texts};
use sieve_lex::FaultKind;
use std::alloc::Global;

/// The arguments of `date`: a part of the date in the first field with a name has to match one of the keys.
#[derive(Drop)]
pub struct DateTest {
    /// The zone in which the date is looked at.
    pub zone: DateZone,
    /// How octets are compared.
    pub comparator: Collation,
    /// How the part has to match a key.
    pub matching: Matching,
    /// The name of the field, as it was written.
    pub field: Octets,
    /// The part of the date.
    pub part: DatePart,
    /// The keys.
    pub keys: Texts,
}

/// The arguments of `currentdate`: a part of the moment of delivery has to match one of the keys.
#[derive(Drop)]
pub struct CurrentDate {
    /// The zone in which the moment is looked at, in minutes east of UTC; `None` for the host's.
    pub zone: Option<i16>,
    /// How octets are compared.
    pub comparator: Collation,
    /// How the part has to match a key.
    pub matching: Matching,
    /// The part of the date.
    pub part: DatePart,
    /// The keys.
    pub keys: Texts,
}

/// The zone in which a date is looked at (RFC 5260, 4.1).
#[derive(Clone, Copy, Debug, PartialEq, Eq)]
pub enum DateZone {
    /// The host's.
    Host,
    /// `:zone`: this one, in minutes east of UTC.
    Given(i16),
    /// `:originalzone`: the one in which the date was written.
    Original,
}

/// The test `date`, if it is permitted.
///
/// Syntax: date [<":zone" <time-zone: string>> / ":originalzone"] [COMPARATOR] [MATCH-TYPE] <header-name: string>
/// <date-part: string> <key-list: string-list>; requires `date` (RFC 5260, 4).
pub(crate) fn date_test(
    alloc: Global,
    args: &[Argument<'_>],
    granted: &Capabilities,
) -> Result<ExtensionTest, ParseError>
    ensures { FindsFit (IsTableRow IsDateTest X.Date args.now) (MayAsk (granted_by granted.now)) result }
{
    let date = permitted_date(alloc, args, granted)?;
    Ok(ExtensionTest::Date(date))
}

/// The arguments of `date`, if it is permitted.
fn permitted_date(
    alloc: Global,
    args: &[Argument<'_>],
    granted: &Capabilities,
) -> Result<DateTest, ParseError>
    ensures { FindsFit (IsDateTest args.now) (MayAskDate (granted_by granted.now)) result }
{
    granted.require(Capability::Date)?;
    let date = read_date_test(alloc, args)?;
    require_match(granted, date.comparator, date.matching)?;
    Ok(date)
}

/// The test `currentdate`, if it is permitted.
///
/// Syntax: currentdate [":zone" <time-zone: string>] [COMPARATOR] [MATCH-TYPE] <date-part: string> <key-list: string-list>;
/// requires `date` (RFC 5260, 5).
pub(crate) fn current_date_test(
    alloc: Global,
    args: &[Argument<'_>],
    granted: &Capabilities,
) -> Result<ExtensionTest, ParseError>
    ensures { FindsFit (IsTableRow IsCurrentDateTest X.CurrentDate args.now) (MayAsk (granted_by granted.now)) result }
{
    let current = permitted_current(alloc, args, granted)?;
    Ok(ExtensionTest::CurrentDate(current))
}

/// The arguments of `currentdate`, if it is permitted.
fn permitted_current(
    alloc: Global,
    args: &[Argument<'_>],
    granted: &Capabilities,
) -> Result<CurrentDate, ParseError>
    ensures { FindsFit (IsCurrentDateTest args.now) (MayAskCurrentDate (granted_by granted.now)) result }
{
    granted.require(Capability::Date)?;
    let current = read_current_date(alloc, args)?;
    require_match(granted, current.comparator, current.matching)?;
    Ok(current)
}

/// Reads the arguments of `date`.
fn read_date_test(alloc: Global, args: &[Argument<'_>]) -> Result<DateTest, ParseError>
    ensures { FindsValue (IsDateTest args.now) result }
{
    let allowed = &[TagGroup::Zone, TagGroup::Comparator, TagGroup::Matching];
    let (tag_values, positional) = split_tags(alloc, args, allowed)?;
    date_from(alloc, tag_values.as_slice(), positional)
}

fn date_from(
    alloc: Global,
    tag_values: &[TagValue],
    positional: &[Argument<'_>],
) -> Result<DateTest, ParseError>
    ensures { FindsValue (SaysDate tag_values.now positional.now) result }
{
    let (field, name, keys) = two_texts_and_list(alloc, positional)?;
    let part = date_part(name.as_slice())?;
    Ok(DateTest {
        zone: given_zone(tag_values),
        comparator: given_comparator(tag_values),
        matching: given_matching(tag_values),
        field,
        part,
        keys,
    })
}

/// Reads the arguments of `currentdate`.
fn read_current_date(alloc: Global, args: &[Argument<'_>]) -> Result<CurrentDate, ParseError>
    ensures { FindsValue (IsCurrentDateTest args.now) result }
{
    let allowed = &[TagGroup::Zone, TagGroup::Comparator, TagGroup::Matching];
    let (tag_values, positional) = split_tags(alloc, args, allowed)?;
    current_date_from(alloc, tag_values.as_slice(), positional)
}

fn current_date_from(
    alloc: Global,
    tag_values: &[TagValue],
    positional: &[Argument<'_>],
) -> Result<CurrentDate, ParseError>
    ensures { FindsValue (SaysCurrentDate tag_values.now positional.now) result }
{
    let zone = zone_without_original(given_zone(tag_values))?;
    let (name, keys) = text_and_list(alloc, positional)?;
    let part = date_part(name.as_slice())?;
    Ok(CurrentDate {
        zone,
        comparator: given_comparator(tag_values),
        matching: given_matching(tag_values),
        part,
        keys,
    })
}

/// The zone of `currentdate`, which has no `:originalzone`.
fn zone_without_original(zone: DateZone) -> Result<Option<i16>, ParseError>
    ensures found { IfOk result (λ given. spec.without_original zone ≡ Some given) }
    ensures fault { IfParseFault result (spec.without_original zone ≡ None) }
{
    match zone {
        DateZone::Host => Ok(None),
        DateZone::Given(minutes) => Ok(Some(minutes)),
        DateZone::Original => Err(ParseError::Fault(FaultKind::UnknownTag)),
    }
}

/// The part of a date with this name (RFC 5260, 4.2).
fn date_part(name: &[u8]) -> Result<DatePart, ParseError>
    ensures found { IfOk result (λ part. part_named name.now ≡ Some part) }
    ensures fault { IfParseFault result (part_named name.now ≡ None) }
{
    match DatePart::named(name) {
        Some(part) => Ok(part),
        None => Err(ParseError::Fault(FaultKind::WrongArgument)),
    }
}

/// The zone in which a date is looked at, or the default.
fn given_zone(tag_values: &[TagValue]) -> DateZone
    ensures { result ≡ zone_in tag_values.now }
{
    for tag_value in tag_values {
        if let TagValue::Zone(zone) = tag_value {
            return DateZone::Given(*zone);
        }
        if let TagValue::OriginalZone = tag_value {
            return DateZone::Original;
        }
    }
    DateZone::Host
}

/// A zone (RFC 5260, 4.1), in minutes east of UTC.
pub(crate) fn zone_at<'a, 't>(
    args: &'a [Argument<'t>],
) -> Result<(i16, &'a [Argument<'t>]), ParseError>
    ensures found { IfOk result (λ r. (s : List ℕ) × ((args.now ≡ A.Text s ∷ r.1.now) × IsOffset s r.0)) }
    ensures fault { IfParseFault result ((s : List ℕ) (zone : ℤ) (to : List Argument) → args.now ≡ A.Text s ∷ to → IsOffset s zone → ⊥) }
{
    let (value, rest) = value_at(args)?;
    match value {
        Argument::Text(text) => Ok((offset_in(text.as_slice())?, rest)),
        _ => Err(ParseError::Fault(FaultKind::WrongArgument)),
    }
}

fn offset_in(text: &[u8]) -> Result<i16, ParseError>
    ensures found { IfOk result (λ zone. IsOffset text.now zone) }
    ensures fault { IfParseFault result ((zone : ℤ) → IsOffset text.now zone → ⊥) }
{
    match read_zone(text) {
        Some(zone) => Ok(zone),
        None => Err(ParseError::Fault(FaultKind::WrongArgument)),
    }
}
