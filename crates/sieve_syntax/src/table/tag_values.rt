//! What the tags of the base language say: the value that is given, or its default.
ghost use Rattle.std.specs.Prelude.{◌≡◌};
ghost use Rattle.sieve_syntax.specs.TagValues.{bound_in, comparator_in, matching_in, part_in};

use crate::table::tag_group::TagValue;
use crate::tree::checks::{AddressPart, Bound, Collation, Matching};

/// The side of a limit, if one is given.
pub(crate) fn given_bound(tag_values: &[TagValue]) -> Option<Bound>
    ensures { result ≡ bound_in tag_values.now }
{
    for tag_value in tag_values {
        if let TagValue::Bound(bound) = tag_value {
            return Some(*bound);
        }
    }
    None
}

/// The comparator, or the default.
pub(crate) fn given_comparator(tag_values: &[TagValue]) -> Collation
    ensures { result ≡ comparator_in tag_values.now }
{
    for tag_value in tag_values {
        if let TagValue::Comparator(collation) = tag_value {
            return *collation;
        }
    }
    Collation::AsciiCasemap
}

/// The way to match, or the default.
pub(crate) fn given_matching(tag_values: &[TagValue]) -> Matching
    ensures { result ≡ matching_in tag_values.now }
{
    for tag_value in tag_values {
        if let TagValue::Matching(matching) = tag_value {
            return *matching;
        }
    }
    Matching::Is
}

/// The part of an address, or the default.
pub(crate) fn given_part(tag_values: &[TagValue]) -> AddressPart
    ensures { result ≡ part_in tag_values.now }
{
    for tag_value in tag_values {
        if let TagValue::Part(part) = tag_value {
            return *part;
        }
    }
    AddressPart::All
}
