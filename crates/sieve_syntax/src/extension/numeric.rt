//! `comparator-i;ascii-numeric`: texts as numbers (RFC 4790, 9.1).
ghost use Rattle.std.specs.Prelude.{◌≡◌};
ghost use Rattle.sieve_syntax.specs.Extension.Numeric as spec;

use crate::tree::checks::Collation;

/// Whether this is the comparator that has to be required (RFC 5228, 2.7.3).
///
/// Syntax: COMPARATOR = ":comparator" "i;ascii-numeric"; requires `comparator-i;ascii-numeric` (RFC 5228, 2.7.3; RFC 4790, 9.1).
pub(crate) fn is_numeric(comparator: Collation) -> bool
    ensures { result ≡ spec.is_numeric comparator }
{
    matches!(comparator, Collation::AsciiNumeric)
}
