//! `comparator-i;ascii-numeric`: values that are compared by the numbers that they begin with (RFC 4790, 9.1).
ghost use Rattle.std.specs.Prelude.{◌≡◌};
ghost use Rattle.sieve_exec.specs.Extension.Numeric.{matches_by_number};

use crate::extension::relational::relates;
use sieve_match::{are_equal_numbers, compare_numbers};
use sieve_syntax::Matching;

/// Whether a value matches a key by number. A number has no parts, and no valid script looks for one.
pub(crate) fn matches_by_number(matching: Matching, key: &[u8], value: &[u8]) -> bool
    ensures { result ≡ matches_by_number matching key.now value.now }
{
    match matching {
        Matching::Is => are_equal_numbers(key, value),
        Matching::Contains => false,
        Matching::Matches => false,
        Matching::Value(relation) => relates(relation, compare_numbers(value, key)),
        Matching::Count(relation) => relates(relation, compare_numbers(value, key)),
    }
}
