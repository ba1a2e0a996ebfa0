//! Whether a value matches keys (RFC 5228, 2.7.1; RFC 5231).
ghost use Rattle.std.specs.Prelude.{◌≡◌};
ghost use Rattle.sieve_exec.specs.Matches.{matches_by_image, matches_key, matches_some, count_matches};

use crate::extension::numeric::matches_by_number;
use crate::extension::relational::relates;
use itoa::Buffer;
use octets::Octets;
use sieve_match::{AsciiCasemap, Comparator, Octet, compare, contains, is, matches};
use sieve_syntax::{Collation, Matching};

/// Whether a number, in decimal, matches some key.
pub(crate) fn count_matches(
    collation: Collation,
    matching: Matching,
    keys: &[Octets],
    count: u128,
) -> bool
    ensures { result ≡ count_matches collation matching keys.now count }
{
    let mut buffer = Buffer::new();
    matches_some(collation, matching, keys, buffer.format(count).as_bytes())
}

/// Whether a value matches some key. For each key the time is that of `is`, `contains`, `matches` or of one pass over both; no memory.
pub(crate) fn matches_some(
    collation: Collation,
    matching: Matching,
    keys: &[Octets],
    value: &[u8],
) -> bool
    ensures { result ≡ matches_some collation matching keys.now value.now }
{
    for key in keys {
        if matches_key(collation, matching, key.as_slice(), value) {
            return true;
        }
    }
    false
}

/// Whether a value matches a key.
pub(crate) fn matches_key(
    collation: Collation,
    matching: Matching,
    key: &[u8],
    value: &[u8],
) -> bool
    ensures { result ≡ matches_key collation matching key.now value.now }
{
    match collation {
        Collation::Octet => matches_by_image::<Octet>(matching, key, value),
        Collation::AsciiCasemap => matches_by_image::<AsciiCasemap>(matching, key, value),
        Collation::AsciiNumeric => matches_by_number(matching, key, value),
    }
}

fn matches_by_image<C: Comparator>(matching: Matching, key: &[u8], value: &[u8]) -> bool
    ensures { result ≡ matches_by_image C.image_of matching key.now value.now }
{
    match matching {
        Matching::Is => is::<C>(key, value),
        Matching::Contains => contains::<C>(key, value),
        Matching::Matches => matches::<C>(key, value),
        Matching::Value(relation) => relates(relation, compare::<C>(value, key)),
        Matching::Count(relation) => relates(relation, compare::<C>(value, key)),
    }
}
