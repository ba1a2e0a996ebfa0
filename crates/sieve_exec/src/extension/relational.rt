//! `relational`: values in a relation to a key, `:value`, and their number, `:count` (RFC 5231, 4).
ghost use Rattle.std.specs.Prelude.{◌≡◌};
ghost use Rattle.sieve_exec.specs.Extension.Relational.{is_count, relates};

use sieve_syntax::{Matching, Relation};
use std::cmp::Ordering;

/// Whether values are counted.
pub(crate) fn is_count(matching: Matching) -> bool
    ensures { result ≡ is_count matching }
{
    matches!(matching, Matching::Count(_))
}

/// Whether two values that are ordered like this are in a relation (RFC 5231, 4).
pub(crate) fn relates(relation: Relation, ordering: Ordering) -> bool
    ensures { result ≡ relates relation ordering }
{
    match relation {
        Relation::Greater => ordering.is_gt(),
        Relation::GreaterOrEqual => ordering.is_ge(),
        Relation::Less => ordering.is_lt(),
        Relation::LessOrEqual => ordering.is_le(),
        Relation::Equal => ordering.is_eq(),
        Relation::NotEqual => ordering.is_ne(),
    }
}
