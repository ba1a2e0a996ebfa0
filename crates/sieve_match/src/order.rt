//! The order of texts by a comparator (RFC 4790, sections 9.2 and 9.3).
ghost use Rattle.std.specs.Prelude.{◌≢◌, ◌<◌, ◌≤◌, length, slice_index};
ghost use Rattle.std.specs.Ordering.{MatchOrdering};
ghost use Rattle.sieve_match.specs.Comparators.{EqualBy, SameFrom};
ghost use Rattle.sieve_match.specs.Sorting.{ComesBefore};

use crate::Comparator;
use std::cmp::Ordering;

/// Compares two texts in the order of a comparator: their images octet by octet, and then the shorter one is first. One pass.
pub fn compare<C: Comparator>(one: &[u8], other: &[u8]) -> Ordering
    ensures { MatchOrdering result (ComesBefore C.image_of one.now other.now) (EqualBy C.image_of one.now other.now)
        (ComesBefore C.image_of other.now one.now) }
{
    let shorter = one.len().min(other.len());
    let place = same_to::<C>(one, other, shorter);
    if place == shorter {
        return one.len().cmp(&other.len());
    }
    let left = C::image(one[place]);
    let right = C::image(other[place]);
    left.cmp(&right)
}

// The first place at which two images differ, or the end.
fn same_to<C: Comparator>(one: &[u8], other: &[u8], end: usize) -> usize
    requires one { end ≤ length one.now }
    requires other { end ≤ length other.now }
    ensures within { result ≤ end }
    ensures same { SameFrom C.image_of one.now other.now 0 result }
    ensures differs { result < end → C.image_of (slice_index one.now result) ≢ C.image_of (slice_index other.now result) }
{
    let mut place = 0;
    while place < end && C::image(one[place]) == C::image(other[place]) {
        place += 1;
    }
    place
}
