//! Patterns with `*` and `?` (`:matches`, RFC 5228, section 2.7.1), by any comparator. Nothing here takes memory.

ghost use Rattle.std.specs.Prelude.{◌≡◌, ◌↔◌, ◌+◌, ◌<◌, ◌≤◌, length, IsTrue};
ghost use Rattle.sieve_match.specs.Costs.{pattern_steps};
ghost use Rattle.sieve_match.specs.Glob.{items, Glob};

use crate::Comparator;
use crate::counting::{Steps, Watched};
use crate::parts::Segment;
use std::marker::Brand;
use std::sync::ledger::{Blank, Ledger};

/// Whether a pattern matches the whole of `value`: `*` stands for any number of octets, `?` for one octet, a backslash
/// makes the next octet stand for itself, and a lone backslash at the end stands for itself.
///
/// The items between two stars are matched at the first place at which they fit; the items after the last star are
/// compared once, at the end of the value. So time is linear in the lengths of pattern and value, except for the
/// segments between two stars that contain a `?` and have more than 63 items: each of these takes at most as many comparisons
/// as it has items for each octet that it moves over.
pub fn matches<C: Comparator>(pattern: &[u8], value: &[u8]) -> bool
    ensures { IsTrue result ↔ Glob C.image_of (items pattern.now) value.now }
{
    matches_uncounted::<C, Brand>(pattern, value, Blank::new(1))
}

// The same, with a ledger that nobody reads.
fn matches_uncounted<C: Comparator, L: Ledger>(pattern: &[u8], value: &[u8], blank: Blank) -> bool
    requires name { blank.name ≡ L.name }
    requires parts { blank.parts ≡ L.parts }
    requires some { 0 < blank.parts }
    ensures { IsTrue result ↔ Glob C.image_of (items pattern.now) value.now }
{
    matches_counted::<C, L>(pattern, value, &mut Steps::new(blank))
}

/// The same, with the steps that it takes added to `steps`: linear in pattern and value, but for a pattern of more than 63 octets
/// with a `?`, which may take as many as its length for each octet of the value.
pub fn matches_counted<C: Comparator, L: Ledger>(
    pattern: &[u8],
    value: &[u8],
    steps: &mut Steps<L>,
) -> bool
    ensures matches { IsTrue result ↔ Glob C.image_of (items pattern.now) value.now }
    ensures cost { steps.new ≤ steps.old + pattern_steps pattern.now (length value.now) }
{
    matches_watched::<C, L>(pattern, &Watched::new(value), steps)
}

// The same of a value whose octets are looked at by steps.
fn matches_watched<C: Comparator, L: Ledger>(
    pattern: &[u8],
    value: &Watched,
    steps: &mut Steps<L>,
) -> bool
    ensures matches { IsTrue result ↔ Glob C.image_of (items pattern.now) value.now }
    ensures cost { steps.new ≤ steps.old + pattern_steps pattern.now (length value.now) }
{
    let n = value.len();
    let head = Segment::read(pattern, 0, steps);
    if !head.stands_at::<C, L>(value, 0, steps) {
        return false;
    }
    let (mut end, mut i) = (head.end, head.count);
    while end < pattern.len() {
        let part = Segment::read(pattern, end + 1, steps);
        if part.end == pattern.len() {
            return part.count <= n - i && part.stands_at::<C, L>(value, n - part.count, steps);
        }
        match part.find::<C, L>(value, i, steps) {
            None => return false,
            Some(k) => i = k + part.count,
        }
        end = part.end;
    }
    i == n
}
