//! What the wildcards of a pattern take of a value (`:matches` with variables, RFC 5229, section 3.2). Nothing here takes memory.

ghost use Rattle.std.specs.Prelude.{◌≡◌, ℕ, ◌+◌, ◌<◌, ◌≤◌, false, List, [], ◌∷◌, ◌++◌, length, take, drop, slice_index_or, MatchOption};
ghost use Rattle.sieve_match.specs.Glob.{items, Glob};
ghost use Rattle.sieve_match.specs.Captures.{AreCaptures};
ghost use Rattle.sieve_match.specs.Reading.{IsSegment};
ghost use Rattle.sieve_match.specs.Wildcards.{octets_taken, EndsStar};
ghost use Rattle.sieve_match.specs.declared.pattern.GlobItem.TheVariants.{Star};

use crate::Comparator;
use crate::counting::{Steps, Watched};
use crate::parts::Segment;
use crate::pattern::{GlobItem, read_item};
use std::marker::{Brand, Model};
use std::sync::ledger::{Blank, Ledger};

/// How many wildcards' texts are kept: `${1}` to `${9}`, the least that RFC 5229, section 6, asks for.
pub const MAX_CAPTURES: usize = 9;

/// What is kept of a match: the value, and what the first nine wildcards took, from left to right. Contracts see the list of
/// these texts.
#[derive(Debug, Drop)]
pub struct Captures<'v> {
    value: &'v [u8],
    // The first `count` are those that were taken.
    texts: [&'v [u8]; MAX_CAPTURES],
    count: usize,
}

impl<'v> Model for Captures<'v> {
    ghost use Rattle.std.specs.Prelude.{ℕ, List, ◌∷◌, ◌≤◌, map, take};
    ghost use Rattle.sieve_match.specs.declared.captures.TheConstants.{MAX_CAPTURES};

    ghost Value = { List (List ℕ) };

    ghost view = { λ kept. kept.value.now ∷ map (λ text. text.now) (take kept.count kept.texts) };

    ghost invariant = { λ kept. kept.count ≤ MAX_CAPTURES };
}

impl<'v> Captures<'v> {
    // The value alone.
    fn new(value: &'v [u8]) -> Captures<'v>
        ensures { result ≡ value.now ∷ [] }
    {
        Captures {
            value,
            texts: [value; MAX_CAPTURES],
            count: 0,
        }
    }

    // Keeps one more text, unless nine are kept.
    fn push(&mut self, text: &'v [u8])
        ensures { self.new ≡ take (MAX_CAPTURES + 1) (self.old ++ text.now ∷ []) }
    {
        if self.count < MAX_CAPTURES {
            self.texts[self.count] = text;
            self.count += 1;
        }
    }

    /// What the wildcard of that number took, counted from 1; for 0 the value, and for a number that isn't kept nothing.
    pub fn get(&self, number: usize) -> &'v [u8]
        ensures { result.now ≡ slice_index_or self.now number [] }
    {
        if number == 0 {
            return self.value;
        }
        if number <= self.count {
            return self.texts[number - 1];
        }
        &[]
    }
}

// Keeps the octets that each `?` of a segment takes, which stands at a place of the value.
fn push_octets<'v>(kept: &mut Captures<'v>, segment: &Segment, value: &'v [u8], at: usize)
    requires segment { IsSegment segment.now }
    requires within { at + segment.now.count ≤ length value.now }
    requires few { length kept.old ≤ MAX_CAPTURES + 1 }
    ensures { kept.new ≡ take (MAX_CAPTURES + 1) (kept.old ++ octets_taken (items (drop segment.now.from segment.now.pattern.now)) value.now at) }
{
    let mut place = segment.from;
    for j in 0..segment.count {
        let (item, next) = read_item(segment.pattern, place);
        match item {
            GlobItem::One => kept.push(&value[at + j..at + j + 1]),
            GlobItem::Star => {}
            GlobItem::Exact(_) => {}
        }
        place = next;
    }
}

// Where a star that begins at `from` ends: the segment after it stands at the first place at which it can, or at the value's
// end if no star follows it.
fn star_end<C: Comparator, L: Ledger>(
    segment: &Segment,
    value: &Watched,
    from: usize,
    steps: &mut Steps<L>,
) -> Option<usize>
    requires segment { IsSegment segment.now }
    requires some { segment.now.literal ≡ false → 0 < segment.now.count }
    requires within { from ≤ length value.now }
    ensures { let is = items (drop segment.now.from segment.now.pattern.now) in MatchOption result
        (Glob C.image_of (Star ∷ is) (drop from value.now) → ⊥) (λ place. EndsStar C.image_of is segment.now.count value.now from place) }
{
    if segment.end < segment.pattern.len() {
        return segment.find::<C, L>(value, from, steps);
    }
    let n = value.len();
    if n - from < segment.count {
        return None;
    }
    let last = n - segment.count;
    if !segment.stands_at::<C, L>(value, last, steps) {
        return None;
    }
    Some(last)
}

// The captures, with a ledger that nobody reads.
fn captures_counted<'v, C: Comparator, L: Ledger>(
    pattern: &[u8],
    value: &'v [u8],
    steps: &mut Steps<L>,
) -> Option<Captures<'v>>
    ensures { MatchOption result (Glob C.image_of (items pattern.now) value.now → ⊥) (λ kept. (captured : List (List ℕ))
        × AreCaptures C.image_of (items pattern.now) value.now captured × (kept ≡ take (MAX_CAPTURES + 1) (value.now ∷ captured))) }
{
    let watched = Watched::new(value);
    let head = Segment::read(pattern, 0, steps);
    if !head.stands_at::<C, L>(&watched, 0, steps) {
        return None;
    }
    let mut kept = Captures::new(value);
    push_octets(&mut kept, &head, value, 0);
    let (mut end, mut i) = (head.end, head.count);
    while end < pattern.len() {
        let part = Segment::read(pattern, end + 1, steps);
        let Some(place) = star_end::<C, L>(&part, &watched, i, steps) else {
            return None;
        };
        kept.push(&value[i..place]);
        push_octets(&mut kept, &part, value, place);
        i = place + part.count;
        end = part.end;
    }
    if i != value.len() {
        return None;
    }
    Some(kept)
}

fn captures_uncounted<'v, C: Comparator, L: Ledger>(
    pattern: &[u8],
    value: &'v [u8],
    blank: Blank,
) -> Option<Captures<'v>>
    requires name { blank.name ≡ L.name }
    requires parts { blank.parts ≡ L.parts }
    requires some { 0 < blank.parts }
    ensures { MatchOption result (Glob C.image_of (items pattern.now) value.now → ⊥) (λ kept. (captured : List (List ℕ))
        × AreCaptures C.image_of (items pattern.now) value.now captured × (kept ≡ take (MAX_CAPTURES + 1) (value.now ∷ captured))) }
{
    captures_counted::<C, L>(pattern, value, &mut Steps::new(blank))
}

/// Returns what the wildcards of a pattern take if it matches the whole of `value`, else `None`: each as little as it can, from
/// left to right (RFC 5229, section 3.2). The first nine are kept, and the value.
///
/// Takes no memory, and the time of [`matches`](crate::matches), with one more pass over the pattern.
pub fn captures_of<'v, C: Comparator>(pattern: &[u8], value: &'v [u8]) -> Option<Captures<'v>>
    ensures { MatchOption result (Glob C.image_of (items pattern.now) value.now → ⊥) (λ kept. (captured : List (List ℕ))
        × AreCaptures C.image_of (items pattern.now) value.now captured × (kept ≡ take (MAX_CAPTURES + 1) (value.now ∷ captured))) }
{
    captures_uncounted::<C, Brand>(pattern, value, Blank::new(1))
}
