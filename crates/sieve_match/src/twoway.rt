//! The search for a key by the Two-Way algorithm of Crochemore and Perrin (1991), over images instead of octets.
//!
//! The key is cut in two at a critical position. At each place of the value the right part is compared first, from the
//! cut on; a mismatch there moves the search past it. Then the left part is compared; a mismatch there moves the
//! search by the key's period, and what is known to match by the period is not compared again. No table is kept.
ghost use Rattle.std.specs.Prelude.{◌≡◌, ◌≢◌, ◌↔◌, ℕ, ◌+◌, ◌-◌, ◌*◌, ◌^◌, ◌<◌, ◌≤◌, length, max, IsTrue};
ghost use Rattle.std.specs.Ordering.{MatchOrdering};
ghost use Rattle.memchr.specs.Critical.{IsSuffixAt, IsCutPlace};
ghost use Rattle.memchr.specs.Find.{Nowhere};
ghost use Rattle.sieve_match.specs.Costs.{search_end, search_steps};
ghost use Rattle.sieve_match.specs.Places.{AreMasks};
ghost use Rattle.sieve_match.specs.Search.{image_at, image_in, fits_key, GoesPast, StandsAt, FindsKey, Precedes, IsKeyCut};

use crate::Comparator;
use crate::counting::{Steps, Watched};
use crate::masks::{MAX_PLACES, Masks, TABLE};
use crate::spelling::{Key, KeyCursor};
use std::cmp::Ordering;
use std::marker::Brand;
use std::sync::ledger::{Blank, Ledger};

/// An order of octets.
#[derive(Clone, Copy)]
enum Order {
    Rising,
    Falling,
}

impl Order {
    // `Less` if `a` comes before `b`.
    #[inline(always)]
    fn compare(self, a: u8, b: u8) -> Ordering
        ensures { MatchOrdering result (Precedes self a b) (a ≡ b) (Precedes self b a) }
    {
        match self {
            Order::Rising => a.cmp(&b),
            Order::Falling => b.cmp(&a),
        }
    }
}

// The greatest suffix of a key by an order of octets, and the least period of that suffix.
#[derive(Clone, Copy)]
struct Suffix {
    start: KeyCursor,
    period: usize,
}

// Where a key is cut, how far a mismatch left of the cut moves the search, and how much of the key is then known to match
// at the new place.
#[derive(Clone, Copy)]
struct Cut {
    critical: KeyCursor,
    shift: usize,
    keep: KeyCursor,
}

// The greatest suffix: each later suffix is a candidate, which is compared with the best so far.
fn greatest_suffix<C: Comparator, K: Key, L: Ledger>(
    key: &K,
    order: Order,
    steps: &mut Steps<L>,
) -> Suffix
    requires { 0 < K.size key.now }
    ensures suffix { IsSuffixAt (Precedes order) (image_at C.image_of (K.octet_at key.now)) (K.size key.now)
        result.start.index result.period }
    ensures spot { K.is_spot key.now result.start }
    ensures cost { steps.new ≤ steps.old + 2 * K.size key.now }
    ensures all { steps.old + K.size key.now ≤ steps.new + 1 }
{
    let m = key.len();
    let mut best = key.first();
    let mut period = 1;
    let mut candidate = key.next(best);
    let (mut current, mut other) = (best, candidate);
    while other.index < m {
        steps.tick();
        let a = C::image(key.octet(current));
        let b = C::image(key.octet(other));
        match order.compare(a, b) {
            Ordering::Less => {
                best = candidate;
                period = 1;
                candidate = key.next(candidate);
                current = best;
                other = candidate;
            }
            Ordering::Greater => {
                candidate = key.next(other);
                period = candidate.index - best.index;
                current = best;
                other = candidate;
            }
            Ordering::Equal => {
                current = key.next(current);
                other = key.next(other);
                if other.index - candidate.index == period {
                    candidate = other;
                    current = best;
                }
            }
        }
    }
    Suffix {
        start: best,
        period,
    }
}

// The spot at an index.
fn spot_of<K: Key, L: Ledger>(key: &K, index: usize, steps: &mut Steps<L>) -> KeyCursor
    requires { index ≤ K.size key.now }
    ensures index { result.index ≡ index }
    ensures spot { K.is_spot key.now result }
    ensures cost { steps.new ≡ steps.old + index }
{
    let mut spot = key.first();
    while spot.index < index {
        steps.tick();
        spot = key.next(spot);
    }
    spot
}

// Whether the octets before the cut repeat those from `back` on.
fn repeats_before<C: Comparator, K: Key, L: Ledger>(
    key: &K,
    critical: usize,
    back: KeyCursor,
    steps: &mut Steps<L>,
) -> bool
    requires fits { critical + back.index ≤ K.size key.now }
    requires spot { K.is_spot key.now back }
    ensures same { IsTrue result ↔ ((k : ℕ) → k < critical → image_at C.image_of (K.octet_at key.now) k
        ≡ image_at C.image_of (K.octet_at key.now) (k + back.index)) }
    ensures cost { steps.new ≤ steps.old + critical }
    ensures all { IsTrue result → steps.new ≡ steps.old + critical }
{
    let mut front = key.first();
    let mut later = back;
    while front.index < critical {
        steps.tick();
        if C::image(key.octet(front)) != C::image(key.octet(later)) {
            return false;
        }
        front = key.next(front);
        later = key.next(later);
    }
    true
}

// Where to cut a key: at the later of its greatest suffixes by the two orders.
fn find_critical_cut<C: Comparator, K: Key, L: Ledger>(key: &K, steps: &mut Steps<L>) -> Cut
    requires { 0 < K.size key.now }
    ensures cut { IsKeyCut (image_at C.image_of (K.octet_at key.now)) (K.size key.now) result }
    ensures critical { K.is_spot key.now result.critical }
    ensures keep { K.is_spot key.now result.keep }
    ensures cost { steps.new ≤ steps.old + 6 * K.size key.now }
{
    let least = greatest_suffix::<C, K, L>(key, Order::Falling, steps);
    let most = greatest_suffix::<C, K, L>(key, Order::Rising, steps);
    if least.start.index > most.start.index {
        cut_at::<C, K, L>(key, least, steps)
    } else {
        cut_at::<C, K, L>(key, most, steps)
    }
}

// How far a mismatch left of the cut moves the search.
fn cut_at<C: Comparator, K: Key, L: Ledger>(key: &K, suffix: Suffix, steps: &mut Steps<L>) -> Cut
    requires place { IsCutPlace (image_at C.image_of (K.octet_at key.now)) (K.size key.now)
        suffix.start.index suffix.period }
    requires spot { K.is_spot key.now suffix.start }
    ensures cut { IsKeyCut (image_at C.image_of (K.octet_at key.now)) (K.size key.now) result }
    ensures critical { K.is_spot key.now result.critical }
    ensures keep { K.is_spot key.now result.keep }
    ensures cost { steps.new ≤ steps.old + 2 * K.size key.now }
{
    let critical = suffix.start;
    let rest = key.len() - critical.index;
    let long = Cut {
        critical,
        shift: critical.index.max(rest),
        keep: key.first(),
    };
    if critical.index >= rest {
        return long;
    }
    let back = spot_of(key, suffix.period, steps);
    if !repeats_before::<C, K, L>(key, critical.index, back, steps) {
        return long;
    }
    Cut {
        critical,
        shift: suffix.period,
        keep: spot_of(key, key.len() - suffix.period, steps),
    }
}

// How far, from `from` and up to `end`, the key matches at place `pos` of the value.
#[inline(always)]
fn matched_to<C: Comparator, K: Key, L: Ledger>(
    key: &K,
    value: &Watched,
    pos: usize,
    from: KeyCursor,
    end: usize,
    steps: &mut Steps<L>,
) -> KeyCursor
    requires within { end ≤ K.size key.now }
    requires fits { pos + K.size key.now ≤ length value.now }
    requires bound { length value.now < 2 ^ 63 }
    requires spot { K.is_spot key.now from }
    ensures low { from.index ≤ result.index }
    ensures same { (k : ℕ) → from.index ≤ k → k < result.index
        → image_at C.image_of (K.octet_at key.now) k ≡ image_in C.image_of value.now (pos + k) }
    ensures differs { result.index < end
        → image_at C.image_of (K.octet_at key.now) result.index ≢ image_in C.image_of value.now (pos + result.index) }
    ensures high { result.index ≤ max end from.index }
    ensures cost { result.index < end → steps.new + from.index ≡ steps.old + result.index + 1 }
    ensures all { end ≤ result.index → steps.new + from.index ≡ steps.old + result.index }
{
    let mut spot = from;
    while spot.index < end {
        let octet = value.octet(pos + spot.index, steps);
        if C::image(key.octet(spot)) != C::image(octet) {
            return spot;
        }
        spot = key.next(spot);
    }
    spot
}

// The first place from `from` on, and before `end`, whose octet has the image of `wanted`; if there is none, `end`.
#[inline(always)]
fn next_place<C: Comparator, L: Ledger>(
    value: &Watched,
    from: usize,
    end: usize,
    wanted: u8,
    steps: &mut Steps<L>,
) -> usize
    requires ordered { from ≤ end }
    requires within { end ≤ length value.now }
    ensures place { GoesPast C.image_of value.now from end (C.image_of wanted) result }
    ensures cost { result < end → steps.new + from ≤ steps.old + result + 1 }
    ensures all { steps.new + from ≤ steps.old + length value.now + 1 }
{
    match value.first_of::<C, L>(from, wanted, steps) {
        Some(place) => place.min(end),
        None => end,
    }
}

// The next place from `pos` on at which a key of `m` octets may match: one at which the first octet after
// the cut matches. If some of the key is known to match at `pos`, it is `pos`.
#[inline(always)]
fn next_candidate<C: Comparator, K: Key, L: Ledger>(
    key: &K,
    critical: KeyCursor,
    value: &Watched,
    pos: usize,
    known: usize,
    steps: &mut Steps<L>,
) -> usize
    requires below { critical.index < K.size key.now }
    requires spot { K.is_spot key.now critical }
    requires fits { pos + K.size key.now ≤ length value.now }
    requires bound { length value.now < 2 ^ 63 }
    ensures low { pos ≤ result }
    ensures high { result + K.size key.now ≤ length value.now + 1 }
    ensures kept { 0 < known → result ≡ pos }
    ensures passed { Nowhere (StandsAt C.image_of (K.octet_at key.now) (K.size key.now) value.now) pos result }
    ensures cost { result + K.size key.now ≤ length value.now → steps.new + pos ≤ steps.old + result + 2 }
    ensures all { steps.new + pos ≤ steps.old + length value.now + 2 }
{
    if 0 < known {
        return pos;
    }
    let wanted = key.octet(critical);
    let octet = value.octet(pos + critical.index, steps);
    if C::image(octet) == C::image(wanted) {
        return pos;
    }
    let end = value.len() - key.len() + critical.index + 1;
    next_place::<C, L>(value, pos + critical.index, end, wanted, steps) - critical.index
}

// The search for a key that has been cut.
fn find_cut<C: Comparator, K: Key, L: Ledger>(
    key: &K,
    cut: Cut,
    value: &Watched,
    from: usize,
    steps: &mut Steps<L>,
) -> Option<usize>
    requires cut { IsKeyCut (image_at C.image_of (K.octet_at key.now)) (K.size key.now) cut }
    requires critical { K.is_spot key.now cut.critical }
    requires keep { K.is_spot key.now cut.keep }
    requires start { from ≤ length value.now }
    ensures found { FindsKey C.image_of (K.octet_at key.now) (K.size key.now) value.now from result }
    ensures cost { steps.new ≤ steps.old + 4 * (search_end (length value.now) result - from) + K.size key.now + 2 }
{
    let (m, n) = (key.len(), value.len());
    let mut pos = from;
    let mut known = key.first();
    while m <= n - pos {
        pos = next_candidate::<C, K, L>(key, cut.critical, value, pos, known.index, steps);
        if n - pos < m {
            return None;
        }
        let start = if known.index > cut.critical.index {
            known
        } else {
            cut.critical
        };
        let right = matched_to::<C, K, L>(key, value, pos, start, m, steps);
        if right.index < m {
            pos += right.index - cut.critical.index + 1;
            known = key.first();
            continue;
        }
        let left = matched_to::<C, K, L>(key, value, pos, known, cut.critical.index, steps);
        if left.index >= cut.critical.index {
            return Some(pos);
        }
        pos += cut.shift;
        known = cut.keep;
    }
    None
}

// The places of a key of at most 63 octets.
pub(crate) fn masks_of<C: Comparator, K: Key, L: Ledger>(key: &K, steps: &mut Steps<L>) -> Masks
    requires { K.size key.now ≤ 63 }
    ensures masks { AreMasks (fits_key C.image_of (K.octet_at key.now)) (K.size key.now) result }
    ensures cost { steps.new ≡ steps.old + K.size key.now + 256 }
{
    let mut masks = Masks::new();
    steps.add(TABLE);
    let mut spot = key.first();
    while spot.index < key.len() {
        steps.tick();
        masks.push::<C>(key.octet(spot));
        spot = key.next(spot);
    }
    masks
}

// The search for a key of at most 63 octets.
fn find_short<C: Comparator, K: Key, L: Ledger>(
    key: &K,
    value: &Watched,
    from: usize,
    steps: &mut Steps<L>,
) -> Option<usize>
    requires short { K.size key.now ≤ 63 }
    requires start { from ≤ length value.now }
    ensures found { FindsKey C.image_of (K.octet_at key.now) (K.size key.now) value.now from result }
    ensures cost { steps.new ≤ steps.old + (search_end (length value.now) result - from) + 2 * K.size key.now + 256 }
{
    let masks = masks_of::<C, K, L>(key, steps);
    masks.find_watched::<L>(value, from, steps)
}

/// Returns the first place of `value`, from `from` on, at which the images of `key` occur.
///
/// Takes no memory, and time linear in the sum of the lengths of key and value, whatever they contain. The key's first octet is
/// searched for; from there on a key of at most 63 octets is searched for by [`Masks`], which looks at each octet once. For a longer
/// one the Two-Way algorithm of Crochemore and Perrin (Two-way string-matching, 1991) takes a few passes over the key, and compares
/// each octet of the value at most twice.
pub fn find<C: Comparator, K: Key>(key: &K, value: &[u8], from: usize) -> Option<usize>
    requires { from ≤ length value.now }
    ensures { FindsKey C.image_of (K.octet_at key.now) (K.size key.now) value.now from result }
{
    find_uncounted::<C, K, Brand>(key, value, from, Blank::new(1))
}

// The same, with a ledger that nobody reads.
fn find_uncounted<C: Comparator, K: Key, L: Ledger>(
    key: &K,
    value: &[u8],
    from: usize,
    blank: Blank,
) -> Option<usize>
    requires name { blank.name ≡ L.name }
    requires parts { blank.parts ≡ L.parts }
    requires some { 0 < blank.parts }
    requires start { from ≤ length value.now }
    ensures { FindsKey C.image_of (K.octet_at key.now) (K.size key.now) value.now from result }
{
    find_counted::<C, K, L>(key, value, from, &mut Steps::new(blank))
}

/// The same, with the steps that it takes added to `steps`: linear in the key and in the octets that it moves over.
pub fn find_counted<C: Comparator, K: Key, L: Ledger>(
    key: &K,
    value: &[u8],
    from: usize,
    steps: &mut Steps<L>,
) -> Option<usize>
    requires { from ≤ length value.now }
    ensures found { FindsKey C.image_of (K.octet_at key.now) (K.size key.now) value.now from result }
    ensures cost { steps.new ≤ steps.old + search_steps (K.size key.now) (search_end (length value.now) result - from) }
{
    find_watched::<C, K, L>(key, &Watched::new(value), from, steps)
}

// The same in a value whose octets are looked at by steps.
pub(crate) fn find_watched<C: Comparator, K: Key, L: Ledger>(
    key: &K,
    value: &Watched,
    from: usize,
    steps: &mut Steps<L>,
) -> Option<usize>
    requires { from ≤ length value.now }
    ensures found { FindsKey C.image_of (K.octet_at key.now) (K.size key.now) value.now from result }
    ensures cost { steps.new ≤ steps.old + search_steps (K.size key.now) (search_end (length value.now) result - from) }
    ensures none { K.size key.now ≡ 0 → steps.new ≡ steps.old }
{
    let m = key.len();
    if m == 0 {
        return Some(from);
    }
    let Some(first) = value.first_of::<C, L>(from, key.octet(key.first()), steps) else {
        return None;
    };
    if m == 1 {
        return Some(first);
    }
    if m <= MAX_PLACES {
        return find_short::<C, K, L>(key, value, first, steps);
    }
    let cut = find_critical_cut::<C, K, L>(key, steps);
    find_cut::<C, K, L>(key, cut, value, first, steps)
}
