//! Comparators (RFC 4790): whether two texts are the same, whether one contains the other, and which comes first, by the
//! images of their octets or by numbers. Nothing here takes memory.
#![tactic(auto)]

ghost use Rattle.std.specs.Prelude.{◌≡◌, ◌↔◌, ◌⊎◌, ℕ, ◌+◌, ◌^◌, ◌<◌, ◌≤◌, length, refl, IsTrue};
ghost use Rattle.std.specs.Char.{to_ascii_uppercase};
ghost use Rattle.std.proofs.lemmas.Str.Ascii.{uppercase-uppercase};
ghost use Rattle.sieve_match.specs.Comparators.{EqualBy, ContainsBy, SameFrom};
ghost use Rattle.sieve_match.specs.Costs.{search_steps};

mod captures;
pub mod counting;
mod glob;
pub mod laws;
mod masks;
mod numeric;
mod order;
mod parts;
mod pattern;
mod places;
mod spelling;
mod twoway;

pub use crate::pattern::GlobItem;
pub use captures::{Captures, MAX_CAPTURES, captures_of};
use counting::Steps;
pub use glob::{matches, matches_counted};
pub use masks::{MAX_PLACES, Masks};
pub use numeric::{are_equal_numbers, compare_numbers};
pub use order::compare;
pub use places::{contains_places, contains_places_counted, places_counted, places_of};
pub use spelling::{Key, KeyCursor, PlainKey};
use std::marker::Brand;
use std::sync::ledger::{Blank, Ledger};
pub use twoway::{find, find_counted};

/// A comparator (RFC 4790, section 4): octets are the same if their images are.
pub trait Comparator {
    // The image of an octet.
    ghost image_of: { ℕ → ℕ };

    /// The octet that stands for `octet` in comparisons.
    fn image(octet: u8) -> u8
        ensures { result ≡ image_of octet };

    /// The other octet with the image of `octet`; if there is no other, `octet` itself.
    fn other(octet: u8) -> u8
        ensures { (b : ℕ) → b < 2 ^ 8 → (image_of octet ≡ image_of b) ↔ ((b ≡ octet) ⊎ (b ≡ result)) };

    // The image of an image is that image.
    ghost settled: { (octet : ℕ) → octet < 2 ^ 8 → image_of (image_of octet) ≡ image_of octet };
}

/// `i;octet` (RFC 4790, section 9.3): each octet is its own image.
#[derive(Clone, Copy, Debug)]
pub struct Octet;

impl Comparator for Octet {
    ghost image_of = { λ octet. octet };

    ghost settled = { λ octet _. refl };

    #[inline(always)]
    fn image(octet: u8) -> u8 {
        octet
    }

    #[inline(always)]
    fn other(octet: u8) -> u8 {
        octet
    }
}

/// `i;ascii-casemap` (RFC 4790, section 9.2): the image of `a` to `z` is `A` to `Z`, and other octets are their own.
#[derive(Clone, Copy, Debug)]
pub struct AsciiCasemap;

impl Comparator for AsciiCasemap {
    ghost image_of = { to_ascii_uppercase };

    ghost settled = { λ octet _. uppercase-uppercase octet };

    #[inline(always)]
    fn image(octet: u8) -> u8 {
        octet.to_ascii_uppercase()
    }

    #[inline(always)]
    fn other(octet: u8) -> u8 {
        match octet {
            b'a'..=b'z' => octet - 32,
            b'A'..=b'Z' => octet + 32,
            _ => octet,
        }
    }
}

// How many octets `is` compares at a time: there is no early exit within such a run, so it becomes vector code.
const RUN: usize = 64;

/// Whether two texts have the same images, octet by octet. One pass.
pub fn is<C: Comparator>(key: &[u8], value: &[u8]) -> bool
    ensures { IsTrue result ↔ EqualBy C.image_of key.now value.now }
{
    let n = key.len();
    if n != value.len() {
        return false;
    }
    let mut i = 0;
    while RUN <= n - i {
        if !same_run::<C>(key, value, i, RUN) {
            return false;
        }
        i += RUN;
    }
    same_run::<C>(key, value, i, n - i)
}

// Whether `count` octets from place `from` on have the same images.
#[inline(always)]
fn same_run<C: Comparator>(key: &[u8], value: &[u8], from: usize, count: usize) -> bool
    requires key { from + count ≤ length key.now }
    requires value { from + count ≤ length value.now }
    ensures { IsTrue result ↔ SameFrom C.image_of key.now value.now from count }
{
    let mut same = true;
    for k in 0..count {
        same &= C::image(key[from + k]) == C::image(value[from + k]);
    }
    same
}

/// Whether the images of `key` occur in those of `value`; those of the empty key occur everywhere.
///
/// Time is linear in the sum of the lengths of key and value, whatever they contain (`find`).
pub fn contains<C: Comparator>(key: &[u8], value: &[u8]) -> bool
    ensures { IsTrue result ↔ ContainsBy C.image_of key.now value.now }
{
    contains_uncounted::<C, Brand>(key, value, Blank::new(1))
}

// The same, with a ledger that nobody reads.
fn contains_uncounted<C: Comparator, L: Ledger>(key: &[u8], value: &[u8], blank: Blank) -> bool
    requires name { blank.name ≡ L.name }
    requires parts { blank.parts ≡ L.parts }
    requires some { 0 < blank.parts }
    ensures { IsTrue result ↔ ContainsBy C.image_of key.now value.now }
{
    contains_counted::<C, L>(key, value, &mut Steps::new(blank))
}

/// The same, with the steps that it takes added to `steps`: linear in key and value.
pub fn contains_counted<C: Comparator, L: Ledger>(
    key: &[u8],
    value: &[u8],
    steps: &mut Steps<L>,
) -> bool
    ensures found { IsTrue result ↔ ContainsBy C.image_of key.now value.now }
    ensures cost { steps.new ≤ steps.old + search_steps (length key.now) (length value.now) }
{
    find_counted::<C, PlainKey, L>(&PlainKey { octets: key }, value, 0, steps).is_some()
}
