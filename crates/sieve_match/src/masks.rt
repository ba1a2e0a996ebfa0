//! The search for a few consecutive places by Shift-Or (Baeza-Yates and Gonnet, 1992): one bit of a number for each place.
ghost use Rattle.std.specs.Prelude.{◌≡◌, ◌≢◌, ◌==◌, ◌↔◌, ℕ, Bool, true, ◌+◌, ◌-◌, ◌<◌, ◌≤◌, length, slice_index, IsTrue};
ghost use Rattle.std.specs.Int.{bit_at};
ghost use Rattle.memchr.specs.Find.{IsFirst};
ghost use Rattle.sieve_match.specs.Unasked.{AreUnasked};

use crate::Comparator;
use crate::counting::{Steps, Watched};
use std::marker::Brand;
use std::sync::ledger::{Blank, Ledger};

/// The most places of masks.
pub const MAX_PLACES: usize = 63;

/// How many numbers masks have.
pub(crate) const TABLE: usize = 256;

/// Consecutive places, each of which takes one octet: one with a given image, or any. Their size is 2 kB.
#[derive(Clone, Copy)]
pub struct Masks {
    // A number for each octet: the bits of the places that don't take the octet are set.
    octets: [u64; 256],
    // The bits of the places that don't take every octet.
    choosy: u64,
    len: usize,
    ghost short: { len ≤ 63 },
    ghost unasked: { AreUnasked octets choosy len },
}

// Numbers with all bits set.
fn full() -> [u64; 256]
    ensures { (b : ℕ) → b < 256 → slice_index result b ≡ 18446744073709551615 }
{
    [u64::MAX; 256]
}

// Clears a bit of an octet's number.
#[inline(always)]
fn clear(octets: &mut [u64; 256], octet: u8, bit: usize)
    requires { bit < 64 }
    ensures others { (b : ℕ) → b ≢ octet → slice_index octets.new b ≡ slice_index octets.old b }
    ensures cleared { bit_at (slice_index octets.new octet) bit ≡ 0 }
    ensures kept { (j : ℕ) → j < 64 → j ≢ bit → bit_at (slice_index octets.new octet) j ≡ bit_at (slice_index octets.old octet) j }
{
    octets[octet as usize] &= !(1u64 << bit);
}

// Whether a bit is clear.
#[inline(always)]
fn is_clear(number: u64, bit: usize) -> bool
    requires { bit < 64 }
    ensures { IsTrue result ↔ (bit_at number bit ≡ 0) }
{
    (number >> bit) & 1 == 0
}

impl Masks {
    ghost use Rattle.sieve_match.specs.Costs.{search_end};
    ghost use Rattle.sieve_match.specs.Places.{AreMasks, FitsAt};

    /// No place.
    pub fn new() -> Masks
        ensures { (fits : ℕ → ℕ → Bool) → AreMasks fits 0 result }
    {
        Masks {
            octets: full(),
            choosy: 0,
            len: 0,
        }
    }

    /// Appends a place that takes the octets with the image of this one.
    #[inline(always)]
    pub fn push<C: Comparator>(&mut self, octet: u8)
        requires { self.now.len < 63 }
        ensures { (fits : ℕ → ℕ → Bool) (n : ℕ) → AreMasks fits n self.old
            → ((b : ℕ) → b < 256 → fits n b ≡ (C.image_of octet == C.image_of b)) → AreMasks fits (n + 1) self.new }
    {
        clear(&mut self.octets, octet, self.len);
        clear(&mut self.octets, C::other(octet), self.len);
        self.choosy |= 1u64 << self.len;
        self.len += 1;
    }

    /// Appends a place that takes any octet.
    #[inline(always)]
    pub fn push_any(&mut self)
        requires { self.now.len < 63 }
        ensures { (fits : ℕ → ℕ → Bool) (n : ℕ) → AreMasks fits n self.old → ((b : ℕ) → b < 256 → fits n b ≡ true) → AreMasks fits (n + 1) self.new }
    {
        self.len += 1;
    }

    /// Returns the first place of `value`, from `from` on, at which the places take the octets. Time is linear in the value, whatever it
    /// contains.
    pub fn find(&self, value: &[u8], from: usize) -> Option<usize>
        requires { from ≤ length value.now }
        ensures { (fits : ℕ → ℕ → Bool) (n : ℕ) → AreMasks fits n self.now → IsFirst (FitsAt fits n value.now) from (length value.now + 1) result }
    {
        self.find_uncounted::<Brand>(value, from, Blank::new(1))
    }

    // The same, with a ledger that nobody reads.
    fn find_uncounted<L: Ledger>(&self, value: &[u8], from: usize, blank: Blank) -> Option<usize>
        requires name { blank.name ≡ L.name }
        requires parts { blank.parts ≡ L.parts }
        requires some { 0 < blank.parts }
        requires start { from ≤ length value.now }
        ensures { (fits : ℕ → ℕ → Bool) (n : ℕ) → AreMasks fits n self.now → IsFirst (FitsAt fits n value.now) from (length value.now + 1) result }
    {
        self.find_counted::<L>(value, from, &mut Steps::new(blank))
    }

    /// The same, with the steps that it takes added to `steps`: one for each octet up to the match's end.
    pub fn find_counted<L: Ledger>(
        &self,
        value: &[u8],
        from: usize,
        steps: &mut Steps<L>,
    ) -> Option<usize>
        requires { from ≤ length value.now }
        ensures found { (fits : ℕ → ℕ → Bool) (n : ℕ) → AreMasks fits n self.now → IsFirst (FitsAt fits n value.now) from (length value.now + 1) result }
        ensures cost { steps.new ≤ steps.old + (search_end (length value.now) result - from) + self.now.len }
        ensures all { steps.new + from ≤ steps.old + length value.now }
    {
        self.find_watched::<L>(&Watched::new(value), from, steps)
    }

    // The same in a value whose octets are looked at by steps.
    pub(crate) fn find_watched<L: Ledger>(
        &self,
        value: &Watched,
        from: usize,
        steps: &mut Steps<L>,
    ) -> Option<usize>
        requires { from ≤ length value.now }
        ensures found { (fits : ℕ → ℕ → Bool) (n : ℕ) → AreMasks fits n self.now → IsFirst (FitsAt fits n value.now) from (length value.now + 1) result }
        ensures cost { steps.new ≤ steps.old + (search_end (length value.now) result - from) + self.now.len }
        ensures all { steps.new + from ≤ steps.old + length value.now }
    {
        if self.len == 0 {
            return Some(from);
        }
        let mut state = !1u64;
        for i in from..value.len() {
            let octet = value.octet(i, steps);
            state |= self.octets[octet as usize] & self.choosy;
            state <<= 1;
            if is_clear(state, self.len) {
                return Some(i + 1 - self.len);
            }
        }
        None
    }
}
