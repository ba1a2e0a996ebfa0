//! How many steps a search takes. Counting takes no memory and no time: a ledger's tokens have no octets.
ghost use Rattle.std.specs.Prelude.{◌≡◌, ℕ, List, ◌+◌, ◌^◌, ◌<◌, ◌≤◌, length, slice_index};
ghost use Rattle.memchr.specs.Find.{IsFirst};
ghost use Rattle.sieve_match.specs.Costs.{search_end};
ghost use Rattle.sieve_match.specs.Search.{HasImage};

use crate::Comparator;
use memchr::memchr2;
use std::marker::Model;
use std::sync::ledger::{Blank, Book, Ledger, Share};

/// The steps that were taken: a number to contracts, and nothing at run time.
///
/// A step is one look at an octet of a value, one comparison of two octets of a key, one octet or item of a key that is
/// read on the way, or one number that is set in the table of [`Masks`](crate::Masks).
#[derive(Drop)]
pub struct Steps<L: Ledger> {
    book: Book<L>,
    share: Share<L>,
}

impl<L: Ledger> Model for Steps<L> {
    ghost Value = { ℕ };

    ghost view = { λ s. s.book.total };

    ghost invariant = { λ s. 0 < s.share.parts };
}

impl<L: Ledger> Steps<L> {
    /// No step yet.
    pub fn new(blank: Blank) -> Steps<L>
        requires name { blank.name ≡ L.name }
        requires parts { blank.parts ≡ L.parts }
        requires some { 0 < blank.parts }
        ensures { result ≡ 0 }
    {
        let (book, share) = blank.open::<L>();
        Steps { book, share }
    }

    /// Counts one step.
    #[inline(always)]
    pub fn tick(&mut self)
        ensures { self.new ≡ self.old + 1 }
    {
        self.book.add(&mut self.share, 1);
    }

    /// Counts that many steps.
    #[inline(always)]
    pub fn add(&mut self, count: usize)
        ensures { self.new ≡ self.old + count }
    {
        self.book.add(&mut self.share, count as u64);
    }
}

/// A value that is searched. Its octets are looked at here alone, and each look is a step.
#[derive(Drop)]
pub(crate) struct Watched<'v> {
    octets: &'v [u8],
}

impl<'v> Model for Watched<'v> {
    ghost Value = { List ℕ };

    ghost view = { λ value. value.octets.now };

    ghost invariant = { λ value. (k : ℕ) → slice_index value.octets.now k < 2 ^ 8 };
}

impl<'v> Watched<'v> {
    pub(crate) fn new(octets: &'v [u8]) -> Watched<'v>
        ensures { result ≡ octets.now }
    {
        Watched { octets }
    }

    // The number of octets.
    #[inline(always)]
    pub(crate) fn len(&self) -> usize
        ensures len { result ≡ length self.now }
        ensures fits { length self.now < 2 ^ 63 }
        ensures octets { (k : ℕ) → slice_index self.now k < 2 ^ 8 }
    {
        self.octets.len()
    }

    // The octet at a place.
    #[inline(always)]
    pub(crate) fn octet<L: Ledger>(&self, place: usize, steps: &mut Steps<L>) -> u8
        requires { place < length self.now }
        ensures octet { result ≡ slice_index self.now place }
        ensures cost { steps.new ≡ steps.old + 1 }
    {
        steps.tick();
        self.octets[place]
    }

    // The first place, from `from` on, whose octet has the image of this one.
    pub(crate) fn first_of<C: Comparator, L: Ledger>(
        &self,
        from: usize,
        octet: u8,
        steps: &mut Steps<L>,
    ) -> Option<usize>
        requires { from ≤ length self.now }
        ensures first { IsFirst (HasImage C.image_of (C.image_of octet) self.now) from (length self.now) result }
        ensures cost { steps.new + from ≤ steps.old + search_end (length self.now) result + 1 }
    {
        first_in::<C, L>(self.octets, from, octet, steps)
    }
}

// The same in octets. That `memchr2` looks once at each octet up to the place is its word: its contract has no steps.
#[inline(always)]
fn first_in<C: Comparator, L: Ledger>(
    octets: &[u8],
    from: usize,
    octet: u8,
    steps: &mut Steps<L>,
) -> Option<usize>
    requires { from ≤ length octets.now }
    ensures first { IsFirst (HasImage C.image_of (C.image_of octet) octets.now) from (length octets.now) result }
    ensures cost { steps.new + from ≤ steps.old + search_end (length octets.now) result + 1 }
    ensures all { steps.old + search_end (length octets.now) result ≤ steps.new + from }
{
    match memchr2(octet, C::other(octet), octets.split_at(from).1) {
        Some(at) => {
            steps.add(at + 1);
            Some(from + at)
        }
        None => {
            steps.add(octets.len() - from);
            None
        }
    }
}
