//! A key that is searched for in many values.
ghost use Rattle.std.specs.Prelude.{◌≡◌, ◌↔◌, ℕ, List, ◌+◌, ◌<◌, ◌≤◌, length, slice_index, IsTrue, IfSome, IfNone};
ghost use Rattle.sieve_match.specs.Comparators.{ContainsBy};
ghost use Rattle.sieve_match.specs.Places.{AreMasks};
ghost use Rattle.sieve_match.specs.Search.{fits_key};

use crate::Comparator;
use crate::counting::Steps;
use crate::masks::{MAX_PLACES, Masks};
use crate::spelling::PlainKey;
use crate::twoway::masks_of;
use std::marker::Brand;
use std::sync::ledger::{Blank, Ledger};

/// The places of a key, to search for it in many values; `None` for a key of more than 63 octets.
pub fn places_of<C: Comparator>(key: &[u8]) -> Option<Masks>
    ensures none { IfNone result (63 < length key.now) }
    ensures some { IfSome result (λ masks. AreMasks (fits_key C.image_of (slice_index key.now)) (length key.now) masks) }
{
    places_uncounted::<C, Brand>(key, Blank::new(1))
}

// The same, with a ledger that nobody reads.
fn places_uncounted<C: Comparator, L: Ledger>(key: &[u8], blank: Blank) -> Option<Masks>
    requires name { blank.name ≡ L.name }
    requires parts { blank.parts ≡ L.parts }
    requires some { 0 < blank.parts }
    ensures none { IfNone result (63 < length key.now) }
    ensures some { IfSome result (λ masks. AreMasks (fits_key C.image_of (slice_index key.now)) (length key.now) masks) }
{
    places_counted::<C, L>(key, &mut Steps::new(blank))
}

/// The same, with the steps that it takes added to `steps`: one for each octet of the key, and 256.
pub fn places_counted<C: Comparator, L: Ledger>(key: &[u8], steps: &mut Steps<L>) -> Option<Masks>
    ensures none { IfNone result (63 < length key.now) }
    ensures some { IfSome result (λ masks. AreMasks (fits_key C.image_of (slice_index key.now)) (length key.now) masks) }
    ensures cost { steps.new ≤ steps.old + length key.now + 256 }
{
    if key.len() > MAX_PLACES {
        return None;
    }
    Some(masks_of::<C, PlainKey, L>(&PlainKey { octets: key }, steps))
}

/// Whether the images of a key occur in those of `value`, given the key's places. Looks at each octet once.
pub fn contains_places(places: &Masks, value: &[u8]) -> bool
    ensures { (image : ℕ → ℕ) (key : List ℕ) → AreMasks (fits_key image (slice_index key)) (length key) places.now
        → IsTrue result ↔ ContainsBy image key value.now }
{
    contains_places_uncounted::<Brand>(places, value, Blank::new(1))
}

// The same, with a ledger that nobody reads.
fn contains_places_uncounted<L: Ledger>(places: &Masks, value: &[u8], blank: Blank) -> bool
    requires name { blank.name ≡ L.name }
    requires parts { blank.parts ≡ L.parts }
    requires some { 0 < blank.parts }
    ensures { (image : ℕ → ℕ) (key : List ℕ) → AreMasks (fits_key image (slice_index key)) (length key) places.now
        → IsTrue result ↔ ContainsBy image key value.now }
{
    contains_places_counted::<L>(places, value, &mut Steps::new(blank))
}

/// The same, with the steps that it takes added to `steps`: at most one for each octet of the value.
pub fn contains_places_counted<L: Ledger>(
    places: &Masks,
    value: &[u8],
    steps: &mut Steps<L>,
) -> bool
    ensures found { (image : ℕ → ℕ) (key : List ℕ) → AreMasks (fits_key image (slice_index key)) (length key) places.now
        → IsTrue result ↔ ContainsBy image key value.now }
    ensures cost { steps.new ≤ steps.old + length value.now }
{
    places.find_counted::<L>(value, 0, steps).is_some()
}
