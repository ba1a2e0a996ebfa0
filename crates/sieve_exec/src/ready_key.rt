//! A key that is compared with many values.
ghost use Rattle.std.specs.Prelude.{◌≡◌, IfSome};
ghost use Rattle.sieve_exec.specs.Ready.{IsReady, key_spec_of, matches_of};

use crate::matching::matches_key;
use sieve_match::{AsciiCasemap, Masks, Octet, contains_places, places_of};
use sieve_syntax::{Collation, Matching};
use std::marker::Model;

/// A key of a test, prepared to be compared with many values. Contracts see the key, and how it is compared.
#[derive(Drop)]
pub(crate) struct ReadyKey<'k> {
    collation: Collation,
    matching: Matching,
    key: &'k [u8],
    /// For `:contains`, the places of the key, unless it is too long for them.
    places: Option<Masks>,
}

impl<'k> Model for ReadyKey<'k> {
    ghost use Rattle.std.specs.Prelude.{IfSome};
    ghost use Rattle.sieve_exec.specs.Ready.{IsReady, KeySpec, key_spec_of};

    ghost Value = { KeySpec };

    ghost view = { λ ready. key_spec_of ready.collation ready.matching ready.key.now };

    ghost invariant = { λ ready. IfSome ready.places (λ places. IsReady ready.collation ready.matching ready.key.now places) };
}

impl<'k> ReadyKey<'k> {
    /// Prepares a key. Linear in the key.
    pub(crate) fn new(collation: Collation, matching: Matching, key: &'k [u8]) -> ReadyKey<'k>
        ensures { result ≡ key_spec_of collation matching key.now }
    {
        ReadyKey {
            collation,
            matching,
            key,
            places: places_for(collation, matching, key),
        }
    }

    /// Whether a value matches the key. The time is that of one pass over the value for `:contains`, if the key isn't too long, and
    /// otherwise of `is`, `contains`, `matches` or one pass over both; no memory.
    pub(crate) fn matches(&self, value: &[u8]) -> bool
        ensures { result ≡ matches_of self.now value.now }
    {
        match &self.places {
            Some(places) => contains_places(places, value),
            None => matches_key(self.collation, self.matching, self.key, value),
        }
    }
}

/// The places of a key, if it is searched for.
fn places_for(collation: Collation, matching: Matching, key: &[u8]) -> Option<Masks>
    ensures { IfSome result (λ places. IsReady collation matching key.now places) }
{
    match matching {
        Matching::Contains => places_by(collation, key),
        _ => None,
    }
}

fn places_by(collation: Collation, key: &[u8]) -> Option<Masks>
    ensures { IfSome result (λ places. IsReady collation Matching.Contains key.now places) }
{
    match collation {
        Collation::Octet => places_of::<Octet>(key),
        Collation::AsciiCasemap => places_of::<AsciiCasemap>(key),
        Collation::AsciiNumeric => None,
    }
}
