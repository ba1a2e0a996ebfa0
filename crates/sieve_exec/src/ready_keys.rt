//! The keys of a test that are compared with many values.
ghost use Rattle.std.specs.Prelude.{◌≡◌, IfOk};
ghost use Rattle.std.specs.List.{list_any};
ghost use Rattle.sieve_exec.specs.Ready.{KeysSpec, key_spec_of, keys_spec_of, matches_of, matches_some_of, is_looked_up, IsAskedFor};

use crate::images::{FEW, distinct, images_of};
use crate::ready_key::ReadyKey;
use crate::sizes::Sizes;
use crate::slices::Slices;
use octets::Octets;
use sieve_syntax::{Collation, Matching};
use std::alloc::{AllocError, Global};
use std::collections::BTreeSet;
use std::marker::Model;

/// Values that are compared with keys.
pub trait Values {
    ghost use Rattle.std.specs.Prelude.{◌≡◌, ℕ, List, IfOk};
    ghost use Rattle.std.specs.List.{list_any};
    ghost use Rattle.std.specs.Ordering.{nat_cmp};
    ghost use Rattle.std.specs.Cmp.Lexicographic.{slice_cmp};
    ghost use Rattle.std.specs.BTreeSet.{contains};
    ghost use Rattle.sieve_exec.specs.Images.{text_image};
    ghost use Rattle.sieve_exec.specs.Ready.{matches_of};

    ghost texts: { Self → List (List ℕ) };

    /// Whether some value matches a key.
    fn some_matches(&self, key: &ReadyKey<'_>) -> bool
        ensures { result ≡ list_any (matches_of key.now) (texts self.now) };

    /// Whether a set has the image of some value.
    fn some_is_image(
        &self,
        alloc: Global,
        collation: Collation,
        images: &BTreeSet<Octets>,
    ) -> Result<bool, AllocError>
        ensures { IfOk result (λ there. there ≡ list_any (λ text. contains (slice_cmp nat_cmp) images.now (text_image collation text)) (texts self.now)) };
}

/// What is asked in place of a test's keys.
#[derive(Drop)]
pub enum AskedKeys<'t> {
    /// All of them.
    All,
    /// The first with each image.
    Distinct(Slices<'t>),
    /// For `:is`: their images, in which those of values are looked up.
    Images(BTreeSet<Octets>),
}

/// The keys of a test, prepared to be compared with many values. Contracts see the keys, and how they are compared.
///
/// Few keys, and keys for few values, are asked as they stand. Otherwise for n keys n log n comparisons of images prepare them, in
/// memory for a copy of each image: then keys with the same image are asked once, and with `:is` each value takes log n comparisons.
#[derive(Drop)]
pub struct ReadyKeys<'t> {
    collation: Collation,
    matching: Matching,
    keys: &'t [Octets],
    asked: AskedKeys<'t>,
}

impl<'t> Model for ReadyKeys<'t> {
    ghost use Rattle.sieve_exec.specs.Ready.{KeysSpec, keys_spec_of, IsAskedFor};

    ghost Value = { KeysSpec };

    ghost view = { λ ready. keys_spec_of ready.collation ready.matching ready.keys.now };

    ghost invariant = { λ ready. IsAskedFor (keys_spec_of ready.collation ready.matching ready.keys.now) ready.asked };
}

impl<'t> ReadyKeys<'t> {
    /// Prepares the keys of a test to be compared with values of these sizes.
    pub(crate) fn new(
        alloc: Global,
        collation: Collation,
        matching: Matching,
        keys: &'t [Octets],
        values: Sizes,
    ) -> Result<ReadyKeys<'t>, AllocError>
        ensures { IfOk result (λ ready. ready ≡ keys_spec_of collation matching keys.now) }
    {
        Ok(ReadyKeys {
            collation,
            matching,
            keys,
            asked: asked_for(alloc, collation, matching, keys, values)?,
        })
    }

    /// Whether some value matches some key.
    pub(crate) fn match_some<V: Values>(
        &self,
        alloc: Global,
        values: &V,
    ) -> Result<bool, AllocError>
        ensures { IfOk result (λ holds. holds ≡ list_any (matches_some_of self.now) (V.texts values.now)) }
    {
        match &self.asked {
            AskedKeys::All => Ok(self.some_key_matches(values)),
            AskedKeys::Distinct(keys) => Ok(self.some_slice_matches(keys.as_slice(), values)),
            AskedKeys::Images(images) => values.some_is_image(alloc, self.collation, images),
        }
    }

    /// Whether some value matches some of the keys as they stand.
    fn some_key_matches<V: Values>(&self, values: &V) -> bool
        ensures { result ≡ list_any (λ key. list_any (matches_of (key_spec_of self.now.collation self.now.matching key)) (V.texts values.now)) self.now.keys }
    {
        let keys = self.keys;
        for key in keys {
            if self.key_matches(key.as_slice(), values) {
                return true;
            }
        }
        false
    }

    /// Whether some value matches some of these keys.
    fn some_slice_matches<V: Values>(&self, keys: &[&[u8]], values: &V) -> bool
        ensures { result ≡ list_any (λ key. list_any (matches_of (key_spec_of self.now.collation self.now.matching key.now)) (V.texts values.now)) keys.now }
    {
        for key in keys {
            if self.key_matches(key, values) {
                return true;
            }
        }
        false
    }

    /// Whether some value matches a key, which is prepared once for all values.
    fn key_matches<V: Values>(&self, key: &[u8], values: &V) -> bool
        ensures { result ≡ list_any (matches_of (key_spec_of self.now.collation self.now.matching key.now)) (V.texts values.now) }
    {
        values.some_matches(&ReadyKey::new(self.collation, self.matching, key))
    }
}

/// What is asked in place of a test's keys for values of these sizes.
fn asked_for(
    alloc: Global,
    collation: Collation,
    matching: Matching,
    keys: &[Octets],
    values: Sizes,
) -> Result<AskedKeys<'_>, AllocError>
    ensures { IfOk result (IsAskedFor (keys_spec_of collation matching keys.now)) }
{
    if !pays_off(matching, keys.len(), values) {
        return Ok(AskedKeys::All);
    }
    if is_looked_up(collation, matching) {
        return Ok(AskedKeys::Images(images_of(alloc, collation, keys)?));
    }
    Ok(AskedKeys::Distinct(distinct(alloc, collation, keys)?))
}

/// Whether a value matches a key exactly if they have the same image.
fn is_looked_up(collation: Collation, matching: Matching) -> bool
    ensures { result ≡ is_looked_up collation matching }
{
    match collation {
        Collation::Octet | Collation::AsciiCasemap => matches!(matching, Matching::Is),
        Collation::AsciiNumeric => false,
    }
}

/// Whether values of these sizes are so many, or so large, that a set of the keys takes less time than it saves.
fn pays_off(matching: Matching, keys: usize, values: Sizes) -> bool {
    let many = FEW as u64;
    if keys <= FEW {
        return false;
    }
    match matching {
        Matching::Is => many < values.count,
        _ => 128 * many < values.octets,
    }
}
