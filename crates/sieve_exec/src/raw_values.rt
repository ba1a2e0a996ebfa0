//! The raw values of the fields with one name.
ghost use Rattle.std.specs.Prelude.{◌≡◌, [], ◌∷◌, ◌++◌, map, not, OnOk};
ghost use Rattle.sieve_exec.specs.Truth.{is_some_there};

use std::alloc::{AllocError, Global};
use std::marker::Model;

/// Raw values, in the order of the fields, as slices of the message. Contracts see their octets.
#[derive(Drop)]
pub struct RawValues<'a> {
    slices: Vec<&'a [u8]>,
}

impl<'a> Model for RawValues<'a> {
    ghost use Rattle.std.specs.Prelude.{ℕ, List, map};

    ghost Value = { List (List ℕ) };

    ghost view = { λ raws. map (λ slice. slice.now) raws.slices.items };
}

impl<'a> RawValues<'a> {
    /// No values. Takes no memory.
    pub(crate) fn new(alloc: Global) -> RawValues<'a>
        ensures { result ≡ [] }
    {
        RawValues {
            slices: Vec::new(alloc),
        }
    }

    /// Appends a value.
    pub(crate) fn push(&mut self, raw: &'a [u8]) -> Result<(), AllocError>
        ensures { OnOk result (self.new ≡ self.old ++ raw.now ∷ []) }
    {
        self.slices.push(raw)?;
        Ok(())
    }

    pub(crate) fn is_empty(&self) -> bool
        ensures { result ≡ not (is_some_there self.now) }
    {
        self.slices.is_empty()
    }

    pub(crate) fn as_slice(&self) -> &[&'a [u8]]
        ensures { map (λ slice. slice.now) result.now ≡ self.now }
    {
        self.slices.as_slice()
    }
}
