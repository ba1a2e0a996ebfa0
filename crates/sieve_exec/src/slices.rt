//! Some of the names or keys of a test.
ghost use Rattle.std.specs.Prelude.{◌≡◌, [], ◌∷◌, ◌++◌, map, OnOk};

use std::alloc::{AllocError, Global};
use std::marker::Model;

/// Names or keys of a test, in order, as slices of it. Contracts see their octets.
#[derive(Drop)]
pub struct Slices<'t> {
    slices: Vec<&'t [u8]>,
}

impl<'t> Model for Slices<'t> {
    ghost use Rattle.std.specs.Prelude.{ℕ, List, map};

    ghost Value = { List (List ℕ) };

    ghost view = { λ list. map (λ slice. slice.now) list.slices.items };
}

impl<'t> Slices<'t> {
    /// No slices. Takes no memory.
    pub(crate) fn new(alloc: Global) -> Slices<'t>
        ensures { result ≡ [] }
    {
        Slices {
            slices: Vec::new(alloc),
        }
    }

    /// Appends a slice.
    pub(crate) fn push(&mut self, slice: &'t [u8]) -> Result<(), AllocError>
        ensures { OnOk result (self.new ≡ self.old ++ slice.now ∷ []) }
    {
        self.slices.push(slice)?;
        Ok(())
    }

    pub(crate) fn as_slice(&self) -> &[&'t [u8]]
        ensures { map (λ slice. slice.now) result.now ≡ self.now }
    {
        self.slices.as_slice()
    }
}
