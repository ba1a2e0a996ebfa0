//! The recipients of a message.
ghost use Rattle.std.specs.Prelude.{◌≡◌, ◌<◌, [], ◌∷◌, ◌++◌, length, take, slice_index_or, OnOk, OnErr};

use octets::Octets;
use std::alloc::{AllocError, Global};
use std::marker::Model;

/// The recipients of a message, in the order in which they came. Contracts see the list of their addresses.
#[derive(Drop)]
pub struct Recipients {
    addresses: Vec<Octets>,
}

impl Model for Recipients {
    ghost use Rattle.std.specs.Prelude.{ℕ, List};

    ghost Value = { List (List ℕ) };

    ghost view = { λ recipients. recipients.addresses.items };
}

impl Recipients {
    /// None. Takes no memory.
    pub fn new(alloc: Global) -> Recipients
        ensures { result ≡ [] }
    {
        Recipients {
            addresses: Vec::new(alloc),
        }
    }

    pub fn len(&self) -> usize
        ensures { result ≡ length self.now }
    {
        self.addresses.len()
    }

    /// The address at that index, counted from 0.
    pub fn address(&self, at: usize) -> &[u8]
        requires { at < length self.now }
        ensures { result.now ≡ slice_index_or self.now at [] }
    {
        self.addresses[at].as_slice()
    }

    /// Adds one at the end; without memory they stay as they were.
    pub fn push(&mut self, address: Octets) -> Result<(), AllocError>
        ensures ok { OnOk result (self.new ≡ self.old ++ address ∷ []) }
        ensures err { OnErr result (self.new ≡ self.old) }
    {
        match self.addresses.push(address) {
            Ok(()) => Ok(()),
            Err(_) => Err(AllocError),
        }
    }

    /// Keeps the first `count` of them. Takes no memory.
    pub fn truncate(&mut self, count: usize)
        ensures { self.new ≡ take count self.old }
    {
        self.addresses.truncate(count);
    }
}
