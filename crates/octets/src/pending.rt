//! Octets that wait in order: a queue of octets.
ghost use Rattle.std.specs.Prelude.{◌≡◌, ◌↔◌, ◌≤◌, ◌++◌, [], length, drop, IsTrue, OnOk, OnErr};

use crate::string::Octets;
use std::alloc::{AllocError, Global};
use std::marker::Model;

/// A queue of octets: they are appended at the end and taken off at the front. Contracts see those that are not yet taken off.
///
/// Taking off moves nothing: the index at which the others begin is kept. The others are moved to the front when a piece
/// comes and no more of them are left than were taken off, so there are at most as many moves of an octet as octets were
/// taken off, and time is linear in all that comes. At most twice the octets that wait and the newest piece are held, apart
/// from the vector's spare capacity.
#[derive(Drop)]
pub struct Pending {
    octets: Vec<u8>,
    start: usize,
}

impl Model for Pending {
    ghost use Rattle.std.specs.Prelude.{ℕ, List, ◌≤◌, drop, length};

    ghost Value = { List ℕ };

    ghost view = { λ pending. drop pending.start pending.octets.items };

    ghost invariant = { λ pending. pending.start ≤ length pending.octets.items };
}

impl Pending {
    /// No octets. Takes no memory.
    pub fn new(alloc: Global) -> Pending
        ensures { result ≡ [] }
    {
        Pending {
            octets: Vec::new(alloc),
            start: 0,
        }
    }

    /// All of a text, without a copy.
    pub fn from_octets(text: Octets) -> Pending
        ensures { result ≡ text }
    {
        Pending {
            octets: text.into_vec(),
            start: 0,
        }
    }

    /// The octets that wait. Takes no memory.
    pub fn as_slice(&self) -> &[u8]
        ensures { result.now ≡ self.now }
    {
        &self.octets.as_slice()[self.start..]
    }

    /// The number of octets that wait.
    pub fn len(&self) -> usize
        ensures { result ≡ length self.now }
    {
        self.as_slice().len()
    }

    pub fn is_empty(&self) -> bool
        ensures { IsTrue result ↔ (self.now ≡ []) }
    {
        self.as_slice().is_empty()
    }

    /// Appends a piece at the end. If there is no memory, nothing changes.
    pub fn extend_from_slice(&mut self, piece: &[u8]) -> Result<(), AllocError>
        ensures ok { OnOk result (self.new ≡ self.old ++ piece.now) }
        ensures err { OnErr result (self.new ≡ self.old) }
    {
        self.move_down();
        self.octets.extend_from_slice(piece)
    }

    /// Takes that many octets off the front. Takes no memory, and constant time.
    pub fn drop_front(&mut self, count: usize)
        requires { count ≤ length self.old }
        ensures { self.new ≡ drop count self.old }
    {
        self.start += count;
    }

    // Moves the octets to the front if no more are left than were taken off.
    fn move_down(&mut self)
        ensures { self.new ≡ self.old }
    {
        let left = self.octets.len() - self.start;
        if left > self.start {
            return;
        }
        self.octets.rotate_left(self.start);
        self.octets.truncate(left);
        self.start = 0;
    }
}
