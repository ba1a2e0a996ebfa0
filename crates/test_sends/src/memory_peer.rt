//! A connection in memory.
ghost use Rattle.std.specs.Prelude.{◌≡◌, ◌≤◌, length};

use octets::Octets;
use smtp_send::{Lost, Patience, SmtpPeer};
use std::alloc::Global;

/// Of what is written at once it takes this many octets.
const MOST_TAKEN: usize = 1_000;

/// Comes before octets that don't come at once, and isn't sent.
const LATE: u8 = b'~';

/// A server that sends given octets, at most `most` of them at once, whatever it hears. What follows a `~` doesn't come at once.
/// After them the connection ends, and there is no second one.
#[derive(Drop)]
pub struct MemoryPeer<'a> {
    left: &'a [u8],
    most: usize,
    is_used: bool,
    sent: Octets,
}

impl<'a> MemoryPeer<'a> {
    pub fn new(alloc: Global, octets: &'a [u8], most: usize) -> MemoryPeer<'a> {
        MemoryPeer {
            left: octets,
            most,
            is_used: false,
            sent: Octets::new(alloc),
        }
    }

    // Puts the next octets into the piece, up to some that are late, and returns how many.
    fn hand_out(&mut self, piece: &mut [u8]) -> usize
        ensures { result ≤ length piece.new }
    {
        let at_once = self.left.iter().take_while(|octet| **octet != LATE).count();
        let count = self.most.min(at_once).min(piece.len());
        let (front, rest) = self.left.split_at(count);
        piece[..count].copy_from_slice(front);
        self.left = rest;
        count
    }

    /// What was sent to it.
    pub fn sent(&self) -> &[u8] {
        self.sent.as_slice()
    }
}

impl<'a> SmtpPeer for MemoryPeer<'a> {
    ghost passed = { λ peer sent came. ⊥ };

    fn connect(&mut self) -> Result<(), Lost> {
        if self.is_used {
            return Err(Lost);
        }
        self.is_used = true;
        Ok(())
    }

    fn send(&mut self, octets: &[u8], _patience: Patience) -> Result<(), Lost> {
        match self.sent.extend_from_slice(octets) {
            Ok(()) => Ok(()),
            Err(_) => Err(Lost),
        }
    }

    fn offer(&mut self, octets: &[u8]) -> Result<usize, Lost> {
        let count = octets.len().min(MOST_TAKEN);
        let (front, _) = octets.split_at(count);
        match self.sent.extend_from_slice(front) {
            Ok(()) => Ok(count),
            Err(_) => Err(Lost),
        }
    }

    fn receive(&mut self, piece: &mut [u8], _patience: Patience) -> Result<usize, Lost> {
        if let Some((first, rest)) = self.left.split_first() {
            if *first == LATE {
                self.left = rest;
            }
        }
        Ok(self.hand_out(piece))
    }

    fn receive_at_once(&mut self, piece: &mut [u8]) -> Result<Option<usize>, Lost> {
        if self.left.first() == Some(&LATE) {
            return Ok(None);
        }
        Ok(Some(self.hand_out(piece)))
    }

    fn disconnect(&mut self) {}
}
