//! A journal in memory.
use octets::{Octets, write_decimal};
use smtp_dialogue::Ending;
use smtp_send::{Journal, Unwritten};
use std::alloc::{AllocError, Global};

/// What became of rows, one after another: `ID ENDING; ` for each, and `ID changed; ` before that of one whose number another row has. Its
/// clock goes on when it pauses, and by a span at each look at it.
#[derive(Drop)]
pub struct MemoryJournal {
    noted: Octets,
    /// In milliseconds.
    clock: u64,
    span: u64,
}

impl MemoryJournal {
    pub fn new(alloc: Global, span: u64) -> MemoryJournal {
        MemoryJournal {
            noted: Octets::new(alloc),
            clock: 0,
            span,
        }
    }

    /// What it noted.
    pub fn noted(&self) -> &[u8] {
        self.noted.as_slice()
    }

    /// What its clock shows, in whole seconds.
    pub fn seconds(&self) -> u64 {
        self.clock / 1_000
    }

    fn tell(&mut self, id: u64, ending: Ending) -> Result<(), AllocError> {
        write_decimal(&mut self.noted, id)?;
        match ending {
            Ending::Sent => self.noted.extend_from_slice(b" sent"),
            Ending::Refused(code) => self.tell_code(b" refused ", code),
            Ending::Delayed(code) => self.tell_code(b" delayed ", code),
            Ending::OutOfPlace(code) => self.tell_code(b" unexpected ", code),
            Ending::Lost => self.noted.extend_from_slice(b" lost"),
            Ending::Undeclared => self.noted.extend_from_slice(b" undeclared"),
            Ending::Unaddressed => self.noted.extend_from_slice(b" unaddressed"),
        }?;
        self.noted.extend_from_slice(b"; ")
    }

    fn tell_number(&mut self, id: u64, word: &[u8]) -> Result<(), AllocError> {
        write_decimal(&mut self.noted, id)?;
        self.noted.extend_from_slice(word)
    }

    fn tell_code(&mut self, word: &[u8], code: u16) -> Result<(), AllocError> {
        self.noted.extend_from_slice(word)?;
        write_decimal(&mut self.noted, u64::from(code))
    }
}

impl Journal for MemoryJournal {
    fn begin(&mut self, _user: &[u8], _id: u64) {}

    fn note(&mut self, _user: &[u8], id: u64, ending: Ending) -> Result<(), Unwritten> {
        match self.tell(id, ending) {
            Ok(()) => Ok(()),
            Err(_) => Err(Unwritten),
        }
    }

    fn tell_changed(&mut self, _user: &[u8], id: u64) {
        let _ = self.tell_number(id, b" changed; ");
    }

    fn tell_gone(&mut self, _user: &[u8], id: u64) {
        let _ = self.tell_number(id, b" gone; ");
    }

    fn uptime(&mut self) -> u64 {
        self.clock = self.clock.saturating_add(self.span);
        self.clock
    }

    fn pause(&mut self, milliseconds: u64) {
        self.clock = self.clock.saturating_add(milliseconds);
    }
}
