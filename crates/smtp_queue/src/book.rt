//! What came of rows is told on two outputs, and noted.
ghost use Rattle.std.specs.Prelude.{◌≡◌};

use crate::clock::SendClock;
use crate::report_line::{
    changed_line, gone_line, is_for_good, place_line, refusal_line, row_line,
};
use crate::row_key::RowKey;
use crate::waits::RowWaits;
use octets::Octets;
use smtp_dialogue::Ending;
use smtp_send::{Journal, Unwritten};
use std::alloc::{AllocError, Global};
use std::io::Write;

/// A journal: tells what came of each row on an output, and of those that are permanently refused, or whose number
/// another one has, on another, too; keeps what is known of rows that wait, which row was tried last, and how many
/// were.
pub struct Book<'a, W: Write, E: Write, T: SendClock> {
    alloc: Global,
    memory: NotedWaits,
    output: &'a mut W,
    errors: &'a mut E,
    clock: &'a mut T,
}

/// What is known at the end of a run.
#[derive(Drop)]
pub struct NotedWaits {
    /// What is known of rows that were tried without success.
    pub waits: RowWaits,
    /// The user and the number of the row that was tried last.
    pub last: Octets,
    /// How many rows were sent.
    pub sent: u64,
    /// How many others were tried.
    pub waiting: u64,
}

impl<'a, W: Write, E: Write, T: SendClock> Book<'a, W, E, T> {
    /// With what was known before of rows that were tried without success.
    pub fn new(
        alloc: Global,
        waits: RowWaits,
        output: &'a mut W,
        errors: &'a mut E,
        clock: &'a mut T,
    ) -> Book<'a, W, E, T> {
        Book {
            alloc,
            memory: NotedWaits {
                waits,
                last: Octets::new(alloc),
                sent: 0,
                waiting: 0,
            },
            output,
            errors,
            clock,
        }
    }

    /// What is known at the end of a run.
    pub fn into_memory(self) -> NotedWaits
        ensures { result ≡ self.entry.memory }
    {
        let Book {
            alloc: _,
            memory,
            output: _,
            errors: _,
            clock: _,
        } = self;
        memory
    }
}

impl NotedWaits {
    // A row was tried, and ended so. Without memory nothing is known of it, and it is due at once.
    fn note(&mut self, place: RowKey, ending: Ending, moment: u64) {
        let count = match ending {
            Ending::Sent => &mut self.sent,
            _ => &mut self.waiting,
        };
        *count = count.saturating_add(1);
        let _ = self.waits.note(place, ending, moment);
    }
}

impl<W: Write, E: Write, T: SendClock> Journal for Book<'_, W, E, T> {
    fn begin(&mut self, user: &[u8], id: u64) {
        self.memory.last = match place_line(self.alloc, user, id) {
            Ok(line) => line,
            Err(_) => Octets::new(self.alloc),
        };
    }

    fn note(&mut self, user: &[u8], id: u64, ending: Ending) -> Result<(), Unwritten> {
        let Ok(place) = RowKey::new(self.alloc, user, id) else {
            return Err(Unwritten);
        };
        let row = row_line(self.alloc, &place, ending);
        let refusal = refusal_line(self.alloc, &place, ending);
        self.memory.note(place, ending, self.clock.moment());
        if is_for_good(ending) {
            print(self.errors, refusal)?;
        }
        print(self.output, row)
    }

    fn tell_changed(&mut self, user: &[u8], id: u64) {
        if let Ok(place) = RowKey::new(self.alloc, user, id) {
            let _ = print(self.errors, changed_line(self.alloc, &place));
        }
    }

    fn tell_gone(&mut self, user: &[u8], id: u64) {
        if let Ok(place) = RowKey::new(self.alloc, user, id) {
            let _ = print(self.errors, gone_line(self.alloc, &place));
        }
    }

    fn uptime(&mut self) -> u64 {
        self.clock.uptime()
    }

    fn pause(&mut self, milliseconds: u64) {
        self.clock.pause(milliseconds);
    }
}

/// Writes a line, and flushes. One for which there was no memory isn't written.
fn print<W: Write>(output: &mut W, line: Result<Octets, AllocError>) -> Result<(), Unwritten> {
    let Ok(line) = line else {
        return Err(Unwritten);
    };
    if output.write_all(line.as_slice()).is_err() || output.flush().is_err() {
        return Err(Unwritten);
    }
    Ok(())
}
