//! The contents of a store's lock file: which file was opened last, and which log it had.
use crate::identity::Identity;
use std::alloc::{AllocError, Global};
use std::fs::File;
use std::io::ErrorKind;
use std::os::unix::fs::FileExt;
use std::{format, io};

/// The length of a line: two numbers of 20 digits, with a blank between them, and a line end.
const LINE: usize = 42;

/// A file, its log, and the lock file in which these are noted, a line each. In a copy of the lock file it says nothing.
#[derive(Clone, Copy, PartialEq, Eq)]
pub(crate) struct Note {
    file: [u8; LINE],
    log: [u8; LINE],
    lock: [u8; LINE],
}

impl Note {
    /// The note on a file and its log, under a lock.
    pub(crate) fn of(
        alloc: Global,
        file: Identity,
        log: Identity,
        lock: Identity,
    ) -> Result<Note, AllocError> {
        Ok(Note {
            file: line_of(alloc, file)?,
            log: line_of(alloc, log)?,
            lock: line_of(alloc, lock)?,
        })
    }

    /// The note in a lock file; `None` if the file is empty or shorter.
    pub(crate) fn read(lock: &File) -> io::Result<Option<Note>> {
        let mut note = Note {
            file: [0; LINE],
            log: [0; LINE],
            lock: [0; LINE],
        };
        match read_lines(lock, &mut note) {
            Ok(()) => Ok(Some(note)),
            Err(error) if error.kind() == ErrorKind::UnexpectedEof => Ok(None),
            Err(error) => Err(error),
        }
    }

    /// Writes the note over the one that is there. After Ok it is on the disk.
    pub(crate) fn write(&self, lock: &File) -> io::Result<()> {
        lock.write_all_at(&self.file, 0)?;
        lock.write_all_at(&self.log, LINE as u64)?;
        lock.write_all_at(&self.lock, 2 * LINE as u64)?;
        lock.sync_data()
    }

    /// Whether the other note has the same log, and another file, under the same lock.
    pub(crate) fn has_log_of(&self, other: &Note) -> bool {
        self.lock == other.lock && self.log == other.log && self.file != other.file
    }
}

fn read_lines(lock: &File, note: &mut Note) -> io::Result<()> {
    lock.read_exact_at(&mut note.file, 0)?;
    lock.read_exact_at(&mut note.log, LINE as u64)?;
    lock.read_exact_at(&mut note.lock, 2 * LINE as u64)
}

/// The line of a file.
fn line_of(alloc: Global, identity: Identity) -> Result<[u8; LINE], AllocError> {
    let text = format!(in alloc; "{:020} {:020}\n", identity.device, identity.inode)?;
    let mut line = [0; LINE];
    for (place, octet) in line.iter_mut().zip(text.as_bytes()) {
        *place = *octet;
    }
    Ok(line)
}
