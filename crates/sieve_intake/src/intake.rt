//! An archive of a user's files, as it comes.
ghost use Rattle.std.specs.Prelude.{◌≡◌, ◌++◌, [], ℕ, List, IfErr, IfOk, IsTrue, fold};
ghost use Rattle.tar_entries.specs.Steps.{ends_archive};
ghost use Rattle.sieve_intake.specs.Intakes.{HasTaken, StopsArchive};
ghost use Rattle.sieve_intake.specs.Sorting.{sorted_with};

use crate::sorting::SortedFiles;
use octets::List;
use std::alloc::{AllocError, Global};
use tar_entries::{TarEntry, TarError, TarReader};

/// The largest size of a script in octets.
const MOST_OCTETS: u64 = 262_144;

/// An archive of which some octets have come, and what it has so far for a user's scripts.
#[derive(Drop)]
pub struct Intake {
    pub reader: TarReader,
    pub files: SortedFiles,
}

impl Intake {
    /// Nothing has come. Takes no memory.
    pub fn new(alloc: Global) -> Intake
        ensures { HasTaken [] result }
    {
        Intake {
            reader: TarReader::new(alloc, MOST_OCTETS),
            files: SortedFiles::new(alloc),
        }
    }

    /// The next piece of the archive came.
    ///
    /// Time is linear in the piece. Besides it at most 33 scripts are held, a thousand names of others, and what the reader holds.
    ///
    /// # Errors
    ///
    /// Those of the reader. The archive can't be read on then.
    pub fn take(self, alloc: Global, piece: &[u8]) -> Result<Intake, TarError>
        ensures takes { IfOk result (λ later. (came : List ℕ) → HasTaken came self → HasTaken (came ++ piece.now) later) }
        ensures stops { IfErr result (λ error. (came : List ℕ) → HasTaken came self → StopsArchive (came ++ piece.now) error) }
    {
        let Intake { reader, files } = self;
        let (reader, entries) = reader.take(alloc, piece)?;
        let files = sort_all(alloc, files, entries)?;
        Ok(Intake { reader, files })
    }

    /// Whether the archive has ended.
    pub fn is_whole(&self) -> bool
        ensures { result ≡ ends_archive self.now.reader.stage }
    {
        self.reader.stage.is_end()
    }
}

/// These members came, in order.
fn sort_all(
    alloc: Global,
    files: SortedFiles,
    entries: List<TarEntry>,
) -> Result<SortedFiles, AllocError>
    ensures { IfOk result (λ sorted. sorted ≡ fold sorted_with files entries) }
{
    let mut files = files;
    for entry in entries.into_vec() {
        files = files.with(alloc, entry)?;
    }
    Ok(files)
}
