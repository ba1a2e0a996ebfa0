//! What the members of an archive are for a user's scripts.
ghost use Rattle.std.specs.Prelude.{◌≡◌, IfOk};
ghost use Rattle.sieve_intake.specs.Names.{script_name_at};
ghost use Rattle.sieve_intake.specs.Sorting.{if_script, leaving_out, no_files, sorted_with, with_taken, with_file_at, with_link_at};

use crate::names::{is_dovecot_sieve, script_name_in};
use octets::{List, Octets};
use std::alloc::{AllocError, Global};
use tar_entries::TarEntry;

/// The largest number of scripts that are taken: that of a user's scripts.
const MAX_TAKEN: usize = 32;

/// The largest number of files that aren't taken whose names are kept: a limit of this project, so that an archive of any size is
/// sorted in bounded memory.
const MAX_LEFT_OUT: usize = 1000;

/// A script of the archive.
#[derive(Drop)]
pub struct TakenScript {
    pub name: Octets,
    /// At most 262,144 octets.
    pub text: Octets,
}

/// Why a file with a script's name isn't taken.
#[derive(Clone, Copy, Debug, PartialEq, Eq)]
pub enum LeftOut {
    /// It has more than 262,144 octets.
    TooLarge,
    /// 32 scripts came before it.
    TooMany,
    /// It is no regular file: another link, a hard link, a directory or a device.
    NoFile,
}

/// A file with a script's name that isn't taken.
#[derive(Drop)]
pub struct LeftOutFile {
    /// The script's name.
    pub name: Octets,
    pub why: LeftOut,
}

/// The files of an archive so far.
#[derive(Drop)]
pub struct SortedFiles {
    /// The scripts, in the archive's order: at most 32.
    pub scripts: List<TakenScript>,
    /// The name of the active script, if there is one.
    pub active: Option<Octets>,
    /// What has a script's name and isn't taken: the first thousand.
    pub left_out: List<LeftOutFile>,
    /// Whether there are more of these.
    pub has_more: bool,
}

impl SortedFiles {
    /// Nothing has come. Takes no memory.
    pub fn new(alloc: Global) -> SortedFiles
        ensures { result ≡ no_files }
    {
        SortedFiles {
            scripts: List::new(alloc),
            active: None,
            left_out: List::new(alloc),
            has_more: false,
        }
    }

    /// A member of the archive came.
    #[tactic(auto, unfolding(crate::specs::Sorting::sorted_with))]
    pub(crate) fn with(self, alloc: Global, entry: TarEntry) -> Result<SortedFiles, AllocError>
        ensures { IfOk result (λ sorted. sorted ≡ sorted_with self entry) }
    {
        match entry {
            TarEntry::File { name: path, text } => self.with_file(alloc, path, text),
            TarEntry::LargeFile {
                name: path,
                size: _,
            } => { self.leave_out_file(alloc, path, LeftOut::TooLarge) }
            TarEntry::Link { name: path, target } => self.with_link(alloc, path, target),
            TarEntry::Other {
                name: path,
                kind: _,
            } => { self.leave_out_file(alloc, path, LeftOut::NoFile) }
        }
    }

    /// A regular file came.
    fn with_file(self, alloc: Global, path: Octets, text: Octets) -> Result<SortedFiles, AllocError>
        ensures { IfOk result (λ sorted. sorted ≡ with_file_at self path text) }
    {
        let Some(name) = script_name_in(path.as_slice()) else {
            return Ok(self);
        };
        let sorted = self.with_script(alloc, name, text)?;
        if !is_dovecot_sieve(path.as_slice()) {
            return Ok(sorted);
        }
        let active = Some(Octets::from_slice(alloc, name)?);
        Ok(SortedFiles { active, ..sorted })
    }

    /// A symbolic link came.
    fn with_link(
        self,
        alloc: Global,
        path: Octets,
        target: Octets,
    ) -> Result<SortedFiles, AllocError>
        ensures { IfOk result (λ sorted. sorted ≡ with_link_at self path target) }
    {
        if !is_dovecot_sieve(path.as_slice()) {
            return self.leave_out_file(alloc, path, LeftOut::NoFile);
        }
        let active = match script_name_in(target.as_slice()) {
            Some(name) => Some(Octets::from_slice(alloc, name)?),
            None => None,
        };
        Ok(SortedFiles { active, ..self })
    }

    /// The text of a script came: it is taken if there is room.
    #[tactic(auto, unfolding(crate::specs::Sorting::with_taken))]
    fn with_script(
        self,
        alloc: Global,
        name: &[u8],
        text: Octets,
    ) -> Result<SortedFiles, AllocError>
        ensures { IfOk result (λ sorted. sorted ≡ with_taken self name.now text) }
    {
        if self.scripts.len() >= MAX_TAKEN {
            return self.leave_out(alloc, name, LeftOut::TooMany);
        }
        let name = Octets::from_slice(alloc, name)?;
        let mut sorted = self;
        sorted.scripts.push(TakenScript { name, text })?;
        Ok(sorted)
    }

    /// Something came that isn't taken: it is told if it has a script's name.
    fn leave_out_file(
        self,
        alloc: Global,
        path: Octets,
        why: LeftOut,
    ) -> Result<SortedFiles, AllocError>
        ensures { IfOk result (λ sorted. sorted ≡ if_script (script_name_at path) self (λ name. leaving_out self name why)) }
    {
        match script_name_in(path.as_slice()) {
            Some(name) => self.leave_out(alloc, name, why),
            None => Ok(self),
        }
    }

    /// A script of this name isn't taken.
    #[tactic(auto, unfolding(crate::specs::Sorting::leaving_out))]
    fn leave_out(self, alloc: Global, name: &[u8], why: LeftOut) -> Result<SortedFiles, AllocError>
        ensures { IfOk result (λ sorted. sorted ≡ leaving_out self name.now why) }
    {
        let mut sorted = self;
        if sorted.left_out.len() >= MAX_LEFT_OUT {
            sorted.has_more = true;
            return Ok(sorted);
        }
        let name = Octets::from_slice(alloc, name)?;
        sorted.left_out.push(LeftOutFile { name, why })?;
        Ok(sorted)
    }
}
