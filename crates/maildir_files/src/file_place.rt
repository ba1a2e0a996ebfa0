//! Where the files of a Maildir are.
ghost use Rattle.std.specs.Prelude.{◌≡◌, IfOk};
ghost use Rattle.std.specs.String.{string_bytes};
ghost use Rattle.maildir_files.specs.Known.{path_in};

use std::alloc::{AllocError, Global};
use std::format;

/// The directories of a Maildir that messages are in.
#[derive(Clone, Copy)]
pub(crate) enum Subdirectory {
    /// `new`
    New,
    /// `cur`
    Cur,
}

impl Subdirectory {
    /// Its path, in the Maildir at a path.
    pub(crate) fn path_in(self, alloc: Global, path: &str) -> Result<String, AllocError>
        ensures { IfOk result (λ place. string_bytes place ≡ path_in path.now self) }
    {
        match self {
            Subdirectory::New => format!(in alloc; "{path}/new"),
            Subdirectory::Cur => format!(in alloc; "{path}/cur"),
        }
    }
}

/// A file of a Maildir: in which directory it is, and under which name.
#[derive(Drop)]
pub(crate) struct FilePlace {
    pub(crate) subdirectory: Subdirectory,
    pub(crate) name: String,
}
