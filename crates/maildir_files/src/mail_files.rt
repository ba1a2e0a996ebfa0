//! What a Maildir asks of a file system.
ghost use Rattle.std.specs.Prelude.{⊤, ℕ, List, IfOk, OnOk};
ghost use Rattle.maildir_files.specs.Known.{IsInTmp, StaysGot, StaysHeld, StaysLed};

use crate::identity::Identity;
use std::alloc::Global;
use std::io;

/// What a Maildir asks of a file system.
///
/// Its ghosts say what is known of open files and of directories. Each is granted by an Ok of the calls that are named there and by nothing else,
/// so whoever proves one of any file system made these calls, in this order, on the same open file.
pub trait MailFiles {
    /// A file that is open. It is closed where it is dropped.
    type File: Drop;

    /// A directory that is open. While it is, no other directory is taken for it.
    type Directory: Drop;

    /// Holds of a file that was made at the path by the call that opened it, until something is written to it. Only `create_new` grants it. As the
    /// next two it is lost if a file is removed, or moved: another one may be at the path then.
    ghost is_new: { Self → Self.File → List ℕ → Type 0 } = { λ _ _ _. ⊤ };

    /// Holds of a file that was made at the path and got this whole text, both by this open file, until that is synced. Only `write_all` on
    /// a new one grants it.
    ghost is_written: { Self → Self.File → List ℕ → List ℕ → Type 0 } = { λ _ _ _ _. ⊤ };

    /// Holds of a file that is written, and then on the disk by a sync of the same open file: by its first one, as one that failed leaves
    /// nothing known of it. Only `sync` grants it.
    ghost is_synced: { Self → Self.File → List ℕ → List ℕ → Type 0 } = { λ _ _ _ _. ⊤ };

    /// Holds if a look found the open directory at the path, itself and by no link, since a file came to its place last. Only `open_directory` and
    /// `expect_at` grant it.
    ghost leads_to: { Self → List ℕ → Self.Directory → Type 0 } = { λ _ _ _. ⊤ };

    /// Holds of the open directory, its path, and the name and text of a synced file that came to that place while the path led there. Only
    /// `move_into` grants it, and it is lost once the directory is synced.
    ghost got_file: { Self → Self.Directory → List ℕ → List ℕ → List ℕ → Type 0 } = { λ _ _ _ _ _. ⊤ };

    /// Holds of the path of a directory, and the name and text of a file that it got and that a crash doesn't lose: the path led to the same
    /// directory before and after, and that was synced. Only the first `sync_names` after it grants it.
    ghost keeps_file: { Self → List ℕ → List ℕ → List ℕ → Type 0 } = { λ _ _ _ _. ⊤ };

    /// The memory that paths are in.
    fn alloc(&self) -> Global;

    /// Makes a file, where there was none.
    ///
    /// # Errors
    ///
    /// `AlreadyExists` if something is at the path; otherwise why it can't be made.
    fn create_new(&self, path: &str) -> io::Result<Self::File>
        ensures { IfOk result (λ file. is_new self.now file path.now) };

    /// Opens what is at the path. Nobody knows who wrote it, so a sync of it is none of what is in it.
    fn open(&self, path: &str) -> io::Result<Self::File>;

    /// Writes the whole text.
    fn write_all(&self, file: &mut Self::File, text: &[u8]) -> io::Result<()>
        ensures { OnOk result ((path : List ℕ) → is_new self.now file.old path → is_written self.now file.new path text.now) };

    /// Syncs a file: what was written to it is on the disk after Ok. After an error it may never be, whatever a second sync answers.
    fn sync(&self, file: &mut Self::File) -> io::Result<()>
        ensures { OnOk result ((path text : List ℕ) → is_written self.now file.old path text → is_synced self.now file.new path text) };

    /// Moves a file of `tmp` from its path into the directory at a path, under a name without `/`. One of that name is replaced.
    fn move_into(
        &mut self,
        file: &Self::File,
        from: &str,
        directory: &str,
        name: &str,
    ) -> io::Result<()>
        requires { IsInTmp from.now }
        ensures got { OnOk result ((place : Self.Directory) (text : List ℕ) → is_synced self.old file.now from.now text → leads_to self.old directory.now place
            → got_file self.new place directory.now name.now text) }
        ensures still_got { StaysGot got_file self.old self.new }
        ensures still_kept { StaysHeld keeps_file self.old self.new };

    /// Removes the file at a path of `tmp`: of what came to its place none is removed.
    fn remove_file(&mut self, path: &str) -> io::Result<()>
        requires { IsInTmp path.now }
        ensures still_led { StaysLed leads_to self.old self.new }
        ensures still_got { StaysGot got_file self.old self.new }
        ensures still_kept { StaysHeld keeps_file self.old self.new };

    /// Makes a directory, where there was none.
    ///
    /// # Errors
    ///
    /// `AlreadyExists` if something is at the path; otherwise why it can't be made.
    fn create_directory(&self, path: &str) -> io::Result<()>;

    /// Subscribes the folder of a Maildir whose directory is named so behind its first dot, so that clients list it.
    ///
    /// # Errors
    ///
    /// `AlreadyExists` while another program changes the list, or did so less than a minute ago and broke off; otherwise why it can't be
    /// done. The list stays as it was then.
    fn subscribe(&self, home: &str, directory: &[u8]) -> io::Result<()>;

    /// Which directory is at a path; none if none is, or a link to one. Links before the last part of the path are followed.
    fn identity_at(&self, path: &str) -> io::Result<Option<Identity>>;

    /// Opens the directory at a path. Fails if it is another one.
    fn open_directory(&self, path: &str, identity: Identity) -> io::Result<Self::Directory>
        ensures { IfOk result (leads_to self.now path.now) };

    /// Fails if another directory than the open one is at a path, or a link.
    fn expect_at(&self, directory: &Self::Directory, path: &str) -> io::Result<()>
        ensures { OnOk result (leads_to self.now path.now directory.now) };

    /// Syncs a directory: the names in it are on the disk after Ok. After an error they may never be.
    fn sync_names(&self, directory: &mut Self::Directory) -> io::Result<()>
        ensures { OnOk result ((path name text : List ℕ) → got_file self.now directory.old path name text → leads_to self.now path directory.old
            → keeps_file self.now path name text) };
}
