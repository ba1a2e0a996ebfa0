//! Files that came to their places in a Maildir, and whose names are still to be synced.
ghost use Rattle.std.specs.Prelude.{◌≡◌, ◌++◌, ℕ, List, Some, codes, IfOk, OnOk};
ghost use Rattle.std.specs.String.{string_bytes};
ghost use Rattle.maildir_files.specs.Known.{HasGot, IsInTmp, IsOpenAt, LeadToAll, LeadsThere, StayOpen, StaysGot, StaysHeld, StaysLed, StaysOpen, opened_in, path_in};

use crate::file_place::{FilePlace, Subdirectory};
use crate::identity::Identity;
use crate::mail_files::MailFiles;
use crate::sync::sync_directory;
use std::io::ErrorKind;
use std::{format, io};

/// What came to directories of a Maildir since they were synced last. The Maildir, its `tmp` and those that got names are no links, and the
/// same directories before each file and at last. The Maildir's path is told at each call.
#[derive(Drop)]
pub(crate) struct NewNames<D> {
    whole: Identity,
    tmp: Identity,
    /// The directory `new`, if it got names.
    in_new: Option<D>,
    /// The directory `cur`, if it got names.
    in_cur: Option<D>,
}

impl<D: Drop> NewNames<D> {
    /// None yet, in the Maildir at a path.
    pub(crate) fn at<F: MailFiles<Directory = D>>(
        files: &F,
        path: &str,
    ) -> io::Result<NewNames<D>> {
        let tmp = format!(in files.alloc(); "{path}/tmp")?;
        Ok(NewNames {
            whole: Identity::wanted_at(files, path)?,
            tmp: Identity::wanted_at(files, tmp.as_str())?,
            in_new: None,
            in_cur: None,
        })
    }

    /// Puts a message into the Maildir under a name, at a place in it. After Ok the file is on the disk, and its name is behind `settle`; a
    /// file that doesn't come to its place isn't left under `tmp` either.
    pub(crate) fn put<F: MailFiles<Directory = D>>(
        &mut self,
        files: &mut F,
        path: &str,
        name: &str,
        place: &FilePlace,
        message: &[u8],
    ) -> io::Result<()>
        ensures got { OnOk result (HasGot F.got_file files.new path.now self.new place.now.subdirectory (string_bytes place.now.name) message.now) }
        ensures stays_open { StayOpen self.old self.new }
        ensures still_got { StaysGot F.got_file files.old files.new }
        ensures still_kept { StaysHeld F.keeps_file files.old files.new }
    {
        self.expect(files, path)?;
        self.open_in(files, path, place.subdirectory)?;
        let first = format!(in files.alloc(); "{path}/tmp/{name}")?;
        let directory = place.subdirectory.path_in(files.alloc(), path)?;
        put_file(
            files,
            first.as_str(),
            directory.as_str(),
            place.name.as_str(),
            message,
        )
    }

    /// Syncs the directories that got names: what was put is found after a crash. Fails if one of them is another one now.
    pub(crate) fn settle<F: MailFiles<Directory = D>>(
        mut self,
        files: &F,
        path: &str,
    ) -> io::Result<()>
        ensures { OnOk result ((place : _) (name text : List ℕ) → HasGot F.got_file files.now path.now self place name text
            → F.keeps_file files.now (path_in path.now place) name text) }
    {
        self.expect(files, path)?;
        sync_opened(files, &mut self.in_new)?;
        sync_opened(files, &mut self.in_cur)
    }

    /// Opens the directory `new` or `cur` of the Maildir, if it got no name yet.
    fn open_in<F: MailFiles<Directory = D>>(
        &mut self,
        files: &F,
        path: &str,
        place: Subdirectory,
    ) -> io::Result<()>
        requires { LeadToAll F.leads_to files.now path.now self.old }
        ensures there { OnOk result (IsOpenAt F.leads_to files.now (path_in path.now place) (opened_in self.new place)) }
        ensures stays_open { StayOpen self.old self.new }
    {
        match place {
            Subdirectory::New => open_once(files, &mut self.in_new, path, place),
            Subdirectory::Cur => open_once(files, &mut self.in_cur, path, place),
        }
    }

    /// Fails if one of the directories is another one now, or a link.
    fn expect<F: MailFiles<Directory = D>>(&self, files: &F, path: &str) -> io::Result<()>
        ensures { OnOk result (LeadToAll F.leads_to files.now path.now self.now) }
    {
        self.whole.expect_at(files, path)?;
        let tmp = format!(in files.alloc(); "{path}/tmp")?;
        self.tmp.expect_at(files, tmp.as_str())?;
        expect_opened(files, &self.in_new, path, Subdirectory::New)?;
        expect_opened(files, &self.in_cur, path, Subdirectory::Cur)
    }
}

/// Syncs a directory, if it got names.
fn sync_opened<F: MailFiles>(files: &F, opened: &mut Option<F::Directory>) -> io::Result<()>
    ensures { OnOk result ((directory : _) (path name text : List ℕ) → opened.old ≡ Some directory → F.got_file files.now directory path name text
        → F.leads_to files.now path directory → F.keeps_file files.now path name text) }
{
    match opened {
        Some(directory) => files.sync_names(directory),
        None => Ok(()),
    }
}

/// Fails if it got names and is another directory now, or a link.
fn expect_opened<F: MailFiles>(
    files: &F,
    opened: &Option<F::Directory>,
    path: &str,
    place: Subdirectory,
) -> io::Result<()>
    ensures { OnOk result (LeadsThere F.leads_to files.now (path_in path.now place) opened.now) }
{
    let Some(directory) = opened else {
        return Ok(());
    };
    let there = place.path_in(files.alloc(), path)?;
    files.expect_at(directory, there.as_str())
}

/// Opens a directory of a Maildir, if it isn't open.
fn open_once<F: MailFiles>(
    files: &F,
    opened: &mut Option<F::Directory>,
    path: &str,
    place: Subdirectory,
) -> io::Result<()>
    requires { LeadsThere F.leads_to files.now (path_in path.now place) opened.old }
    ensures there { OnOk result (IsOpenAt F.leads_to files.now (path_in path.now place) opened.new) }
    ensures stays_open { StaysOpen opened.old opened.new }
{
    if opened.is_some() {
        return Ok(());
    }
    *opened = Some(open_subdirectory(files, path, place)?);
    Ok(())
}

/// Opens a directory of a Maildir. A link to one is an error. A Maildir may lack `cur` as long as no program has read it: it is made then,
/// and its name is on the disk. The name of one that was there came to the disk as the Maildir was opened.
fn open_subdirectory<F: MailFiles>(
    files: &F,
    path: &str,
    place: Subdirectory,
) -> io::Result<F::Directory>
    ensures { IfOk result (F.leads_to files.now (path_in path.now place)) }
{
    let there = place.path_in(files.alloc(), path)?;
    if matches!(place, Subdirectory::Cur) {
        make_missing(files, path, there.as_str())?;
    }
    let identity = Identity::wanted_at(files, there.as_str())?;
    files.open_directory(there.as_str(), identity)
}

/// Makes a directory in that at a path, if it isn't there; its name is on the disk then.
fn make_missing<F: MailFiles>(files: &F, path: &str, directory: &str) -> io::Result<()> {
    if files.identity_at(directory)?.is_some() {
        return Ok(());
    }
    make_directory(files, directory)?;
    sync_directory(files, path)
}

/// Makes a directory, if it isn't there. A link to one is an error.
pub(crate) fn make_directory<F: MailFiles>(files: &F, path: &str) -> io::Result<()> {
    match files.create_directory(path) {
        Err(error) if error.kind() == ErrorKind::AlreadyExists => {
            Identity::wanted_at(files, path)?;
            Ok(())
        }
        made => made,
    }
}

/// Puts a file into the directory at a path, under a name; one that doesn't come there isn't left at its first path either.
fn put_file<F: MailFiles>(
    files: &mut F,
    first: &str,
    directory: &str,
    name: &str,
    message: &[u8],
) -> io::Result<()>
    requires { IsInTmp first.now }
    ensures got { OnOk result ((place : _) → F.leads_to files.old directory.now place → F.got_file files.new place directory.now name.now message.now) }
    ensures still_got { StaysGot F.got_file files.old files.new }
    ensures still_kept { StaysHeld F.keeps_file files.old files.new }
{
    match write_and_move(files, first, directory, name, message) {
        Ok(()) => Ok(()),
        Err(error) => {
            let _ = files.remove_file(first);
            Err(error)
        }
    }
}

/// Writes a file and gives it its place once all of it is on the disk. A file that has that place is replaced.
fn write_and_move<F: MailFiles>(
    files: &mut F,
    first: &str,
    directory: &str,
    name: &str,
    message: &[u8],
) -> io::Result<()>
    requires { IsInTmp first.now }
    ensures got { OnOk result ((place : _) → F.leads_to files.old directory.now place → F.got_file files.new place directory.now name.now message.now) }
    ensures still_got { StaysGot F.got_file files.old files.new }
    ensures still_kept { StaysHeld F.keeps_file files.old files.new }
{
    let file = write_whole(files, first, message)?;
    files.move_into(&file, first, directory, name)
}

/// A new file of `tmp` that holds the message, on the disk by a sync of its own. What an earlier try left under that path is removed first.
fn write_whole<F: MailFiles>(files: &mut F, path: &str, message: &[u8]) -> io::Result<F::File>
    requires { IsInTmp path.now }
    ensures synced { IfOk result (λ file. F.is_synced files.new file path.now message.now) }
    ensures still_led { StaysLed F.leads_to files.old files.new }
    ensures still_got { StaysGot F.got_file files.old files.new }
    ensures still_kept { StaysHeld F.keeps_file files.old files.new }
{
    let mut file = create_file(files, path)?;
    files.write_all(&mut file, message)?;
    files.sync(&mut file)?;
    Ok(file)
}

/// Creates a file, without what was there under its path.
fn create_file<F: MailFiles>(files: &mut F, path: &str) -> io::Result<F::File>
    requires { IsInTmp path.now }
    ensures made { IfOk result (λ file. F.is_new files.new file path.now) }
    ensures still_led { StaysLed F.leads_to files.old files.new }
    ensures still_got { StaysGot F.got_file files.old files.new }
    ensures still_kept { StaysHeld F.keeps_file files.old files.new }
{
    match files.create_new(path) {
        Err(error) if error.kind() == ErrorKind::AlreadyExists => {
            files.remove_file(path)?;
            files.create_new(path)
        }
        created => created,
    }
}
