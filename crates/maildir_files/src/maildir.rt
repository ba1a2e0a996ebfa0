//! A sink over a Maildir.
ghost use Rattle.std.specs.Prelude.{[], IsOk, OnOk};
ghost use Rattle.std.specs.String.{string_bytes};
ghost use Rattle.maildir_files.specs.Known.{StaysGot, StaysHeld, path_in};
ghost use Rattle.maildir_files.specs.Puts.{IsWaiting, StaysWaiting};

use crate::file_name::{name_of, place_of};
use crate::file_place::FilePlace;
use crate::mail_files::MailFiles;
use crate::new_names::{NewNames, make_directory};
use crate::sink::{MailSink, SinkError};
use crate::sync::{sync_directory, sync_parent};
use crate::synced::SyncedMaildirs;
use crate::system_files::SystemFiles;
use std::io::ErrorKind;
use std::{format, io};

/// Keeps messages in a Maildir, each as a file of `new`, or with system flags of `cur`: one for any program that reads Maildirs.
///
/// A file is written under `tmp`, and is in its place only once all of it is on the disk. A file counts as put only if this value wrote all of
/// it: one that stands in its place from before is replaced. Memory is that of some paths.
///
/// No link is followed at the end of its path and below it: `tmp`, `new` and `cur` are directories of its own, and each is the same one,
/// by its device and number, before a file came to its place and after. A path that ends in `/.` is a directory, whatever led there.
pub type Maildir<'a> = FileSink<SystemFiles<'a>>;

/// Keeps messages in a Maildir of a file system, as [`Maildir`] says.
#[derive(Drop)]
pub struct FileSink<F: MailFiles + Drop> {
    files: F,
    /// The path, if one was opened.
    path: Option<String>,
    cause: Option<ErrorKind>,
    synced: SyncedMaildirs<F::Directory>,
    /// What was put and isn't settled.
    names: Option<NewNames<F::Directory>>,
}

impl<'a> FileSink<SystemFiles<'a>> {
    /// A sink that has no place yet.
    pub fn new(rt: &'a HostRuntime) -> Maildir<'a> {
        FileSink::over(SystemFiles::new(rt))
    }
}

impl<F: MailFiles + Drop> FileSink<F> {
    /// A sink over these files that has no place yet.
    fn over(files: F) -> FileSink<F> {
        let synced = SyncedMaildirs::new(files.alloc());
        FileSink {
            files,
            path: None,
            cause: None,
            synced,
            names: None,
        }
    }
}

impl<F: MailFiles + Drop> MailSink for FileSink<F> {
    ghost use Rattle.std.specs.Prelude.{◌≡◌, false, Some, option_map, string_bytes};
    ghost use Rattle.std.proofs.Common.{rules};
    ghost use Rattle.maildir_files.specs.Puts.{HasPut, KeepsMail};

    ghost tells = { false };

    // Any, since it tells none.
    ghost kept = { λ _. [] };

    ghost unsettled = { λ _. [] };

    ghost told = { Prim.search rules };

    ghost said = { λ sink. sink.cause };

    ghost is_at = { λ sink path. option_map string_bytes sink.path ≡ Some path };

    ghost has_put = { λ sink path mail. HasPut F.got_file sink.files (option_map string_bytes sink.path) sink.names path mail };

    ghost keeps_at = { λ sink path mail. KeepsMail F.keeps_file sink.files path mail };

    /// After Ok the names of the Maildir and of its `tmp`, `new` and `cur` are on the disk, whoever made them: the Maildir and its parent
    /// directory are synced once for as long as these, and they, are the same directories.
    fn open(&mut self, path: &str) -> Result<(), SinkError> {
        self.cause = None;
        match self.synced.settle(&self.files, path) {
            Ok(true) => {
                self.path = Some(String::from_str(self.files.alloc(), path)?);
                self.names = None;
                Ok(())
            }
            Ok(false) => Err(SinkError::NoMaildir),
            Err(error) => Err(refusal_of(&mut self.cause, error)),
        }
    }

    /// After Ok the names of what was made are on the disk.
    fn make(&mut self, path: &str) -> Result<(), SinkError> {
        self.cause = None;
        let made = make_maildir(&self.files, path);
        answer_for(&mut self.cause, made)
    }

    fn make_way(&mut self, path: &str) -> Result<(), SinkError> {
        self.cause = None;
        let made = make_way(&self.files, path);
        answer_for(&mut self.cause, made)
    }

    /// By Dovecot's list in the user's Maildir, under its own lock. A folder that can't be subscribed is made nevertheless.
    fn subscribe(&mut self, home: &str, place: &str) -> Result<(), SinkError> {
        self.cause = None;
        let Some(directory) = directory_in(home, place) else {
            return Ok(());
        };
        match self.files.subscribe(home, directory) {
            Err(error) if error.kind() == ErrorKind::AlreadyExists => {
                Err(refusal_of(&mut self.cause, error))
            }
            _ => Ok(()),
        }
    }

    fn keep(
        &mut self,
        user: &[u8],
        folder: &[u8],
        number: u64,
        message: &[u8],
        flags: &[u8],
    ) -> Result<(), SinkError> {
        self.cause = None;
        let Some(path) = &self.path else {
            return Err(SinkError::NoMaildir);
        };
        let name = name_of(self.files.alloc(), user, folder, number, message)?;
        let place = place_of(self.files.alloc(), name.as_str(), flags)?;
        let kept = keep_at(
            &mut self.files,
            path.as_str(),
            name.as_str(),
            &place,
            message,
        );
        answer_for(&mut self.cause, kept)
    }

    fn put(
        &mut self,
        user: &[u8],
        folder: &[u8],
        number: u64,
        message: &[u8],
        flags: &[u8],
    ) -> Result<(), SinkError> {
        self.cause = None;
        let Some(path) = &self.path else {
            return Err(SinkError::NoMaildir);
        };
        let name = name_of(self.files.alloc(), user, folder, number, message)?;
        let place = place_of(self.files.alloc(), name.as_str(), flags)?;
        let put = put_at(
            &mut self.files,
            &mut self.names,
            path.as_str(),
            name.as_str(),
            &place,
            message,
        );
        answer_for(&mut self.cause, put)
    }

    fn settle(&mut self) -> Result<(), SinkError> {
        self.cause = None;
        let Some(names) = self.names.take() else {
            return Ok(());
        };
        let Some(path) = &self.path else {
            return Err(SinkError::NoMaildir);
        };
        let settled = names.settle(&self.files, path.as_str());
        answer_for(&mut self.cause, settled)
    }

    fn cause(&self) -> Option<ErrorKind> {
        self.cause
    }
}

/// What is answered for an error of the system, `NoMaildir` if something else is where a directory is to be. What is known of it is kept.
fn refusal_of(cause: &mut Option<ErrorKind>, error: io::Error) -> SinkError {
    *cause = Some(error.kind());
    match error.kind() {
        ErrorKind::OutOfMemory => SinkError::Memory,
        ErrorKind::NotADirectory => SinkError::NoMaildir,
        _ => SinkError::Failed,
    }
}

/// What is answered for what came of a call: of an error as `refusal_of` says.
fn answer_for(cause: &mut Option<ErrorKind>, done: io::Result<()>) -> Result<(), SinkError>
    ensures { OnOk result (IsOk done) }
{
    match done {
        Ok(()) => Ok(()),
        Err(error) => Err(refusal_of(cause, error)),
    }
}

/// How the directory of a folder is named behind its first dot; none for INBOX, which is the user's Maildir itself.
fn directory_in<'a>(home: &str, place: &'a str) -> Option<&'a [u8]> {
    let below = place.as_bytes().strip_prefix(home.as_bytes())?;
    let name = below.strip_prefix(b"/.")?;
    (!name.is_empty()).then(|| name)
}

/// Whether a path has these directories below it. A link counts as none.
fn has_parts<F: MailFiles>(files: &F, path: &str, parts: &[&str]) -> io::Result<bool> {
    for part in parts {
        let below = format!(in files.alloc(); "{path}/{part}")?;
        if files.identity_at(below.as_str())?.is_none() {
            return Ok(false);
        }
    }
    Ok(true)
}

/// Makes a directory in which Maildirs are to be. After Ok its name is on the disk.
fn make_way<F: MailFiles>(files: &F, path: &str) -> io::Result<()> {
    make_directory(files, path)?;
    sync_parent(files, path)
}

/// Makes a Maildir, with its directories `tmp`, `new` and `cur`, if they aren't there. After Ok their names are on the disk. Nothing is
/// made beyond a link: one at the end of the path has to lead to a whole Maildir.
fn make_maildir<F: MailFiles>(files: &F, path: &str) -> io::Result<()> {
    let parts = ["tmp", "new", "cur"];
    if !has_parts(files, path, &parts)? {
        make_directory(files, path)?;
        for part in parts {
            make_directory(files, format!(in files.alloc(); "{path}/{part}")?.as_str())?;
        }
    }
    sync_directory(files, path)?;
    sync_parent(files, path)
}

/// Puts a message into a Maildir under a name, at a place in it, beside those that were put since it was settled last.
fn put_at<F: MailFiles>(
    files: &mut F,
    found: &mut Option<NewNames<F::Directory>>,
    path: &str,
    name: &str,
    place: &FilePlace,
    message: &[u8],
) -> io::Result<()>
    ensures put { OnOk result (IsWaiting F.got_file files.new found.new path.now place.now.subdirectory (string_bytes place.now.name) message.now) }
    ensures still_waiting { StaysWaiting F.got_file files.old found.old files.new found.new }
    ensures still_kept { StaysHeld F.keeps_file files.old files.new }
{
    match found {
        Some(names) => names.put(files, path, name, place, message),
        None => {
            let mut names = NewNames::at(files, path)?;
            let put = names.put(files, path, name, place, message);
            *found = Some(names);
            put
        }
    }
}

/// Puts a message into a Maildir under a name, at a place in it. After Ok the file and its name are on the disk; a file that doesn't come
/// to its place isn't left under `tmp` either.
fn keep_at<F: MailFiles>(
    files: &mut F,
    path: &str,
    name: &str,
    place: &FilePlace,
    message: &[u8],
) -> io::Result<()>
    ensures kept { OnOk result (F.keeps_file files.new (path_in path.now place.now.subdirectory) (string_bytes place.now.name) message.now) }
    ensures still_got { StaysGot F.got_file files.old files.new }
    ensures still_kept { StaysHeld F.keeps_file files.old files.new }
{
    let mut names = NewNames::at(files, path)?;
    names.put(files, path, name, place, message)?;
    names.settle(files, path)
}
