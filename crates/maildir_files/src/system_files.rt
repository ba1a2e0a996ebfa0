//! The files of the host.
use crate::identity::Identity;
use crate::mail_files::MailFiles;
use crate::subscriptions::with_folder;
use octets::Octets;
use std::alloc::Global;
use std::fs::File;
use std::io::{ErrorKind, Write};
use std::time::SystemTime;
use std::{format, fs, io};

/// The files of the host. It tells nothing of them: what its calls do is the system's.
#[derive(Drop)]
pub struct SystemFiles<'a> {
    rt: &'a HostRuntime,
}

/// A directory that is open, and which one it is.
#[derive(Drop)]
pub struct OpenDirectory {
    identity: Identity,
    file: File,
}

impl<'a> SystemFiles<'a> {
    /// Those of the host that this is.
    pub(crate) fn new(rt: &'a HostRuntime) -> SystemFiles<'a> {
        SystemFiles { rt }
    }
}

impl MailFiles for SystemFiles<'_> {
    type File = File;

    type Directory = OpenDirectory;

    fn alloc(&self) -> Global {
        self.rt.alloc()
    }

    fn create_new(&self, path: &str) -> io::Result<File> {
        File::create_new(self.rt, path)
    }

    fn open(&self, path: &str) -> io::Result<File> {
        File::open(self.rt, path)
    }

    fn write_all(&self, file: &mut File, text: &[u8]) -> io::Result<()> {
        file.write_all(text)
    }

    fn sync(&self, file: &mut File) -> io::Result<()> {
        file.sync_all()
    }

    fn move_into(
        &mut self,
        _file: &File,
        from: &str,
        directory: &str,
        name: &str,
    ) -> io::Result<()> {
        let to = format!(in self.rt.alloc(); "{directory}/{name}")?;
        fs::rename(self.rt, from, to.as_str())
    }

    fn remove_file(&mut self, path: &str) -> io::Result<()> {
        fs::remove_file(self.rt, path)
    }

    fn create_directory(&self, path: &str) -> io::Result<()> {
        fs::create_dir(self.rt, path)
    }

    fn subscribe(&self, home: &str, directory: &[u8]) -> io::Result<()> {
        let list = format!(in self.rt.alloc(); "{home}/subscriptions")?;
        let lock = format!(in self.rt.alloc(); "{home}/subscriptions.lock")?;
        remove_left(self.rt, lock.as_str())?;
        let mut file = File::create_new(self.rt, lock.as_str())?;
        match write_list(self.rt, &mut file, list.as_str(), directory) {
            Ok(true) => fs::rename(self.rt, lock.as_str(), list.as_str()),
            Ok(false) => fs::remove_file(self.rt, lock.as_str()),
            Err(error) => {
                let _ = fs::remove_file(self.rt, lock.as_str());
                Err(error)
            }
        }
    }

    fn identity_at(&self, path: &str) -> io::Result<Option<Identity>> {
        match fs::symlink_metadata(self.rt, path) {
            Ok(found) => Ok(found.is_dir().then(|| Identity::of(&found))),
            Err(error) => match error.kind() {
                ErrorKind::NotFound
                | ErrorKind::NotADirectory
                | ErrorKind::InvalidFilename
                | ErrorKind::InvalidInput => Ok(None),
                _ => Err(error),
            },
        }
    }

    fn open_directory(&self, path: &str, identity: Identity) -> io::Result<OpenDirectory> {
        let file = File::open(self.rt, path)?;
        if Identity::of(&file.metadata()?) == identity {
            Ok(OpenDirectory { identity, file })
        } else {
            Err(io::Error::from(ErrorKind::NotADirectory))
        }
    }

    fn expect_at(&self, directory: &OpenDirectory, path: &str) -> io::Result<()> {
        if self.identity_at(path)? == Some(directory.identity) {
            Ok(())
        } else {
            Err(io::Error::from(ErrorKind::NotADirectory))
        }
    }

    fn sync_names(&self, directory: &mut OpenDirectory) -> io::Result<()> {
        directory.file.sync_all()
    }
}

/// The most octets of a list of subscriptions that is read: users make it as long as they like.
const MAX_LIST: u64 = 1 << 20;

/// After so many seconds a lock was left by a program that broke off: Dovecot's own bound for this file.
const LEFT: u64 = 60;

/// Removes a lock that was left.
fn remove_left(rt: &HostRuntime, lock: &str) -> io::Result<()> {
    let found = match fs::symlink_metadata(rt, lock) {
        Ok(found) => found,
        Err(error) if error.kind() == ErrorKind::NotFound => return Ok(()),
        Err(error) => return Err(error),
    };
    let age = SystemTime::now(rt)?.duration_since(found.modified()?);
    match age {
        Ok(age) if age.as_secs() >= LEFT => fs::remove_file(rt, lock),
        _ => Ok(()),
    }
}

/// Writes the list with one more folder; false if that is in it already.
fn write_list(rt: &HostRuntime, file: &mut File, list: &str, directory: &[u8]) -> io::Result<bool> {
    let text = read_list(rt, list)?;
    match with_folder(rt.alloc(), text.as_slice(), directory)? {
        Some(made) => {
            file.write_all(made.as_slice())?;
            file.sync_all()?;
            Ok(true)
        }
        None => Ok(false),
    }
}

/// The list as it is; empty if there is none. A link is none of Dovecot's, and isn't followed.
fn read_list(rt: &HostRuntime, list: &str) -> io::Result<Octets> {
    match fs::symlink_metadata(rt, list) {
        Ok(found) if found.is_file() && found.len() <= MAX_LIST => {
            Ok(Octets::from_vec(fs::read(rt, list)?))
        }
        Ok(_) => Err(io::Error::from(ErrorKind::InvalidData)),
        Err(error) if error.kind() == ErrorKind::NotFound => Ok(Octets::new(rt.alloc())),
        Err(error) => Err(error),
    }
}
