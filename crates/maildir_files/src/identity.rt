//! Which directory is at a path.
use crate::mail_files::MailFiles;
use std::fs::Metadata;
use std::io;
use std::io::ErrorKind;
use std::os::unix::fs::MetadataExt;

/// Which directory it is, by its device and its number there.
#[derive(Clone, Copy, PartialEq, Eq)]
pub struct Identity {
    device: u64,
    inode: u64,
}

impl Identity {
    /// Of a directory whose metadata these are.
    pub(crate) fn of(found: &Metadata) -> Identity {
        Identity {
            device: found.dev(),
            inode: found.ino(),
        }
    }

    /// Which directory is at a path that is to have one. If none is, or a link, that is an error.
    pub(crate) fn wanted_at<F: MailFiles>(files: &F, path: &str) -> io::Result<Identity> {
        match files.identity_at(path)? {
            Some(identity) => Ok(identity),
            None => Err(io::Error::from(ErrorKind::NotADirectory)),
        }
    }

    /// Fails if another directory is at a path now, or a link.
    pub(crate) fn expect_at<F: MailFiles>(self, files: &F, path: &str) -> io::Result<()> {
        if Identity::wanted_at(files, path)? == self {
            Ok(())
        } else {
            Err(io::Error::from(ErrorKind::NotADirectory))
        }
    }
}
