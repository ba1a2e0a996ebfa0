//! Which file a path leads to, and which log it has.
use std::io::ErrorKind;
use std::os::unix::fs::MetadataExt;
use std::{format, fs, io};

/// A log of at most this many octets has no complete row of changes: one octet less than its header of 32, a page's header of 24
/// and the smallest page of 512.
const EMPTY_LOG: u64 = 567;

/// A file's identity: its device and its number there.
#[derive(Clone, Copy, Debug, PartialEq, Eq)]
pub(crate) struct Identity {
    pub device: u64,
    pub inode: u64,
}

impl Identity {
    /// Of the file that a path leads to; `None` if there is none. Links are followed, as an open does.
    pub(crate) fn at(rt: &HostRuntime, path: &str) -> io::Result<Option<Identity>> {
        match fs::metadata(rt, path) {
            Ok(found) => Ok(Some(Identity::of(&found))),
            Err(error) if error.kind() == ErrorKind::NotFound => Ok(None),
            Err(error) => Err(error),
        }
    }

    /// Of the file with this metadata.
    pub(crate) fn of(found: &fs::Metadata) -> Identity {
        Identity {
            device: found.dev(),
            inode: found.ino(),
        }
    }
}

/// The log beside a store's file.
#[derive(Clone, Copy, Debug, PartialEq, Eq)]
pub(crate) struct Log {
    pub identity: Identity,
    /// The log may have changes that aren't in the file.
    pub is_full: bool,
}

impl Log {
    /// Of the file that a path leads to; `None` if there is none. It is beside the file that a link leads to.
    pub(crate) fn beside(rt: &HostRuntime, path: &str) -> io::Result<Option<Log>> {
        let real = fs::canonicalize(rt, path)?;
        match fs::metadata(
            rt,
            format!(in rt.alloc(); "{}-wal", real.as_str())?.as_str(),
        ) {
            Ok(found) => Ok(Some(Log {
                identity: Identity::of(&found),
                is_full: found.len() > EMPTY_LOG,
            })),
            Err(error) if error.kind() == ErrorKind::NotFound => Ok(None),
            Err(error) => Err(error),
        }
    }
}
