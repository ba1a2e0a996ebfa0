//! Syncs of directories at paths.
use crate::mail_files::MailFiles;
use std::io::ErrorKind;
use std::{format, io};

/// Syncs the parent directory of a path, if that can be done. One that may not be read is passed over: `make` is refused in it,
/// so others make what it has. One of a file system that syncs no directories is too: no name in it waits for a disk.
pub(crate) fn sync_known_parent<F: MailFiles>(files: &F, path: &str) -> io::Result<()> {
    match sync_parent(files, path) {
        Err(error) => match error.kind() {
            ErrorKind::PermissionDenied | ErrorKind::InvalidInput => Ok(()),
            _ => Err(error),
        },
        synced => synced,
    }
}

/// Syncs the parent directory of a path, whose name is on the disk then. For a link it is the parent of its target.
pub(crate) fn sync_parent<F: MailFiles>(files: &F, path: &str) -> io::Result<()> {
    sync_directory(files, format!(in files.alloc(); "{path}/..")?.as_str())
}

/// Syncs a directory: the names in it are on the disk then.
pub(crate) fn sync_directory<F: MailFiles>(files: &F, path: &str) -> io::Result<()> {
    let mut directory = files.open(path)?;
    files.sync(&mut directory)
}
