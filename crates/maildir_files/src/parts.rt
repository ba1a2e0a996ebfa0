//! Which directories a Maildir is made of.
use crate::identity::Identity;
use crate::mail_files::MailFiles;
use std::io::ErrorKind;
use std::{format, io};

/// The directories of a Maildir, and the one that it is in.
#[derive(Clone, Copy, PartialEq, Eq)]
pub(crate) struct Parts {
    whole: Identity,
    parent: Identity,
    tmp: Identity,
    new: Identity,
    /// None if there is none yet.
    cur: Option<Identity>,
}

impl Parts {
    /// Those at a path; none if it is no Maildir, which is a directory that has the directories `tmp` and `new`. No link is one, at the end
    /// of the path and below it.
    pub(crate) fn at<F: MailFiles>(files: &F, path: &str) -> io::Result<Option<Parts>> {
        if path.is_empty() {
            return Ok(None);
        }
        let Some(whole) = files.identity_at(path)? else {
            return Ok(None);
        };
        let Some(tmp) = part_at(files, path, "tmp")? else {
            return Ok(None);
        };
        let Some(new) = part_at(files, path, "new")? else {
            return Ok(None);
        };
        let Some(parent) = part_at(files, path, "..")? else {
            return Ok(None);
        };
        Ok(Some(Parts {
            whole,
            parent,
            tmp,
            new,
            cur: part_at(files, path, "cur")?,
        }))
    }

    /// Opens them all. Fails if one of them is another one now.
    pub(crate) fn open_at<F: MailFiles>(
        self,
        files: &F,
        path: &str,
    ) -> io::Result<OpenParts<F::Directory>> {
        let whole = files.open_directory(path, self.whole)?;
        let parent = open_part(files, path, "..", self.parent)?;
        let mut others = Vec::new(files.alloc());
        others.push(open_part(files, path, "tmp", self.tmp)?)?;
        others.push(open_part(files, path, "new", self.new)?)?;
        if let Some(cur) = self.cur {
            others.push(open_part(files, path, "cur", cur)?)?;
        }
        Ok(OpenParts {
            whole,
            parent,
            others,
        })
    }
}

/// The directories of a Maildir, and the one that it is in, each open: while they are, no other directory gets the number of one of them,
/// even if that is removed. At most 5 descriptors.
#[derive(Drop)]
pub(crate) struct OpenParts<D> {
    whole: D,
    parent: D,
    others: Vec<D>,
}

impl<D: Drop> OpenParts<D> {
    /// Syncs the Maildir and its parent: its name and those of its directories are on the disk then. A file system that syncs no
    /// directories may have the parent: no name in it waits for a disk.
    pub(crate) fn sync<F: MailFiles<Directory = D>>(&mut self, files: &F) -> io::Result<()> {
        files.sync_names(&mut self.whole)?;
        match files.sync_names(&mut self.parent) {
            Err(error) if error.kind() == ErrorKind::InvalidInput => Ok(()),
            synced => synced,
        }
    }
}

/// Which directory a part of a Maildir is.
fn part_at<F: MailFiles>(files: &F, path: &str, part: &str) -> io::Result<Option<Identity>> {
    files.identity_at(format!(in files.alloc(); "{path}/{part}")?.as_str())
}

/// Opens a part of a Maildir. Fails if it is another one.
fn open_part<F: MailFiles>(
    files: &F,
    path: &str,
    part: &str,
    identity: Identity,
) -> io::Result<F::Directory> {
    files.open_directory(
        format!(in files.alloc(); "{path}/{part}")?.as_str(),
        identity,
    )
}
