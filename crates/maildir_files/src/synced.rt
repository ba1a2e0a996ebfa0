//! Maildirs that are on the disk.
use crate::mail_files::MailFiles;
use crate::parts::{OpenParts, Parts};
use crate::sync::{sync_directory, sync_known_parent};
use std::alloc::{AllocError, Global};
use std::io;

/// How many Maildirs are remembered, each with 5 descriptors at most: a process may often have no more than 1,024.
const MAX_REMEMBERED: usize = 32;

/// A Maildir whose name, and those of its directories, are on the disk for as long as it is made of these.
#[derive(Drop)]
struct SyncedMaildir<D> {
    path: String,
    parts: Parts,
    _open: OpenParts<D>,
}

/// Maildirs that were synced by this process, so that none is synced twice. Others remove, rename and make directories meanwhile, so
/// each is asked again which directories it is made of. The longest unused come first.
#[derive(Drop)]
pub(crate) struct SyncedMaildirs<D> {
    entries: Vec<SyncedMaildir<D>>,
}

impl<D: Drop> SyncedMaildirs<D> {
    /// None. Takes no memory.
    pub(crate) fn new(alloc: Global) -> SyncedMaildirs<D> {
        SyncedMaildirs {
            entries: Vec::new(alloc),
        }
    }

    /// Whether the path is a Maildir. If it is, its name and those of its directories are on the disk, even if the run that made them
    /// was killed, and whatever else came under that path since it was asked last.
    pub(crate) fn settle<F: MailFiles<Directory = D>>(
        &mut self,
        files: &F,
        path: &str,
    ) -> io::Result<bool> {
        let Some(parts) = Parts::at(files, path)? else {
            return Ok(false);
        };
        if !self.recall(path, &parts) {
            self.sync(files, path, parts)?;
        }
        Ok(true)
    }

    /// Whether the Maildir at a path was synced when it was made of these. If it was, it is the one that was used last; if it was made of
    /// others, it is forgotten.
    fn recall(&mut self, path: &str, parts: &Parts) -> bool {
        let found = self
            .entries
            .iter()
            .position(|entry| entry.path.as_str() == path);
        let Some(at) = found else {
            return false;
        };
        let entry = self.entries.remove(at);
        entry.parts == *parts && self.entries.push(entry).is_ok()
    }

    /// Syncs a Maildir, and remembers it, if all of it may be opened.
    fn sync<F: MailFiles<Directory = D>>(
        &mut self,
        files: &F,
        path: &str,
        parts: Parts,
    ) -> io::Result<()> {
        match parts.open_at(files, path) {
            Ok(mut open) => {
                open.sync(files)?;
                // Without memory for it, it is synced again next time.
                let _ = self.remember(files.alloc(), path, parts, open);
                Ok(())
            }
            Err(_) => {
                sync_directory(files, path)?;
                sync_known_parent(files, path)
            }
        }
    }

    /// Remembers a Maildir that is synced. If there are too many, the longest unused is forgotten.
    fn remember(
        &mut self,
        alloc: Global,
        path: &str,
        parts: Parts,
        open: OpenParts<D>,
    ) -> Result<(), AllocError> {
        if self.entries.len() >= MAX_REMEMBERED {
            drop(self.entries.remove(0));
        }
        self.entries.push(SyncedMaildir {
            path: String::from_str(alloc, path)?,
            parts,
            _open: open,
        })?;
        Ok(())
    }
}
