//! The octets of a store's two files.
use sqlite_disk::{Crash, Disk, Files, Fuse, Memory};
use std::alloc::{AllocError, Global};

/// The octets that a device writes as one.
const SECTOR: usize = 512;

/// The octet of what was never written.
const ANY: u8 = 0xa5;

/// Files on a disk in memory, which can be stopped at a call.
pub type CutFiles = Files<Fuse<Memory>>;

/// A store's log and its database file.
#[derive(Drop)]
pub struct Image {
    log: Vec<u8>,
    db: Vec<u8>,
}

impl Image {
    /// Two files without an octet. Takes no memory.
    pub fn empty(alloc: Global) -> Image {
        Image {
            log: Vec::new(alloc),
            db: Vec::new(alloc),
        }
    }

    /// What reads return now: a program that is killed leaves that.
    pub fn seen(alloc: Global, files: &CutFiles) -> Result<Image, AllocError> {
        let log = copy(alloc, files.log.inner().bytes())?;
        let db = copy(alloc, files.db.inner().bytes())?;
        Ok(Image { log, db })
    }

    /// What is left if all is lost that wasn't synced.
    pub fn synced(alloc: Global, files: &mut CutFiles) -> Result<Image, AllocError> {
        files.log.crash();
        files.db.crash();
        Image::seen(alloc, files)
    }

    /// What is left if of what wasn't synced every other sector is lost, the even ones or the odd ones.
    pub fn torn(
        alloc: Global,
        synced: &Image,
        seen: &Image,
        odd: bool,
    ) -> Result<Image, AllocError> {
        let log = torn(alloc, &synced.log, &seen.log, odd)?;
        let db = torn(alloc, &synced.db, &seen.db, odd)?;
        Ok(Image { log, db })
    }

    /// The files, each with how many of its calls are made before it stops.
    pub fn files(
        &self,
        alloc: Global,
        log_calls: u64,
        db_calls: u64,
    ) -> Result<CutFiles, AllocError> {
        let log = laid(alloc, &self.log, log_calls)?;
        let db = laid(alloc, &self.db, db_calls)?;
        Ok(Files { log, db })
    }

    pub fn is_same(&self, other: &Image) -> bool {
        self.log.as_slice() == other.log.as_slice() && self.db.as_slice() == other.db.as_slice()
    }
}

fn copy(alloc: Global, octets: &[u8]) -> Result<Vec<u8>, AllocError> {
    let mut left = Vec::new(alloc);
    left.extend_from_slice(octets)?;
    Ok(left)
}

/// The new octets, with the old ones in every other sector.
fn torn(alloc: Global, old: &[u8], new: &[u8], odd: bool) -> Result<Vec<u8>, AllocError> {
    let mut left = Vec::new(alloc);
    let mut is_lost = odd;
    let mut rest = old;
    for sector in new.chunks(SECTOR) {
        let (was, more) = rest.split_at(rest.len().min(sector.len()));
        if is_lost {
            left.extend_from_slice(was)?;
            add_any(&mut left, sector.len().saturating_sub(was.len()))?;
        } else {
            left.extend_from_slice(sector)?;
        }
        rest = more;
        is_lost = !is_lost;
    }
    Ok(left)
}

fn add_any(left: &mut Vec<u8>, count: usize) -> Result<(), AllocError> {
    for _ in 0..count {
        left.push(ANY)?;
    }
    Ok(())
}

/// A file of these octets, on the disk, of which this many calls are made.
fn laid(alloc: Global, octets: &[u8], calls: u64) -> Result<Fuse<Memory>, AllocError> {
    let mut file = Memory::new(alloc);
    if file.write_at(0, octets).is_err() || file.sync().is_err() {
        return Err(AllocError);
    }
    Ok(Fuse::new(file, calls))
}
