//! The files of a run of `send` beside the store: `FILE.send`, its lock, and `FILE.send.waits`, what is known of rows that wait.
use cli_run::fault::RunFault;
use cli_run::fault_with_cause::FaultWithCause;
use octets::Octets;
use smtp_queue::{RowWaits, write_waits};
use std::alloc::AllocError;
use std::fs::{File, OpenOptions, TryLockError};
use std::io::Write;
use std::os::unix::fs::OpenOptionsExt;
use std::{format, fs, io};
use store_accounts::Refusal;
use store_lock::cause::file_cause;

/// The permissions of these files: only their owner may read and write them.
const OWNER_ALONE: u32 = 0o600;

/// Takes the lock of a run, which is held until the file is dropped.
///
/// # Errors
///
/// `Busy` if another run has it; else why it can't be taken.
pub fn lock_run(rt: &HostRuntime, path: &str) -> Result<File, FaultWithCause> {
    let file = open_to_write(rt, path, "send", false)?;
    match file.try_lock() {
        Ok(()) => Ok(file),
        Err(TryLockError::WouldBlock) => Err(FaultWithCause::from(RunFault::Busy)),
        Err(TryLockError::Error(error)) => Err(fault_of_file(&error)),
    }
}

/// What the last run knew of rows that wait: empty if there is no such file, or if it can't be read. Lack of memory is the
/// only error.
pub fn read_run(rt: &HostRuntime, path: &str) -> Result<Octets, AllocError> {
    let alloc = rt.alloc();
    let name = format!(in alloc; "{path}.send.waits")?;
    match fs::read(rt, name.as_str()) {
        Ok(octets) => Ok(Octets::from_vec(octets)),
        Err(_) => Ok(Octets::new(alloc)),
    }
}

/// Writes what is known of rows that wait. If that fails, the next run knows what the last one knew.
pub fn write_run(rt: &HostRuntime, path: &str, waits: &RowWaits, now: u64) {
    let Ok(text) = write_waits(rt.alloc(), waits, now) else {
        return;
    };
    let _ = replace(rt, path, &text);
}

/// Replaces the file with a new one, by a rename.
fn replace(rt: &HostRuntime, path: &str, text: &Octets) -> Result<(), FaultWithCause> {
    let mut file = open_to_write(rt, path, "send.waits.new", true)?;
    if let Err(error) = file.write_all(text.as_slice()) {
        return Err(fault_of_file(&error));
    }
    drop(file);
    let new = name_of(rt, path, "send.waits.new")?;
    let name = name_of(rt, path, "send.waits")?;
    match fs::rename(rt, new.as_str(), name.as_str()) {
        Ok(()) => Ok(()),
        Err(error) => Err(fault_of_file(&error)),
    }
}

/// Opens the file beside the store with this ending, and makes it if it is absent.
fn open_to_write(
    rt: &HostRuntime,
    path: &str,
    ending: &str,
    empties: bool,
) -> Result<File, FaultWithCause> {
    let name = name_of(rt, path, ending)?;
    let opened = OpenOptions::new()
        .write(true)
        .create(true)
        .truncate(empties)
        .mode(OWNER_ALONE)
        .open(rt, name.as_str());
    match opened {
        Ok(file) => Ok(file),
        Err(error) => Err(fault_of_file(&error)),
    }
}

fn name_of(rt: &HostRuntime, path: &str, ending: &str) -> Result<String, AllocError> {
    Ok(format!(in rt.alloc(); "{path}.{ending}")?)
}

/// The fault of a file, with its cause.
fn fault_of_file(error: &io::Error) -> FaultWithCause {
    FaultWithCause {
        fault: RunFault::Refused(Refusal::Store),
        cause: file_cause(error.kind()),
    }
}
