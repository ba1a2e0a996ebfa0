//! The causes that the system and SQLite give for a failure, as texts for a person.
ghost use Rattle.std.specs.Prelude.{◌≡◌, option_copied};
ghost use Rattle.store_lock.specs.Causes.{file_text};

use sqlite::ErrorCode;
use std::io::ErrorKind;

/// A full disk, and how to make room.
const NO_ROOM: &str = "disk is full: remove the reserve file beside the store";

/// A file that isn't the one that was opened at its path any more.
pub const FILE_IS_GONE: &str = "file was removed or replaced";

/// A log of the database file that this one replaced.
pub(crate) const LOG_OF_ANOTHER: &str =
    "log is that of a file that was replaced: move FILE-wal away";

/// The cause if a file can't be opened, written or renamed; `None` if nothing more is known.
pub fn file_cause(kind: ErrorKind) -> Option<&'static str>
    ensures { option_copied result ≡ file_text kind }
{
    match kind {
        ErrorKind::NotFound => Some("no such directory"),
        ErrorKind::PermissionDenied => Some("permission denied"),
        ErrorKind::ReadOnlyFilesystem => Some("file system is read-only"),
        ErrorKind::StorageFull => Some("disk is full"),
        ErrorKind::QuotaExceeded => Some("disk quota is used up"),
        ErrorKind::FileTooLarge => Some("file would be too large"),
        _ => None,
    }
}

/// The cause if a port, or the file of a socket, can't be listened on; `None` if nothing more is known.
pub fn socket_cause(kind: ErrorKind) -> Option<&'static str> {
    match kind {
        ErrorKind::AddrInUse => Some("port is taken"),
        ErrorKind::PermissionDenied => Some("permission denied"),
        _ => None,
    }
}

/// The cause if a lock's file can't be opened or locked.
pub(crate) fn lock_cause(kind: ErrorKind) -> &'static str {
    store_file_cause(kind).unwrap_or("lock file can't be used")
}

/// The cause if a file of the store, or beside it, can't be made, opened or locked; `None` if nothing more is known.
pub(crate) fn store_file_cause(kind: ErrorKind) -> Option<&'static str> {
    match kind {
        ErrorKind::StorageFull => Some(NO_ROOM),
        _ => file_cause(kind),
    }
}

/// The cause if SQLite refused a call; `None` if its code says no more.
pub fn sqlite_cause(code: ErrorCode) -> Option<&'static str> {
    match code {
        ErrorCode::CannotOpen => Some("file can't be opened"),
        ErrorCode::SystemIoFailure => Some("disk can't be read or written"),
        ErrorCode::DiskFull => Some(NO_ROOM),
        ErrorCode::DatabaseCorrupt => Some("database is damaged"),
        ErrorCode::TooBig => Some("database or value is too large"),
        ErrorCode::Closed => Some("an earlier failure closed the database"),
        _ => None,
    }
}
