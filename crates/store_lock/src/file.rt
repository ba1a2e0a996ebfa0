//! A keeper over a file.
ghost use Rattle.std.specs.Prelude.{◌≡◌, IfSome};
ghost use Rattle.store_accounts.specs.Refusals.{IsTransient};
ghost use Rattle.store_lock.specs.Closing.{WasAnswered, IsToldOf, IsToldOfClosing, code_at_end};

use crate::cause::{FILE_IS_GONE, LOG_OF_ANOTHER, lock_cause, sqlite_cause, store_file_cause};
use crate::identity::{Identity, Log};
use crate::keeper::{Keeper, StoreUnavailable, release, store_of};
use crate::note::Note;
use sqlite::{Connection, Error, ErrorCode, File as Database, FileStore};
use std::alloc::AllocError;
use std::fs::{File, OpenOptions, TryLockError};
use std::io::ErrorKind;
use std::os::unix::fs::OpenOptionsExt;
use std::{format, io};
use store_accounts::{Refusal, Store};

/// The permissions of a new file: its owner reads and writes it, and no one else does. All users' mail is in it.
const OWNER_ALONE: u32 = 0o600;

/// Keeps the store of one file at a time: takes the lock on `FILE.lock`, opens, and closes.
///
/// The lock is given back when the store is handed back, or when the process ends. While it waits for the lock, it holds the lock on
/// `FILE.wait`. A daemon also holds the lock on `FILE.daemon`, until its process ends. The files `FILE.lock`, `FILE.wait` and
/// `FILE.daemon` stay.
///
/// `FILE.lock` says which file was opened last, and which log it had. That log, if it may have changes, isn't read into another
/// file.
#[derive(Drop)]
pub struct FileKeeper<'a> {
    rt: &'a HostRuntime,
    lock: Option<File>,
    /// The lock that a daemon has for life.
    life: Option<File>,
    /// The file that was opened last.
    opened: Option<Identity>,
    waits: bool,
    cause: Option<&'static str>,
    /// Why the file that was closed last couldn't be closed, until that is asked for.
    unclosed: Option<Refusal>,
}

/// Why no store is given out, and what is known of the cause.
#[derive(Clone, Copy)]
struct Failure {
    denial: StoreUnavailable,
    cause: Option<&'static str>,
}

impl<'a> FileKeeper<'a> {
    /// A keeper that has no store yet, and doesn't wait for one.
    pub fn new(rt: &'a HostRuntime) -> FileKeeper<'a> {
        FileKeeper {
            rt,
            lock: None,
            life: None,
            opened: None,
            waits: false,
            cause: None,
            unclosed: None,
        }
    }

    /// Opens a store whose lock is held, and keeps the cause if it fails.
    fn open(
        &mut self,
        path: &str,
        fresh: bool,
    ) -> Result<Store<FileStore<Database>>, StoreUnavailable>
        ensures kept { self.new.lock ≡ self.old.lock }
        ensures closed { self.new.unclosed ≡ self.old.unclosed }
    {
        match open_file(self.rt, &self.lock, path, fresh) {
            Ok((store, file)) => {
                self.opened = Some(file);
                Ok(store)
            }
            Err(failure) => {
                self.cause = failure.cause;
                Err(failure.denial)
            }
        }
    }

    /// Closes a store, and keeps the cause if that fails.
    fn close(&mut self, store: Store<FileStore<Database>>)
        ensures told { IsToldOfClosing store self.new.unclosed }
        ensures named { IfSome self.new.unclosed IsTransient }
        ensures kept { self.new.lock ≡ self.old.lock }
    {
        let (conn, said) = release(store);
        let closed = close(conn);
        self.cause = first_code(said, &closed).and_then(sqlite_cause);
        self.unclosed = unclosed_of(closed);
    }
}

impl Keeper for FileKeeper<'_> {
    type S = FileStore<Database>;

    ghost use Rattle.std.specs.Prelude.{false, is_some, option_copied};
    ghost use Rattle.store_lock.specs.Memory.{no_database};
    ghost use Rattle.store_lock.specs.Laws.{never_told};

    ghost tells = { false };

    // Any value, since it doesn't tell its tables.
    ghost holds = { λ _. no_database };

    ghost is_out = { λ k. is_some k.lock };

    ghost unclosed = { λ k. k.unclosed };

    ghost will_wait = { λ k. k.waits };

    ghost said = { λ k. option_copied k.cause };

    ghost closes = { λ _ given told. IsToldOfClosing given told };

    fn wait_for_lock(&mut self, waits: bool) {
        self.waits = waits;
    }

    fn lock(&mut self, path: &str) -> Result<(), StoreUnavailable> {
        match lock_file(self.rt, path, self.waits) {
            Ok(lock) => {
                self.lock = Some(lock);
                Ok(())
            }
            Err(failure) => {
                self.cause = failure.cause;
                Err(failure.denial)
            }
        }
    }

    fn is_awaited(&mut self, path: &str) -> bool {
        matches!(
            try_lock_beside(self.rt, path, "wait"),
            Err(Failure {
                denial: StoreUnavailable::Busy,
                cause: _,
            })
        )
    }

    fn lock_for_life(&mut self, path: &str) -> Result<(), StoreUnavailable> {
        match try_lock_beside(self.rt, path, "daemon") {
            Ok(lock) => {
                self.life = Some(lock);
                Ok(())
            }
            Err(failure) => {
                self.cause = failure.cause;
                Err(failure.denial)
            }
        }
    }

    fn unlock(&mut self) {
        self.lock = None;
    }

    fn take(
        &mut self,
        path: &str,
        fresh: bool,
    ) -> Result<Store<FileStore<Database>>, StoreUnavailable> {
        if self.lock.is_some() {
            return self.open(path, fresh);
        }
        self.lock(path)?;
        match self.open(path, fresh) {
            Ok(store) => Ok(store),
            Err(denial) => {
                self.lock = None;
                Err(denial)
            }
        }
    }

    fn is_there(&self, path: &str) -> bool {
        match Identity::at(self.rt, path) {
            Ok(found) => found.is_some() && found == self.opened,
            Err(_) => false,
        }
    }

    fn put_back(&mut self, store: &mut Option<Store<FileStore<Database>>>) {
        if let Some(store) = store.take() {
            self.close(store);
        }
        // The lock is given back last: until the file is closed nobody else may open it.
        self.lock = None;
    }

    fn take_close_error(&mut self) -> Option<Refusal> {
        self.unclosed.take()
    }

    fn cause(&self) -> Option<&'static str> {
        self.cause
    }

    ghost sure = { λ held told. never_told told };
}

/// Closes the file of a connection. No other function says what SQLite answered to that.
fn close(conn: Connection<FileStore<Database>>) -> Result<(), Error>
    ensures { WasAnswered conn result }
{
    conn.close()
}

/// The refusal, if a file couldn't be closed.
fn unclosed_of(closed: Result<(), Error>) -> Option<Refusal>
    ensures told { IsToldOf closed result }
    ensures named { IfSome result IsTransient }
{
    match closed {
        Ok(()) => None,
        Err(error) => Some(Refusal::from(error)),
    }
}

/// What SQLite said of the store's calls, or else of closing it.
fn first_code(said: Option<ErrorCode>, closed: &Result<(), Error>) -> Option<ErrorCode>
    ensures { result ≡ code_at_end said closed.now }
{
    match (said, closed) {
        (Some(code), _) => Some(code),
        (None, Err(Error::SqliteFailure(code))) => Some(*code),
        _ => None,
    }
}

/// Takes the lock on `FILE.lock`, which is held until the file is dropped. While it waits, it holds the lock on `FILE.wait`,
/// so whoever has the store can see that somebody waits, and those who wait come one after the other.
fn lock_file(rt: &HostRuntime, path: &str, waits: bool) -> Result<File, Failure> {
    if !waits {
        return try_lock_beside(rt, path, "lock");
    }
    let turn = lock_beside(rt, path, "wait")?;
    let lock = lock_beside(rt, path, "lock")?;
    drop(turn);
    Ok(lock)
}

/// Takes the lock on a file beside the store; `Busy` if another process has it.
fn try_lock_beside(rt: &HostRuntime, path: &str, ending: &str) -> Result<File, Failure> {
    let file = open_beside(rt, path, ending)?;
    match file.try_lock() {
        Ok(()) => Ok(file),
        Err(TryLockError::WouldBlock) => Err(Failure {
            denial: StoreUnavailable::Busy,
            cause: None,
        }),
        Err(TryLockError::Error(error)) => Err(lock_failure(error)),
    }
}

/// Takes the lock on a file beside the store, and waits for it if another process has it.
fn lock_beside(rt: &HostRuntime, path: &str, ending: &str) -> Result<File, Failure> {
    let file = open_beside(rt, path, ending)?;
    match file.lock() {
        Ok(()) => Ok(file),
        Err(error) => Err(lock_failure(error)),
    }
}

/// Opens the file beside the store with this ending, and makes it if it is absent.
fn open_beside(rt: &HostRuntime, path: &str, ending: &str) -> Result<File, Failure> {
    let Ok(name) = format!(in rt.alloc(); "{path}.{ending}") else {
        return Err(Failure::from(Refusal::Memory));
    };
    let opened = OpenOptions::new()
        .read(true)
        .write(true)
        .create(true)
        .mode(OWNER_ALONE)
        .open(rt, name.as_str());
    opened.map_err(lock_failure)
}

/// The failure if the system can't open or lock a lock's file.
fn lock_failure(error: io::Error) -> Failure {
    Failure {
        denial: StoreUnavailable::Refused(Refusal::Store),
        cause: Some(lock_cause(error.kind())),
    }
}

/// Opens the store of a file whose lock is held, and returns which file it is. Only a new store makes the file if it is absent.
/// SQLite gives its log the permissions of the database's file.
fn open_file(
    rt: &HostRuntime,
    lock: &Option<File>,
    path: &str,
    fresh: bool,
) -> Result<(Store<FileStore<Database>>, Identity), Failure> {
    if fresh {
        make_file(rt, path)?;
    }
    let file = find_file(rt, path)?;
    look_at_log(rt, lock, path, file)?;
    let conn = Connection::open(rt, path).map_err(open_failure)?;
    if let Err(failure) = settle_file(rt, lock, path, file) {
        let _ = conn.close();
        return Err(failure);
    }
    match store_of(rt.alloc(), conn, fresh) {
        Ok(store) => Ok((store, file)),
        Err((refusal, conn, code)) => {
            let _ = conn.close();
            Err(Failure {
                denial: StoreUnavailable::Refused(refusal),
                cause: code.and_then(sqlite_cause),
            })
        }
    }
}

/// Which file a path leads to. It is no store if the file isn't there.
fn find_file(rt: &HostRuntime, path: &str) -> Result<Identity, Failure> {
    match Identity::at(rt, path) {
        Ok(Some(file)) => Ok(file),
        Ok(None) => Err(Failure::from(Refusal::NotOurs)),
        Err(error) => Err(file_failure(error)),
    }
}

/// Checks, before a file is opened, that the log beside it isn't that of another file.
fn look_at_log(
    rt: &HostRuntime,
    lock: &Option<File>,
    path: &str,
    file: Identity,
) -> Result<(), Failure> {
    let (Some(lock), Some(log)) = (lock, Log::beside(rt, path).map_err(file_failure)?) else {
        return Ok(());
    };
    let Some(noted) = Note::read(lock).map_err(lock_failure)? else {
        return Ok(());
    };
    if log.is_full && note_of(rt, file, log, lock)?.has_log_of(&noted) {
        return Err(refused_for(LOG_OF_ANOTHER));
    }
    Ok(())
}

/// After the open: checks that the path still leads to the file, and notes, before anything is written, that it was opened, with its log.
fn settle_file(
    rt: &HostRuntime,
    lock: &Option<File>,
    path: &str,
    file: Identity,
) -> Result<(), Failure> {
    if Identity::at(rt, path).map_err(file_failure)? != Some(file) {
        return Err(refused_for(FILE_IS_GONE));
    }
    let (Some(lock), Some(log)) = (lock, Log::beside(rt, path).map_err(file_failure)?) else {
        return Ok(());
    };
    let note = note_of(rt, file, log, lock)?;
    note_file(lock, note)
}

/// The note on a file and its log.
fn note_of(rt: &HostRuntime, file: Identity, log: Log, lock: &File) -> Result<Note, Failure> {
    let found = lock.metadata().map_err(lock_failure)?;
    let note = Note::of(rt.alloc(), file, log.identity, Identity::of(&found))?;
    Ok(note)
}

/// Writes the note, unless it is there already. If there was none, and there is no room for one, the store is opened without it.
fn note_file(lock: &File, note: Note) -> Result<(), Failure> {
    let noted = Note::read(lock).map_err(lock_failure)?;
    if noted == Some(note) {
        return Ok(());
    }
    match note.write(lock) {
        Err(error) if noted.is_some() => Err(lock_failure(error)),
        _ => Ok(()),
    }
}

/// Makes an empty file for a new store, before it has anything that others may not read. A file that is there stays as it
/// is: SQLite decides whether it can make a store in it.
fn make_file(rt: &HostRuntime, path: &str) -> Result<(), Failure> {
    let made = OpenOptions::new()
        .write(true)
        .create_new(true)
        .mode(OWNER_ALONE)
        .open(rt, path);
    match made {
        Ok(_) => Ok(()),
        Err(error) if error.kind() == ErrorKind::AlreadyExists => Ok(()),
        Err(error) => Err(Failure {
            denial: StoreUnavailable::Refused(Refusal::Store),
            cause: store_file_cause(error.kind()),
        }),
    }
}

/// The failure if SQLite can't open a file.
fn open_failure(error: Error) -> Failure {
    let denial = match error {
        Error::SqliteFailure(ErrorCode::DatabaseBusy) => StoreUnavailable::Busy,
        Error::SqliteFailure(ErrorCode::NotADatabase) => StoreUnavailable::Refused(
            Refusal::NotOurs,
        ),
        _ => StoreUnavailable::Refused(Refusal::from(error)),
    };
    let cause = match error {
        Error::SqliteFailure(code) => sqlite_cause(code),
        _ => None,
    };
    Failure { denial, cause }
}

impl From<Refusal> for Failure {
    fn from(refusal: Refusal) -> Failure {
        Failure {
            denial: StoreUnavailable::Refused(refusal),
            cause: None,
        }
    }
}

impl From<AllocError> for Failure {
    fn from(_: AllocError) -> Failure {
        Failure::from(Refusal::Memory)
    }
}

/// A store that isn't opened, for this cause.
fn refused_for(cause: &'static str) -> Failure {
    Failure {
        denial: StoreUnavailable::Refused(Refusal::Store),
        cause: Some(cause),
    }
}

/// The failure if the system can't look at a file, or if there is no memory for its name.
fn file_failure(error: io::Error) -> Failure {
    if error.kind() == ErrorKind::OutOfMemory {
        return Failure::from(Refusal::Memory);
    }
    Failure {
        denial: StoreUnavailable::Refused(Refusal::Store),
        cause: store_file_cause(error.kind()),
    }
}
