//! The store of accounts.
ghost use Rattle.std.specs.Prelude.{◌≡◌, ◌⊎◌, false, IsTrue, IfOk, IfErr, OnOk, OnErr};
ghost use Rattle.sqlite.specs.Held.{state};
ghost use Rattle.sqlite.specs.State.{HasCleanDisk, Survives};
ghost use Rattle.store_tables.specs.Schema.{no_schema, mail_schema};
ghost use Rattle.store_tables.specs.Connection.{IsSettled, StaysSame, Outlives, has_our_name};
ghost use Rattle.store_accounts.specs.Account.{no_accounts};
ghost use Rattle.store_accounts.specs.Refusals.{IsTransient, IsMemoryBy, IsStoreCause, IsCauseIn, code_in};
ghost use Rattle.store_accounts.specs.Shows.{Presents, ShowsIn, StillShows, OffersNothing, OnlyLeaves, OpensAs, CrashLeavesOpened};
ghost use Rattle.store_tables.specs.Changes.{CrashLeavesTables, MakesAll};
ghost use Rattle.store_versions.specs.Opening.{IsKnown};

use crate::refusal::Refusal;
use sqlite::{Alter, Connection, Error, ErrorCode};
use std::alloc::Global;
use std::marker::Model;
use store_tables::{Change, has_no_tables, is_taken, make_all, make_tables};
use store_versions::{layout_of, open_known};

/// Accounts with their scripts, messages, queue, replies and notices, in an SQL database.
///
/// Each write is one transaction: after a refusal the store stays as it was. No transaction is open
/// between two calls. Dropping the store drops the connection, which leaves the log beside a file; to have all in the one
/// file, `release` the connection and close it.
pub struct Store<S: Alter> {
    pub(crate) conn: Connection<S>,
    pub(crate) alloc: Global,
    pub(crate) cause: Option<ErrorCode>,
}

impl<S: Alter> Model for Store<S> {
    ghost use Rattle.std.specs.Prelude.{◌≡◌, false, None};
    ghost use Rattle.sqlite.specs.Held.{Held, held_code};
    ghost use Rattle.store_accounts.specs.Refusals.{IsStoreCause};

    ghost Value = { Held S };

    ghost coded = { held_code S.code };

    ghost view = { λ s. s.conn };

    ghost invariant = { λ s. (s.conn.in_transaction ≡ false) × (s.conn.step_limit ≡ None) × IsStoreCause s.cause };
}

impl<S: Alter + Drop> Drop for Store<S> {
    fn drop(self) {
        let Store {
            conn: _,
            alloc: _,
            cause: _,
        } = self;
    }
}

impl<S: Alter> Store<S> {
    /// Makes the tables in an empty database.
    ///
    /// `NotOurs` if a table of the database has one of our names, else `Store` if the database isn't empty, or if a transaction is
    /// open on the connection. With a refusal the connection comes back, with its tables as they are.
    pub fn create(
        alloc: Global,
        mut conn: Connection<S>,
    ) -> Result<Store<S>, (Refusal, Connection<S>, Option<ErrorCode>)>
        ensures made { IfOk result (λ store. HasCleanDisk (state S.Store store) → Presents (state S.Store store).now no_accounts) }
        ensures settled { IfOk result (λ store. HasCleanDisk (state S.Store store) → IsSettled (state S.Store store)) }
        ensures left { IfOk result (λ store. OnlyLeaves (λ trees. ShowsIn trees no_accounts) (state S.Store store)) }
        ensures empty { OnOk result (conn.schema ≡ no_schema) }
        ensures taken { conn.in_transaction ≡ false → IsTrue (has_our_name conn.schema) → IfErr result (λ e. e.0 ≡ Refusal.NotOurs) × OnOk result ⊥ }
        ensures not_ours { IfErr result (λ e. e.0 ≡ Refusal.NotOurs → IsTrue (has_our_name conn.schema)) }
        ensures named { IfErr result (λ e. (e.0 ≡ Refusal.NotOurs) ⊎ IsTransient e.0) }
        ensures memory { IfErr result (λ e. IsMemoryBy e.2 e.0) }
        ensures same_if_refused { IfErr result (λ e. HasCleanDisk (state S.Store e.1) → StaysSame (state S.Store conn) (state S.Store e.1)) }
        ensures crash_if_refused { IfErr result (λ e. Outlives (λ trees. ShowsIn trees no_accounts) (state S.Store conn) (state S.Store e.1)) }
    {
        if !conn.is_autocommit() {
            return Err((Refusal::Store, conn, None));
        }
        if is_taken(conn.schema()) {
            return Err((Refusal::NotOurs, conn, None));
        }
        if !has_no_tables(conn.schema()) {
            return Err((Refusal::Store, conn, None));
        }
        conn.set_step_limit(None);
        match make_tables(&mut conn) {
            Ok(()) => Ok(Store {
                conn,
                alloc,
                cause: None,
            }),
            Err(error) => Err((Refusal::from(error), conn, code_of(&error))),
        }
    }

    /// Opens a database that `create` made, of this version or of an earlier one.
    ///
    /// `NotOurs` if its tables are not exactly ours, or have no row of their version. Version 3 stays as it is, and only the table
    /// of the version is read. Version 2, with the index of the copies by their messages or without it, as it was made before
    /// there was one, and version 1 become version 3 in one transaction. It takes time and memory in proportion to all copies; for
    /// version 1 with the copies before the queue, the replies and the notices, to these too. Their copies have no flags. With a
    /// refusal the connection comes back, with its tables as they are.
    pub fn open(
        alloc: Global,
        mut conn: Connection<S>,
    ) -> Result<Store<S>, (Refusal, Connection<S>, Option<ErrorCode>)>
        ensures shown { IfOk result (λ store. StillShows (state S.Store conn) (state S.Store store)) }
        ensures opened { IfOk result (λ store. HasCleanDisk (state S.Store store) → OpensAs (state S.Store conn).now (state S.Store store).now) }
        ensures ours { IfOk result (λ store. HasCleanDisk (state S.Store store) → IsKnown (state S.Store conn).now) }
        ensures settled { IfOk result (λ store. HasCleanDisk (state S.Store store) → IsSettled (state S.Store store)) }
        ensures same { IfOk result (λ store. HasCleanDisk (state S.Store store) → conn.schema ≡ mail_schema
            → StaysSame (state S.Store conn) (state S.Store store)) }
        ensures crash { IfOk result (λ store. Outlives (CrashLeavesOpened (state S.Store conn).now) (state S.Store conn) (state S.Store store)) }
        ensures not_ours { IfErr result (λ e. HasCleanDisk (state S.Store e.1) → e.0 ≡ Refusal.NotOurs → ¬ IsKnown (state S.Store conn).now) }
        ensures not_shown { IfErr result (λ e. HasCleanDisk (state S.Store e.1) → e.0 ≡ Refusal.NotOurs → OffersNothing (state S.Store conn).now) }
        ensures named { IfErr result (λ e. (e.0 ≡ Refusal.NotOurs) ⊎ IsTransient e.0) }
        ensures memory { IfErr result (λ e. IsMemoryBy e.2 e.0) }
        ensures same_if_refused { IfErr result (λ e. HasCleanDisk (state S.Store e.1) → StaysSame (state S.Store conn) (state S.Store e.1)) }
        ensures crash_if_refused { IfErr result (λ e. Outlives (CrashLeavesOpened (state S.Store conn).now) (state S.Store conn) (state S.Store e.1)) }
    {
        if !conn.is_autocommit() {
            return Err((Refusal::Store, conn, None));
        }
        let Some(layout) = layout_of(conn.schema()) else {
            return Err((Refusal::NotOurs, conn, None));
        };
        conn.set_step_limit(None);
        match open_known(&mut conn, layout) {
            Ok(true) => Ok(Store {
                conn,
                alloc,
                cause: None,
            }),
            Ok(false) => Err((Refusal::NotOurs, conn, None)),
            Err(error) => Err((Refusal::from(error), conn, code_of(&error))),
        }
    }

    /// Makes the changes in order, in one transaction: all of them, or none.
    pub(crate) fn apply(&mut self, changes: &[Change<'_>]) -> Result<(), Refusal>
        ensures made { MakesAll changes.now (state S.Store self.old) (state S.Store self.new) result }
        ensures settled { HasCleanDisk (state S.Store self.new) → OnOk result (IsSettled (state S.Store self.new)) }
        ensures same { HasCleanDisk (state S.Store self.new) → OnErr result (StaysSame (state S.Store self.old) (state S.Store self.new)) }
        ensures crash { Survives (state S.Store self.old) (state S.Store self.new) (CrashLeavesTables changes.now (state S.Store self.old)) }
        ensures named { IfErr result IsTransient }
    {
        if let Err(error) = make_all(&mut self.conn, changes) {
            self.cause = cause_of(&error);
            return Err(Refusal::from(error));
        }
        self.cause = None;
        Ok(())
    }

    /// What SQLite said of the last write, if that was refused as `Store`. `None` after any other write, and if SQLite said
    /// nothing of it. A clause says only that it is never lack of memory: contracts see the connection alone.
    pub fn cause(&self) -> Option<ErrorCode>
        ensures { IsStoreCause result }
    {
        self.cause
    }

    /// The connection, with its tables as they are.
    pub fn release(self) -> Connection<S>
        ensures { result ≡ self }
    {
        let Store {
            conn,
            alloc: _,
            cause: _,
        } = self;
        conn
    }
}

/// What SQLite says of a failure that is answered as `Store`; `None` for one that is answered as `Memory`.
fn cause_of(error: &Error) -> Option<ErrorCode>
    ensures { IsCauseIn (code_in error.now) result }
{
    match error {
        Error::SqliteFailure(ErrorCode::OutOfMemory) => None,
        _ => code_of(error),
    }
}

/// What SQLite says of a failure.
pub(crate) fn code_of(error: &Error) -> Option<ErrorCode>
    ensures { result ≡ code_in error.now }
{
    match error {
        Error::SqliteFailure(code) => Some(*code),
        _ => None,
    }
}
