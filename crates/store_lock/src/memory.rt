//! A keeper over memory, for tests.
ghost use Rattle.std.specs.Prelude.{◌≡◌};
ghost use Rattle.store_lock.specs.Memory.{told_of_close, left_after};

use crate::keeper::{Keeper, StoreUnavailable, store_of};
use sqlite::{Connection, MemStore};
use std::alloc::{AllocError, Global};
use store_accounts::{Refusal, Store};

/// Keeps one store in memory, whatever path it is asked for, answers Busy to one chosen call for the lock, and fails to close
/// at another one. It never waits, whether or not it is asked to.
#[derive(Drop)]
pub struct MemoryKeeper {
    conn: Option<Connection<MemStore>>,
    alloc: Global,
    /// Whether the lock is out, alone or with the store.
    locked: bool,
    /// Whether a lock is to be waited for.
    waits: bool,
    /// The number of calls for the lock before the one that is answered Busy.
    busy_after: Option<u64>,
    /// The number of stores that are handed back before the one that can't be closed.
    unclosed_after: Option<u64>,
    /// Why the store that was handed back last couldn't be closed, until that is asked for.
    unclosed: Option<Refusal>,
}

impl MemoryKeeper {
    /// A keeper of a database without tables.
    pub fn new(alloc: Global) -> Result<MemoryKeeper, AllocError> {
        Ok(MemoryKeeper::over(alloc, Connection::open_in_memory(alloc)?))
    }

    /// A keeper of a connection's database.
    pub fn over(alloc: Global, conn: Connection<MemStore>) -> MemoryKeeper {
        MemoryKeeper {
            conn: Some(conn),
            alloc,
            locked: false,
            waits: false,
            busy_after: None,
            unclosed_after: None,
            unclosed: None,
        }
    }

    /// Of the calls for the lock (`lock`, and `take` if the lock isn't out), the one after that many others is answered Busy.
    pub fn be_busy_after(&mut self, calls: u64) {
        self.busy_after = Some(calls);
    }

    /// The store that is handed back after that many others can't be closed. What was committed stays.
    pub fn fail_close_after(&mut self, calls: u64) {
        self.unclosed_after = Some(calls);
    }

    /// Counts a call for the lock, and returns whether it is the one that is answered Busy.
    fn is_chosen(&mut self) -> bool
        ensures conn { self.new.conn ≡ self.old.conn }
        ensures locked { self.new.locked ≡ self.old.locked }
        ensures unclosed { self.new.unclosed ≡ self.old.unclosed }
    {
        let calls = self.busy_after;
        self.busy_after = calls.and_then(|calls| calls.checked_sub(1));
        calls == Some(0)
    }

    /// Counts a store that is handed back, and notes whether it couldn't be closed.
    fn note_close(&mut self)
        ensures told { self.new.unclosed ≡ told_of_close self.old.unclosed_after }
        ensures counted { self.new.unclosed_after ≡ left_after self.old.unclosed_after }
        ensures conn { self.new.conn ≡ self.old.conn }
        ensures locked { self.new.locked ≡ self.old.locked }
    {
        self.unclosed = None;
        let Some(calls) = self.unclosed_after else {
            return;
        };
        self.unclosed_after = calls.checked_sub(1);
        if calls == 0 {
            self.unclosed = Some(Refusal::Store);
        }
    }
}

impl Keeper for MemoryKeeper {
    type S = MemStore;

    ghost use Rattle.std.specs.Prelude.{true, None, refl};
    ghost use Rattle.sqlite.proofs.Callers.{memory_is_clean};
    ghost use Rattle.store_lock.specs.Memory.{database_in};

    ghost tells = { true };

    ghost holds = { λ k. database_in k.conn };

    ghost is_out = { λ k. k.locked };

    ghost unclosed = { λ k. k.unclosed };

    ghost will_wait = { λ k. k.waits };

    ghost said = { λ _. None };

    ghost closes = { λ k _ told. told ≡ told_of_close k.unclosed_after };

    fn wait_for_lock(&mut self, waits: bool) {
        self.waits = waits;
    }

    fn lock(&mut self, _path: &str) -> Result<(), StoreUnavailable> {
        if self.is_chosen() {
            return Err(StoreUnavailable::Busy);
        }
        self.locked = true;
        Ok(())
    }

    fn is_awaited(&mut self, _path: &str) -> bool {
        false
    }

    fn lock_for_life(&mut self, _path: &str) -> Result<(), StoreUnavailable> {
        Ok(())
    }

    fn unlock(&mut self) {
        self.locked = false;
    }

    fn take(&mut self, _path: &str, fresh: bool) -> Result<Store<MemStore>, StoreUnavailable> {
        if !self.locked && self.is_chosen() {
            return Err(StoreUnavailable::Busy);
        }
        let Some(conn) = self.conn.take() else {
            return Err(StoreUnavailable::Busy);
        };
        match store_of(self.alloc, conn, fresh) {
            Ok(store) => {
                self.locked = true;
                Ok(store)
            }
            Err((refusal, conn, _)) => {
                self.conn = Some(conn);
                Err(StoreUnavailable::Refused(refusal))
            }
        }
    }

    fn is_there(&self, _path: &str) -> bool {
        true
    }

    fn put_back(&mut self, store: &mut Option<Store<MemStore>>) {
        if let Some(store) = store.take() {
            self.conn = Some(store.release());
        }
        self.locked = false;
        self.note_close();
    }

    fn take_close_error(&mut self) -> Option<Refusal> {
        self.unclosed.take()
    }

    fn cause(&self) -> Option<&'static str> {
        None
    }

    ghost sure = { λ held told. (memory_is_clean held, refl) };
}
