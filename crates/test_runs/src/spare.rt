//! A store beside that of the world: it is made, let go and opened again, and takes the world's place.
use crate::answer::{add_refusal, add_word_line};
use octets::Octets;
use sqlite::{Connection, ErrorCode, MemStore};
use std::alloc::{AllocError, Global};
use std::mem;
use store_accounts::{Refusal, Store};

/// What is beside the store of a world.
#[derive(Drop)]
pub enum Spare {
    /// Nothing.
    Nothing,
    /// A store.
    Store(Store<MemStore>),
    /// The connection that a store was released as, or that came back beside a refusal.
    Connection(Connection<MemStore>),
}

impl Spare {
    /// Makes a store in the connection that is here, or in one to an empty database, and appends `created` or the refusal.
    pub fn create(&mut self, alloc: Global, out: &mut Octets) -> Result<(), AllocError> {
        let conn = match mem::replace(self, Spare::Nothing) {
            Spare::Connection(conn) => conn,
            _ => Connection::open_in_memory(alloc)?,
        };
        self.take(alloc, out, b"created", Store::create(alloc, conn))
    }

    /// Opens the connection that is here as a store, and appends `opened` or the refusal; `none` without a connection.
    pub fn reopen(&mut self, alloc: Global, out: &mut Octets) -> Result<(), AllocError> {
        match mem::replace(self, Spare::Nothing) {
            Spare::Connection(conn) => {
                self.take(alloc, out, b"opened", Store::open(alloc, conn))
            }
            other => {
                *self = other;
                add_word_line(out, b"", b"none")
            }
        }
    }

    /// Releases the store that is here, if there is one.
    pub fn release(&mut self) {
        *self = match mem::replace(self, Spare::Nothing) {
            Spare::Store(store) => Spare::Connection(store.release()),
            other => other,
        };
    }

    /// Puts the store that is here, if there is one, into the place of another, which is here then.
    pub fn swap(&mut self, other: &mut Store<MemStore>) {
        if let Spare::Store(store) = self {
            mem::swap(store, other);
        }
    }

    /// What came of a call: the store, or the refusal and the connection.
    fn take(
        &mut self,
        alloc: Global,
        out: &mut Octets,
        word: &[u8],
        came: Result<Store<MemStore>, (Refusal, Connection<MemStore>, Option<ErrorCode>)>,
    ) -> Result<(), AllocError> {
        match came {
            Ok(store) => {
                *self = Spare::Store(store);
                add_word_line(out, word, b"")
            }
            Err((refusal, conn, _)) => {
                *self = Spare::Connection(conn);
                add_refusal(alloc, out, refusal)
            }
        }
    }
}
