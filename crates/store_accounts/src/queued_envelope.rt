//! The queue without its messages.
ghost use Rattle.std.specs.Prelude.{◌≡◌, map};
ghost use Rattle.sqlite.specs.Held.{state};
ghost use Rattle.store_accounts.specs.Promises.{ReadsOpenAccount, ReadsEntered};
ghost use Rattle.store_accounts.specs.HeadRows.{queued_envelope};

use crate::cell::text_at;
use crate::queue::kind_at;
use crate::refusal::Refusal;
use crate::row::{FromRow, read_each};
use crate::store::Store;
use octets::{List, Octets};
use sqlite::{Alter, Row, params};
use store_tables::QueuedKind;

/// A message on its way out, without its octets.
#[derive(Debug, Drop)]
pub struct QueuedEnvelope {
    /// The account's own number, from 1 on; it is never used again.
    pub id: u64,
    pub kind: QueuedKind,
    /// The envelope sender; empty for a reply.
    pub sender: Octets,
    pub target: Octets,
    /// How many octets the message has.
    pub len: u64,
}

impl FromRow for QueuedEnvelope {
    ghost use Rattle.store_accounts.specs.FirstCells.{first_five};
    ghost use Rattle.store_accounts.specs.HeadRows.{head_cells};

    ghost cells_of = { first_five };

    ghost shows = { head_cells };

    fn from_row(row: &Row) -> Result<QueuedEnvelope, Refusal> {
        Ok(QueuedEnvelope {
            id: row.get(0)?,
            kind: kind_at(row, 1)?,
            sender: text_at(row, 2)?,
            target: text_at(row, 3)?,
            len: row.get(4)?,
        })
    }
}

impl<S: Alter> Store<S> {
    /// The user's messages on their way out, in the order of their numbers, without their octets. Time is linear in the
    /// queue with its messages, memory in the queue without them.
    pub fn queue_heads(&mut self, user: &[u8]) -> Result<List<QueuedEnvelope>, Refusal>
        ensures { ReadsOpenAccount user.now (λ heads a. heads ≡ map queued_envelope a.queue) (state S.Store self.old) (state S.Store self.new) result }
    {
        self.enter(user)?;
        self.queue_heads_of(user)
    }

    /// The same for an account that was entered.
    pub fn queue_heads_of(&mut self, user: &[u8]) -> Result<List<QueuedEnvelope>, Refusal>
        ensures { ReadsEntered user.now (λ heads a. heads ≡ map queued_envelope a.queue) (state S.Store self.old) (state S.Store self.new) result }
    {
        read_each(
            self.alloc,
            &mut self.conn,
            "SELECT id, kind, sender, target, length(message) FROM outgoing WHERE owner = ?1 ORDER BY id",
            params![user],
        )
    }
}
