//! What the queues of all users promise.
ghost use Rattle.std.specs.Prelude.{◌≡◌, ℕ, List, OnErr, IfOk, IfSome};
ghost use Rattle.smtp_send.specs.Rows.{Rows, RowTakenOut};

use octets::Octets;

/// A row of a user's queue.
#[derive(Debug, Drop)]
pub struct DueMessage {
    pub user: Octets,
    /// The row's number in the account.
    pub id: u64,
    /// The envelope sender; empty for a reply.
    pub sender: Octets,
    pub target: Octets,
    pub message: Octets,
}

/// What became of a row that was to be taken out.
#[derive(Clone, Copy, Debug, PartialEq, Eq)]
pub enum TakenOut {
    /// It left its queue.
    Removed,
    /// No row of an open account has its number any more: another took it out, or closed the account.
    Gone,
    /// Another row has its number now, which stays.
    Changed,
}

/// Why a row can't be read, or can't be taken out.
#[derive(Clone, Copy, Debug, PartialEq, Eq)]
pub enum QueueUnavailable {
    /// There is no memory.
    Memory,
    /// The store isn't available, or refuses.
    Store,
}

/// The queues of all users.
pub trait SendQueue {
    ghost use Rattle.smtp_send.specs.Rows.{IsThere};

    /// Whether these are its rows, with those that are due. One over a store that doesn't tell its tables says it of none.
    ghost shows: { Self → Rows → Type 0 };

    /// The first row after this place that is due, in the order of the octets of the users and of the numbers. The store is taken for it,
    /// if it isn't held, and held then.
    fn next(&mut self, user: &[u8], id: u64) -> Result<Option<DueMessage>, QueueUnavailable>
        ensures there { IfOk result (λ found. IfSome found (λ row. (rows : Rows) → shows self.old rows → IsThere row rows)) }
        ensures same { (rows : Rows) → shows self.old rows → shows self.new rows };

    /// Takes a row out, durably. It is the row that has its user, its number, its sender, its target and its message; if there is no such
    /// row nothing changes. The store is taken for it, if it isn't held, waited for without an end, and held then.
    ///
    /// # Errors
    ///
    /// The store refuses; then nothing changed.
    fn take_out(&mut self, row: &DueMessage) -> Result<TakenOut, QueueUnavailable>
        ensures taken { IfOk result (λ taken. (rows : Rows) → shows self.old rows → (after : Rows) × RowTakenOut row.now taken rows after × shows self.new after) }
        ensures kept { OnErr result ((rows : Rows) → shows self.old rows → shows self.new rows) };

    /// Gives the store back if it is held and somebody waits for it, or it was held for long, at a moment in milliseconds. Returns
    /// whether it was held for long.
    fn give_way(&mut self, moment: u64) -> bool
        ensures same { (rows : Rows) → shows self.old rows → shows self.new rows };

    /// Gives the store back, if it is held.
    fn give_back(&mut self)
        ensures same { (rows : Rows) → shows self.old rows → shows self.new rows };
}
