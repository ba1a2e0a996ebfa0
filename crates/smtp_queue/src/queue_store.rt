//! Rows of the queues of a store that is taken for them, and stays held.
ghost use Rattle.smtp_queue.specs.Queues.{QueueFinds, QueueRemoves, TurnsShown};

use crate::RowWaits;
use crate::due_row::{DueRow, find_due_row, take_row};
use smtp_send::{DueMessage, TakenOut};
use std::alloc::Global;
use store_accounts::QueueKey;
use store_lock::{HeldStore, Keeper, StoreUnavailable};

/// Which rows are asked for.
#[derive(Clone, Copy)]
pub struct Search<'a> {
    /// The path of the store.
    pub path: &'a str,
    /// What is known of rows that were tried without success.
    pub waits: &'a RowWaits,
    /// The moment at which a row is to be due.
    pub now: u64,
}

/// The first row after a place that is due. A lock that another process has is waited for, without an end.
pub(crate) fn find_row<K: Keeper + Drop>(
    held: &mut HeldStore<K>,
    alloc: Global,
    search: Search<'_>,
    start: QueueKey,
) -> Result<Option<DueRow>, StoreUnavailable>
    ensures { TurnsShown K.S.Store K.tells K.holds (QueueFinds search.entry.waits.now search.entry.now start result) held.old held.new }
{
    held.take(search.path, true)?;
    let Some(store) = &mut held.store else {
        return Err(StoreUnavailable::Busy);
    };
    match find_due_row(alloc, store, start, search.waits, search.now) {
        Ok(found) => Ok(found),
        Err(refusal) => Err(StoreUnavailable::Refused(refusal)),
    }
}

/// Takes out the row at a place, if it is the one that was sent.
pub(crate) fn remove_row<K: Keeper + Drop>(
    held: &mut HeldStore<K>,
    path: &str,
    place: &QueueKey,
    sent: &DueMessage,
) -> Result<TakenOut, StoreUnavailable>
    ensures { TurnsShown K.S.Store K.tells K.holds (QueueRemoves place.now sent.now result) held.old held.new }
{
    held.take(path, true)?;
    let Some(store) = &mut held.store else {
        return Err(StoreUnavailable::Busy);
    };
    match take_row(store, place, sent) {
        Ok(taken) => Ok(taken),
        Err(refusal) => Err(StoreUnavailable::Refused(refusal)),
    }
}
