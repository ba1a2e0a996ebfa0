//! Rows that are due, in a store that is taken.
ghost use Rattle.std.specs.Prelude.{◌≡◌, ◌↔◌, IfOk, IsTrue};
ghost use Rattle.sqlite.specs.Held.{state};
ghost use Rattle.smtp_queue.specs.DueRows as s;
ghost use Rattle.smtp_queue.specs.DueRows.{OutgoingHasOctets, IsDueRowFound, IsRowAt, IsStep, QueueReads, Sees, QueueTakesRow, QueueWorks};

use crate::{RowKey, RowWaits};
use smtp_send::{DueMessage, TakenOut};
use sqlite::Alter;
use std::alloc::{AllocError, Global};
use store_accounts::{QueueKey, QueuedMessage, Refusal, Store};

/// A row of a queue, with its place.
#[derive(Drop)]
pub struct DueRow {
    pub place: QueueKey,
    pub row: QueuedMessage,
}

/// What comes after a place.
#[derive(Drop)]
enum Step {
    /// No row.
    End,
    /// A row that isn't due.
    Past(QueueKey),
    /// A row that is.
    Due(DueRow),
}

/// Whether the row at a place is due at a moment. Lack of memory is the only error.
fn is_due(alloc: Global, waits: &RowWaits, place: &QueueKey, now: u64) -> Result<bool, AllocError>
    ensures { IfOk result (λ due. due ≡ s.is_key_due waits.now now place.now) }
{
    let at = RowKey::new(alloc, place.user.as_slice(), place.id)?;
    Ok(waits.is_due(&at, now))
}

/// The row at a place; none if there is none, and if the user's account isn't open.
fn row_at<S: Alter>(
    store: &mut Store<S>,
    place: &QueueKey,
) -> Result<Option<QueuedMessage>, Refusal>
    ensures { Sees (IsRowAt place.now) (state S.Store store.old) (state S.Store store.new) result }
{
    let found = store.outgoing(place.user.as_slice(), place.id);
    if let Err(Refusal::NoUser) = found {
        return Ok(None);
    }
    found
}

/// The row after a place, which is read if it is due.
fn step_from<S: Alter>(
    alloc: Global,
    store: &mut Store<S>,
    start: &QueueKey,
    waits: &RowWaits,
    now: u64,
) -> Result<Step, Refusal>
    ensures { QueueWorks (QueueReads (IsStep waits.now now start.now) result) (state S.Store store.old) (state S.Store store.new) }
{
    let Some(place) = store.next_queued(start)? else {
        return Ok(Step::End);
    };
    let due = is_due(alloc, waits, &place, now)?;
    if !due {
        return Ok(Step::Past(place));
    }
    match row_at(store, &place)? {
        Some(row) => Ok(Step::Due(DueRow { place, row })),
        None => Ok(Step::Past(place)),
    }
}

/// The first row after a place that is due. Rows that aren't are passed over without a look at their messages. Time is linear in them, but
/// for the logarithm of the waits; memory is taken for the row.
pub(crate) fn find_due_row<S: Alter>(
    alloc: Global,
    store: &mut Store<S>,
    start: QueueKey,
    waits: &RowWaits,
    now: u64,
) -> Result<Option<DueRow>, Refusal>
    ensures { QueueWorks (QueueReads (IsDueRowFound waits.now now start) result) (state S.Store store.old) (state S.Store store.new) }
{
    let mut place = start;
    for _ in 0..u64::MAX {
        match step_from(alloc, store, &place, waits, now)? {
            Step::End => return Ok(None),
            Step::Due(due_row) => return Ok(Some(due_row)),
            Step::Past(next) => place = next,
        }
    }
    // There are fewer rows.
    Err(Refusal::Store)
}

/// Whether a row has the sender, the target and the message of one that was sent. Time is linear in its octets.
fn has_octets(row: &QueuedMessage, sent: &DueMessage) -> bool
    ensures { IsTrue result ↔ OutgoingHasOctets sent.now row.now }
{
    row.sender == sent.sender && row.target == sent.target && row.message == sent.message
}

/// Takes out the row at a place, if it is the one that was sent. It is read once for that.
///
/// # Errors
///
/// The row is still there.
pub(crate) fn take_row<S: Alter>(
    store: &mut Store<S>,
    place: &QueueKey,
    sent: &DueMessage,
) -> Result<TakenOut, Refusal>
    ensures { QueueWorks (QueueTakesRow place.now sent.now result) (state S.Store store.old) (state S.Store store.new) }
{
    let Some(row) = row_at(store, place)? else {
        return Ok(TakenOut::Gone);
    };
    if !has_octets(&row, sent) {
        return Ok(TakenOut::Changed);
    }
    store.take_out(place.user.as_slice(), place.id)?;
    Ok(TakenOut::Removed)
}
