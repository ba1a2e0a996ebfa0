//! Migrates version 1 with the table of the copies fourth: the tables from it on are made again, with their rows, in today's order.
ghost use Rattle.std.specs.Prelude.{◌≡◌, IfOk};
ghost use Rattle.store_tables.specs.Connection.{RunsInside, Makes, TurnsRows, ChangesRows};
ghost use Rattle.store_versions.specs.Inside.{TurnsInside, FindsInside, LosesTable};
ghost use Rattle.store_tables.specs.Rows.{row_added};
ghost use Rattle.store_tables.specs.Schema.{schema_3};
ghost use Rattle.store_tables.specs.QueueTable.{outgoing_tree};
ghost use Rattle.store_tables.specs.ReplyTable.{reply_tree};
ghost use Rattle.store_tables.specs.NoticeTable.{notice_tree};
ghost use Rattle.store_versions.specs.OldSchema.{oldest_schema, oldest_4, oldest_5, oldest_6, oldest_outgoing_tree, oldest_reply_tree, oldest_notice_tree, queue_columns, four_cells};
ghost use Rattle.store_versions.specs.Migration.{AreOldRows, AreLater, RemakesAll, TurnsNewest, rows_joined, restored, queued_cells, replied_cells, noted_cells};

use crate::migration::{drop_copy, find_copies, refill, text_at};
use crate::statement::list;
use sqlite::{Alter, Error, Row, Transaction, params};
use store_tables::{add_notice, add_reply, execute, make_folders, make_later};

/// The rows of the queue, the replies and the notices.
#[derive(Drop)]
pub(crate) struct Later {
    pub queue: Vec<Row>,
    pub replies: Vec<Row>,
    pub notices: Vec<Row>,
}

/// A message on its way out, as in its row.
#[derive(Drop)]
pub(crate) struct Queued<'a> {
    pub owner: &'a [u8],
    pub id: i64,
    pub kind: i64,
    pub sender: &'a [u8],
    pub target: &'a [u8],
    pub message: &'a [u8],
}

/// The moment of a last reply, as in its row.
#[derive(Drop)]
pub(crate) struct Replied<'a> {
    pub owner: &'a [u8],
    pub handle: &'a [u8],
    pub sender: &'a [u8],
    pub moment: i64,
}

/// A notice, as in its row.
#[derive(Drop)]
pub(crate) struct Noted<'a> {
    pub owner: &'a [u8],
    pub id: i64,
    pub moment: i64,
    pub text: &'a [u8],
}

/// The message that the row shows.
fn queued_in<'a>(row: &'a Row) -> Result<Queued<'a>, Error>
    ensures { IfOk result (λ queued. queue_columns row.now ≡ queued_cells queued) }
{
    let owner = text_at(row, 0)?;
    let id: i64 = row.get(1)?;
    let kind: i64 = row.get(2)?;
    let sender = text_at(row, 3)?;
    let target = text_at(row, 4)?;
    let message = text_at(row, 5)?;
    Ok(Queued {
        owner,
        id,
        kind,
        sender,
        target,
        message,
    })
}

/// The moment that the row shows.
fn replied_in<'a>(row: &'a Row) -> Result<Replied<'a>, Error>
    ensures { IfOk result (λ replied. four_cells row.now ≡ replied_cells replied) }
{
    let owner = text_at(row, 0)?;
    let handle = text_at(row, 1)?;
    let sender = text_at(row, 2)?;
    let moment: i64 = row.get(3)?;
    Ok(Replied {
        owner,
        handle,
        sender,
        moment,
    })
}

/// The notice that the row shows.
fn noted_in<'a>(row: &'a Row) -> Result<Noted<'a>, Error>
    ensures { IfOk result (λ noted. four_cells row.now ≡ noted_cells noted) }
{
    let owner = text_at(row, 0)?;
    let id: i64 = row.get(1)?;
    let moment: i64 = row.get(2)?;
    let text = text_at(row, 3)?;
    Ok(Noted {
        owner,
        id,
        moment,
        text,
    })
}

/// The rows of the queue, inside a transaction.
fn find_queue<S: Alter>(tx: &mut Transaction<'_, S>) -> Result<Vec<Row>, Error>
    ensures { RunsInside S.Store (FindsInside (AreOldRows oldest_outgoing_tree queue_columns)) tx.old tx.new result }
{
    list(
        tx,
        "SELECT owner, id, kind, sender, target, message FROM outgoing",
    )
}

/// The rows of the replies, inside a transaction.
fn find_replies<S: Alter>(tx: &mut Transaction<'_, S>) -> Result<Vec<Row>, Error>
    ensures { RunsInside S.Store (FindsInside (AreOldRows oldest_reply_tree four_cells)) tx.old tx.new result }
{
    list(tx, "SELECT owner, handle, sender, moment FROM reply")
}

/// The rows of the notices, inside a transaction.
fn find_notices<S: Alter>(tx: &mut Transaction<'_, S>) -> Result<Vec<Row>, Error>
    ensures { RunsInside S.Store (FindsInside (AreOldRows oldest_notice_tree four_cells)) tx.old tx.new result }
{
    list(tx, "SELECT owner, id, moment, text FROM notice")
}

/// The rows of all three, inside a transaction.
fn find_later<S: Alter>(tx: &mut Transaction<'_, S>) -> Result<Later, Error>
    ensures { RunsInside S.Store (FindsInside AreLater) tx.old tx.new result }
{
    let queue = find_queue(tx)?;
    let replies = find_replies(tx)?;
    let notices = find_notices(tx)?;
    Ok(Later {
        queue,
        replies,
        notices,
    })
}

/// Drops the table of the notices, which is the last, inside a transaction.
fn drop_notice<S: Alter>(tx: &mut Transaction<'_, S>) -> Result<(), Error>
    ensures { RunsInside S.Store (Makes (LosesTable oldest_schema oldest_6)) tx.old tx.new result }
{
    execute(tx, "DROP TABLE notice", &[])
}

/// Drops the table of the replies, which is the last then, inside a transaction.
fn drop_reply<S: Alter>(tx: &mut Transaction<'_, S>) -> Result<(), Error>
    ensures { RunsInside S.Store (Makes (LosesTable oldest_6 oldest_5)) tx.old tx.new result }
{
    execute(tx, "DROP TABLE reply", &[])
}

/// Drops the table of the queue, which is the last then, inside a transaction.
fn drop_outgoing<S: Alter>(tx: &mut Transaction<'_, S>) -> Result<(), Error>
    ensures { RunsInside S.Store (Makes (LosesTable oldest_5 oldest_4)) tx.old tx.new result }
{
    execute(tx, "DROP TABLE outgoing", &[])
}

/// Drops all three, inside a transaction.
fn drop_later<S: Alter>(tx: &mut Transaction<'_, S>) -> Result<(), Error>
    ensures { RunsInside S.Store (Makes (LosesTable oldest_schema oldest_4)) tx.old tx.new result }
{
    drop_notice(tx)?;
    drop_reply(tx)?;
    drop_outgoing(tx)
}

/// Drops the table of the copies too, inside a transaction.
fn drop_from_copy<S: Alter>(tx: &mut Transaction<'_, S>) -> Result<(), Error>
    ensures { RunsInside S.Store (Makes (LosesTable oldest_schema schema_3)) tx.old tx.new result }
{
    drop_later(tx)?;
    drop_copy(tx)
}

/// Makes the tables of version 3 in place of those from the copies on, inside a transaction.
fn remake_all<S: Alter>(tx: &mut Transaction<'_, S>) -> Result<(), Error>
    ensures { RunsInside S.Store (Makes RemakesAll) tx.old tx.new result }
{
    drop_from_copy(tx)?;
    make_later(tx)?;
    make_folders(tx)
}

/// Adds the message to the queue, as it was in its row, inside a transaction.
fn requeue<S: Alter>(tx: &mut Transaction<'_, S>, queued: &Queued<'_>) -> Result<(), Error>
    ensures { ChangesRows S.Store (row_added outgoing_tree (queued_cells queued.now)) tx.old tx.new result }
{
    execute(
        tx,
        "INSERT INTO outgoing (owner, id, kind, sender, target, message) VALUES (?1, ?2, ?3, ?4, ?5, ?6)",
        params![
            queued.owner,
            &queued.id,
            &queued.kind,
            queued.sender,
            queued.target,
            queued.message
        ],
    )
}

/// Adds the moment to the replies, inside a transaction.
fn rereply<S: Alter>(tx: &mut Transaction<'_, S>, replied: &Replied<'_>) -> Result<(), Error>
    ensures { ChangesRows S.Store (row_added reply_tree (replied_cells replied.now)) tx.old tx.new result }
{
    add_reply(
        tx,
        replied.owner,
        replied.handle,
        replied.sender,
        &replied.moment,
    )
}

/// Adds the notice to the notices, inside a transaction.
fn renote<S: Alter>(tx: &mut Transaction<'_, S>, noted: &Noted<'_>) -> Result<(), Error>
    ensures { ChangesRows S.Store (row_added notice_tree (noted_cells noted.now)) tx.old tx.new result }
{
    add_notice(tx, noted.owner, &noted.id, &noted.moment, noted.text)
}

/// Adds the rows to the queue in order, inside a transaction.
fn fill_queue<S: Alter>(tx: &mut Transaction<'_, S>, rows: &[Row]) -> Result<(), Error>
    ensures { RunsInside S.Store (TurnsInside (TurnsRows (rows_joined outgoing_tree queue_columns rows.now))) tx.old tx.new result }
{
    for row in rows {
        let queued = queued_in(row)?;
        requeue(tx, &queued)?;
    }
    Ok(())
}

/// Adds the rows to the replies in order, inside a transaction.
fn fill_replies<S: Alter>(tx: &mut Transaction<'_, S>, rows: &[Row]) -> Result<(), Error>
    ensures { RunsInside S.Store (TurnsInside (TurnsRows (rows_joined reply_tree four_cells rows.now))) tx.old tx.new result }
{
    for row in rows {
        let replied = replied_in(row)?;
        rereply(tx, &replied)?;
    }
    Ok(())
}

/// Adds the rows to the notices in order, inside a transaction.
fn fill_notices<S: Alter>(tx: &mut Transaction<'_, S>, rows: &[Row]) -> Result<(), Error>
    ensures { RunsInside S.Store (TurnsInside (TurnsRows (rows_joined notice_tree four_cells rows.now))) tx.old tx.new result }
{
    for row in rows {
        let noted = noted_in(row)?;
        renote(tx, &noted)?;
    }
    Ok(())
}

/// Adds the rows of all three, inside a transaction.
fn restore<S: Alter>(tx: &mut Transaction<'_, S>, later: &Later) -> Result<(), Error>
    ensures { RunsInside S.Store (TurnsInside (TurnsRows (restored later.now))) tx.old tx.new result }
{
    fill_queue(tx, &later.queue)?;
    fill_replies(tx, &later.replies)?;
    fill_notices(tx, &later.notices)
}

/// Migrates version 1, with the copies fourth, to version 3, inside a transaction. Takes memory for all copies, for the queue,
/// the replies and the notices.
pub(crate) fn migrate_fourth<S: Alter>(tx: &mut Transaction<'_, S>) -> Result<(), Error>
    ensures { RunsInside S.Store (Makes TurnsNewest) tx.old tx.new result }
{
    let copies = find_copies(tx)?;
    let later = find_later(tx)?;
    remake_all(tx)?;
    restore(tx, &later)?;
    refill(tx, &copies)
}
