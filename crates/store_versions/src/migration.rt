//! Migrates a database of version 1 to version 3.
ghost use Rattle.std.specs.Prelude.{◌≡◌, IfOk};
ghost use Rattle.sqlite_value.specs.declared.value.Value.TheVariants.{Int, Blob};
ghost use Rattle.sqlite_value.specs.Order.{column};
ghost use Rattle.store_tables.specs.Connection.{RunsInside, Makes, TurnsRows, ChangesRows};
ghost use Rattle.store_versions.specs.Inside.{TurnsInside, FindsInside};
ghost use Rattle.store_versions.specs.OldSchema.{old_cells};
ghost use Rattle.store_versions.specs.Migration.{old_copy_cells, AreOldCopies, LosesCopies, Remakes, TurnsNew, refiled, filled, renewed};

use crate::statement::list;
use crate::version::remove_version;
use sqlite::{Alter, Error, Row, Transaction};
use sqlite_value::value::ValueRef;
use store_tables::{add_copy, add_message, add_version, execute, make_folders};

/// A copy of a message, as version 1 stores it.
#[derive(Drop)]
pub(crate) struct OldCopy<'a> {
    pub owner: &'a [u8],
    pub folder: &'a [u8],
    pub n: i64,
    pub message: &'a [u8],
}

/// The text in the cell.
pub(crate) fn text_at<'a>(row: &'a Row, at: usize) -> Result<&'a [u8], Error>
    ensures { IfOk result (λ text. column row.now at ≡ Blob text.now) }
{
    match row.get_ref(at)? {
        ValueRef::Blob(text) => Ok(text),
        _ => Err(Error::InvalidQuery),
    }
}

/// The copy that the row shows.
fn copy_in<'a>(row: &'a Row) -> Result<OldCopy<'a>, Error>
    ensures { IfOk result (λ copy. old_cells row.now ≡ old_copy_cells copy) }
{
    let owner = text_at(row, 0)?;
    let folder = text_at(row, 1)?;
    let n: i64 = row.get(2)?;
    let message = text_at(row, 3)?;
    Ok(OldCopy {
        owner,
        folder,
        n,
        message,
    })
}

/// The rows of the copies, inside a transaction.
pub(crate) fn find_copies<S: Alter>(tx: &mut Transaction<'_, S>) -> Result<Vec<Row>, Error>
    ensures { RunsInside S.Store (FindsInside AreOldCopies) tx.old tx.new result }
{
    list(tx, "SELECT owner, folder, n, message FROM copy")
}

/// Drops the table of the copies, inside a transaction.
pub(crate) fn drop_copy<S: Alter>(tx: &mut Transaction<'_, S>) -> Result<(), Error>
    ensures { RunsInside S.Store (Makes LosesCopies) tx.old tx.new result }
{
    execute(tx, "DROP TABLE copy", &[])
}

/// Makes the tables of messages and copies in place of that of the copies, which is the last, inside a transaction.
fn remake<S: Alter>(tx: &mut Transaction<'_, S>) -> Result<(), Error>
    ensures { RunsInside S.Store (Makes Remakes) tx.old tx.new result }
{
    drop_copy(tx)?;
    make_folders(tx)
}

/// Adds the copy to the messages and, without flags, to the copies, inside a transaction.
fn refile<S: Alter>(tx: &mut Transaction<'_, S>, copy: &OldCopy<'_>) -> Result<(), Error>
    ensures { ChangesRows S.Store (refiled (old_copy_cells copy.now)) tx.old tx.new result }
{
    add_message(tx, copy.owner, &copy.n, copy.message)?;
    add_copy(tx, copy.owner, copy.folder, &copy.n, &copy.n, b"")
}

/// Adds the copies in the rows in order, inside a transaction.
fn fill<S: Alter>(tx: &mut Transaction<'_, S>, rows: &[Row]) -> Result<(), Error>
    ensures { RunsInside S.Store (TurnsInside (TurnsRows (filled rows.now))) tx.old tx.new result }
{
    for row in rows {
        let copy = copy_in(row)?;
        refile(tx, &copy)?;
    }
    Ok(())
}

/// Sets the row of the version to 3, inside a transaction.
pub(crate) fn renew_version<S: Alter>(tx: &mut Transaction<'_, S>) -> Result<(), Error>
    ensures { ChangesRows S.Store renewed tx.old tx.new result }
{
    remove_version(tx)?;
    add_version(tx)
}

/// Adds the copies in the rows, and sets the version, inside a transaction.
pub(crate) fn refill<S: Alter>(tx: &mut Transaction<'_, S>, rows: &[Row]) -> Result<(), Error>
    ensures { ChangesRows S.Store (λ tables. renewed (filled rows.now tables)) tx.old tx.new result }
{
    fill(tx, rows)?;
    renew_version(tx)
}

/// Migrates a version 1 database whose table of copies comes last to version 3, inside a transaction. Takes memory for all copies.
pub(crate) fn migrate_last<S: Alter>(tx: &mut Transaction<'_, S>) -> Result<(), Error>
    ensures { RunsInside S.Store (Makes TurnsNew) tx.old tx.new result }
{
    let copies = find_copies(tx)?;
    remake(tx)?;
    refill(tx, &copies)
}
