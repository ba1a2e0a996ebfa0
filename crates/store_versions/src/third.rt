//! Migrates a database of version 2 to version 3: the table of the copies is made again, without flags.
ghost use Rattle.std.specs.Prelude.{◌≡◌, IfOk};
ghost use Rattle.store_tables.specs.Connection.{RunsInside, Makes, TurnsRows, ChangesRows};
ghost use Rattle.store_tables.specs.CopyTable.{copy_tree};
ghost use Rattle.store_tables.specs.Rows.{row_added};
ghost use Rattle.store_versions.specs.Inside.{TurnsInside, FindsInside};
ghost use Rattle.store_versions.specs.Migration.{rows_joined};
ghost use Rattle.store_versions.specs.SecondSchema.{flagless};
ghost use Rattle.store_versions.specs.Third.{AreSecondCopies, RemakesCopies, TurnsThird, flagged, third_cells};

use crate::migration::{drop_copy, renew_version, text_at};
use crate::statement::list;
use sqlite::{Alter, Error, Row, Transaction};
use store_tables::{add_copy, make_copies};

/// A copy of a message, as version 2 stores it: with the message's number.
#[derive(Drop)]
pub(crate) struct SecondCopy<'a> {
    pub owner: &'a [u8],
    pub folder: &'a [u8],
    pub n: i64,
    pub id: i64,
}

/// The copy that the row shows.
fn second_in<'a>(row: &'a Row) -> Result<SecondCopy<'a>, Error>
    ensures { IfOk result (λ copy. flagless row.now ≡ third_cells copy) }
{
    let owner = text_at(row, 0)?;
    let folder = text_at(row, 1)?;
    let n: i64 = row.get(2)?;
    let id: i64 = row.get(3)?;
    Ok(SecondCopy {
        owner,
        folder,
        n,
        id,
    })
}

/// The rows of the copies, inside a transaction.
fn find_second<S: Alter>(tx: &mut Transaction<'_, S>) -> Result<Vec<Row>, Error>
    ensures { RunsInside S.Store (FindsInside AreSecondCopies) tx.old tx.new result }
{
    list(tx, "SELECT owner, folder, n, id FROM copy")
}

/// Makes the table of the copies of version 3 in place of the old one, which is the last, inside a transaction.
fn remake_copies<S: Alter>(tx: &mut Transaction<'_, S>) -> Result<(), Error>
    ensures { RunsInside S.Store (Makes RemakesCopies) tx.old tx.new result }
{
    drop_copy(tx)?;
    make_copies(tx)
}

/// Adds the copy to the copies, without flags, inside a transaction.
fn recopy<S: Alter>(tx: &mut Transaction<'_, S>, copy: &SecondCopy<'_>) -> Result<(), Error>
    ensures { ChangesRows S.Store (row_added copy_tree (third_cells copy.now)) tx.old tx.new result }
{
    add_copy(tx, copy.owner, copy.folder, &copy.n, &copy.id, b"")
}

/// Adds the copies in the rows in order, inside a transaction.
fn fill_copies<S: Alter>(tx: &mut Transaction<'_, S>, rows: &[Row]) -> Result<(), Error>
    ensures { RunsInside S.Store (TurnsInside (TurnsRows (rows_joined copy_tree flagless rows.now))) tx.old tx.new result }
{
    for row in rows {
        let copy = second_in(row)?;
        recopy(tx, &copy)?;
    }
    Ok(())
}

/// Adds the copies in the rows, and sets the version, inside a transaction.
fn refill_copies<S: Alter>(tx: &mut Transaction<'_, S>, rows: &[Row]) -> Result<(), Error>
    ensures { ChangesRows S.Store (flagged rows.now) tx.old tx.new result }
{
    fill_copies(tx, rows)?;
    renew_version(tx)
}

/// Migrates version 2, with the index of the copies by their messages or without it, to version 3, inside a transaction. Takes
/// memory for the rows of all copies, without their messages.
pub(crate) fn migrate_second<S: Alter>(tx: &mut Transaction<'_, S>) -> Result<(), Error>
    ensures { RunsInside S.Store (Makes TurnsThird) tx.old tx.new result }
{
    let copies = find_second(tx)?;
    remake_copies(tx)?;
    refill_copies(tx, &copies)
}
