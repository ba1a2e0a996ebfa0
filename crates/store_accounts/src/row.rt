//! Values in the rows of a query.
ghost use Rattle.std.specs.Prelude.{◌≡◌, false, option_map, slice_get, IfOk, IfErr};
ghost use Rattle.sqlite_value.specs.Order.{Row};
ghost use Rattle.sqlite.specs.Values.{bound};
ghost use Rattle.sqlite.specs.Listing.{understood};
ghost use Rattle.sqlite.specs.Given.{IsPlain};
ghost use Rattle.store_tables.specs.Schema.{mail_schema};
ghost use Rattle.store_tables.specs.Connection.{Queries};
ghost use Rattle.store_accounts.specs.Refusals.{IsTransient};
ghost use Rattle.store_accounts.specs.EachRow.{ReadsEach};

use crate::refusal::Refusal;
use octets::List;
use sqlite::{Alter, Connection, Row};
use sqlite_value::value::ValueRef;
use std::alloc::Global;

/// A value that a row shows.
pub trait FromRow: Drop {
    /// The cells of a row that are read.
    ghost cells_of: { Row → Row };

    /// The cells that show the value.
    ghost shows: { Self → Row };

    /// The value in the row. Lack of memory, or a cell of another type, is the only refusal.
    fn from_row(row: &Row) -> Result<Self, Refusal>
        ensures shown { IfOk result (λ value. shows value ≡ cells_of row.now) }
        ensures named { IfErr result IsTransient };
}

/// The value in the first row, if there is a row.
pub fn first_from_row<T: FromRow>(rows: &[Row]) -> Result<Option<T>, Refusal>
    ensures ok { IfOk result (λ first. option_map T.shows first ≡ option_map T.cells_of (slice_get rows.now 0)) }
    ensures named { IfErr result IsTransient }
{
    match rows.first() {
        Some(row) => {
            let value = T::from_row(row)?;
            Ok(Some(value))
        }
        None => Ok(None),
    }
}

/// The values in the rows of the query's answer, in their order. The rows are read one by one: no list of them
/// is made. Outside a transaction.
pub fn read_each<S: Alter, T: FromRow>(
    alloc: Global,
    conn: &mut Connection<S>,
    sql: &str,
    params: &[ValueRef<'_>],
) -> Result<List<T>, Refusal>
    requires outside { conn.old.in_transaction ≡ false }
    requires plain { IsPlain (understood mail_schema sql.now) }
    ensures { Queries S.Store (ReadsEach T.shows T.cells_of sql.now (bound params.now)) conn.old conn.new result }
{
    // Outside a transaction what is seen is what was committed, as this call states.
    let _settled = conn.is_autocommit();
    let mut all = Vec::new(alloc);
    let mut rows = conn.query(sql, params)?;
    'rows: for _ in 0..u64::MAX {
        let Some(row) = rows.next()? else {
            return Ok(List::from_vec(all));
        };
        all.push(T::from_row(row)?)?;
    }
    // No answer has that many rows.
    Err(Refusal::Store)
}
