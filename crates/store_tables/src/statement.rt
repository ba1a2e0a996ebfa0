//! One statement: inside a transaction, or a query outside one.
ghost use Rattle.std.specs.Prelude.{◌≡◌, false};
ghost use Rattle.sqlite.specs.Values.{bound};
ghost use Rattle.store_tables.specs.Connection.{RunsStatement, AnswersQuery, Queries};

use sqlite::{Alter, Connection, Error, Row, Transaction};
use sqlite_value::value::ValueRef;

/// Runs the statement inside the transaction. Doesn't return how many rows it changes.
pub fn execute<S: Alter>(
    tx: &mut Transaction<'_, S>,
    sql: &str,
    params: &[ValueRef<'_>],
) -> Result<(), Error>
    ensures { RunsStatement S.Store sql.now (bound params.now) tx.old tx.new result }
{
    tx.execute(sql, params)?;
    Ok(())
}

/// All rows of the query's answer. Outside a transaction.
pub fn query<S: Alter>(
    conn: &mut Connection<S>,
    sql: &str,
    params: &[ValueRef<'_>],
) -> Result<Vec<Row>, Error>
    requires { conn.old.in_transaction ≡ false }
    ensures { Queries S.Store (AnswersQuery sql.now (bound params.now)) conn.old conn.new result }
{
    // Outside a transaction what is seen is what was committed, as this call states.
    let _settled = conn.is_autocommit();
    conn.query_all(sql, params)
}
