//! A query inside a transaction.
ghost use Rattle.store_tables.specs.Connection.{RunsInside};
ghost use Rattle.store_versions.specs.Inside.{Lists};

use sqlite::{Alter, Error, Row, Transaction};

/// All rows of the answer to a query without parameters, inside the transaction.
pub(crate) fn list<S: Alter>(tx: &mut Transaction<'_, S>, sql: &str) -> Result<Vec<Row>, Error>
    ensures { RunsInside S.Store (Lists sql.now) tx.old tx.new result }
{
    tx.query_all(sql, &[])
}
