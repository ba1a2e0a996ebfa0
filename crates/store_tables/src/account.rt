//! The table of accounts: its rows are the users.
ghost use Rattle.store_tables.specs.Cells.{borrowed_octets};
ghost use Rattle.store_tables.specs.Changes.{account_added, active_set, address_set, counters_set, password_set, rounds_set};
ghost use Rattle.store_tables.specs.Connection.{ChangesRows, MakesTables};
ghost use Rattle.store_tables.specs.Schema.{schema_1, schema_2};

use crate::statement::execute;
use sqlite::{Alter, Error, Transaction, params};

/// Makes the table `account`, inside a transaction.
pub(crate) fn make_account<S: Alter>(tx: &mut Transaction<'_, S>) -> Result<(), Error>
    ensures { MakesTables S.Store schema_1 schema_2 tx.old tx.new result }
{
    execute(
        tx,
        "CREATE TABLE account (name BLOB NOT NULL PRIMARY KEY, address BLOB NOT NULL, salt BLOB NOT NULL, rounds INTEGER NOT NULL, digest BLOB NOT NULL, active BLOB, next_copy INTEGER NOT NULL, next_out INTEGER NOT NULL, next_notice INTEGER NOT NULL) STRICT",
        &[],
    )
}

/// Adds an account without an active script, whose counters begin at 1. Inside a transaction.
pub(crate) fn add_account<S: Alter>(
    tx: &mut Transaction<'_, S>,
    name: &[u8],
    address: &[u8],
    salt: &[u8],
    rounds: u32,
    digest: &[u8],
) -> Result<(), Error>
    ensures { ChangesRows S.Store (account_added name.now address.now salt.now rounds digest.now) tx.old tx.new result }
{
    execute(
        tx,
        "INSERT INTO account (name, address, salt, rounds, digest, active, next_copy, next_out, next_notice) VALUES (?1, ?2, ?3, ?4, ?5, NULL, 1, 1, 1)",
        params![name, address, salt, rounds, digest],
    )
}

/// Makes another script active, or none. Inside a transaction.
pub(crate) fn set_active<S: Alter>(
    tx: &mut Transaction<'_, S>,
    name: &[u8],
    active: Option<&[u8]>,
) -> Result<(), Error>
    ensures { ChangesRows S.Store (active_set name.now (borrowed_octets active.entry)) tx.old tx.new result }
{
    execute(
        tx,
        "UPDATE account SET active = ?2 WHERE name = ?1",
        params![name, active],
    )
}

/// Sets the counters of copies, of messages on their way out, and of notices. Inside a transaction.
pub(crate) fn set_counters<S: Alter>(
    tx: &mut Transaction<'_, S>,
    name: &[u8],
    copy: &i64,
    out: &i64,
    notice: &i64,
) -> Result<(), Error>
    ensures { ChangesRows S.Store (counters_set name.now copy.now out.now notice.now) tx.old tx.new result }
{
    execute(
        tx,
        "UPDATE account SET next_copy = ?2, next_out = ?3, next_notice = ?4 WHERE name = ?1",
        params![name, copy, out, notice],
    )
}

/// Sets the address. Inside a transaction.
pub(crate) fn set_address<S: Alter>(
    tx: &mut Transaction<'_, S>,
    name: &[u8],
    address: &[u8],
) -> Result<(), Error>
    ensures { ChangesRows S.Store (address_set name.now address.now) tx.old tx.new result }
{
    execute(
        tx,
        "UPDATE account SET address = ?2 WHERE name = ?1",
        params![name, address],
    )
}

/// Sets the stored password. Inside a transaction.
pub(crate) fn set_password<S: Alter>(
    tx: &mut Transaction<'_, S>,
    name: &[u8],
    salt: &[u8],
    rounds: u32,
    digest: &[u8],
) -> Result<(), Error>
    ensures { ChangesRows S.Store (password_set name.now salt.now rounds digest.now) tx.old tx.new result }
{
    execute(
        tx,
        "UPDATE account SET salt = ?2, rounds = ?3, digest = ?4 WHERE name = ?1",
        params![name, salt, rounds, digest],
    )
}

/// Sets the rounds of the password; its salt and digest stay. Inside a transaction.
pub(crate) fn set_rounds<S: Alter>(
    tx: &mut Transaction<'_, S>,
    name: &[u8],
    rounds: u32,
) -> Result<(), Error>
    ensures { ChangesRows S.Store (rounds_set name.now rounds) tx.old tx.new result }
{
    execute(
        tx,
        "UPDATE account SET rounds = ?2 WHERE name = ?1",
        params![name, rounds],
    )
}
