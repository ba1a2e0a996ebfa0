//! All tables, and whether a database has them.
ghost use Rattle.std.specs.Prelude.{◌≡◌, false, ◌↔◌, IsTrue, OnOk, OnErr};
ghost use Rattle.sqlite.specs.Held.{state};
ghost use Rattle.store_tables.specs.Ours.{Creates, MakesOurs, MayCreate, OpensOurs};
ghost use Rattle.sqlite.specs.State.{Survives, HasCleanDisk};
ghost use Rattle.store_tables.specs.Connection.{MakesTables, IsSettled, StaysSame, has_our_name};
ghost use Rattle.store_tables.specs.Schema.{no_schema, mail_schema, schema_3, schema_6, schema_7};

use crate::account::make_account;
use crate::copy::{make_copy, make_copy_message};
use crate::message::make_message;
use crate::notice::make_notice;
use crate::queue::make_outgoing;
use crate::reply::make_reply;
use crate::script::make_script;
use crate::version::{add_version, has_version, make_meta};
use sqlite::{Alter, Connection, Error, Transaction};
use sqlite_schema::schema::Schema;

/// Whether a table has one of our names, ignoring ASCII case.
pub fn is_taken(schema: &Schema) -> bool
    ensures { result ≡ has_our_name schema.now }
{
    schema.table_named(b"meta").is_some()
        || schema.table_named(b"account").is_some()
        || schema.table_named(b"script").is_some()
        || schema.table_named(b"message").is_some()
        || schema.table_named(b"copy").is_some()
        || schema.table_named(b"outgoing").is_some()
        || schema.table_named(b"reply").is_some()
        || schema.table_named(b"notice").is_some()
}

/// Whether there is no table, index or view.
pub fn has_no_tables(schema: &Schema) -> bool
    ensures { IsTrue result ↔ (schema.now ≡ no_schema) }
{
    schema.tables.as_slice().is_empty()
        && schema.indexes.as_slice().is_empty()
        && schema.views.as_slice().is_empty()
}

/// Makes the tables `meta`, `account` and `script`, inside a transaction.
fn make_first<S: Alter>(tx: &mut Transaction<'_, S>) -> Result<(), Error>
    ensures { MakesTables S.Store no_schema schema_3 tx.old tx.new result }
{
    make_meta(tx)?;
    make_account(tx)?;
    make_script(tx)
}

/// Makes the table of the copies, which make up the folders, and its index by their messages, inside a transaction.
pub fn make_copies<S: Alter>(tx: &mut Transaction<'_, S>) -> Result<(), Error>
    ensures { MakesTables S.Store schema_7 mail_schema tx.old tx.new result }
{
    make_copy(tx)?;
    make_copy_message(tx)
}

/// Makes the tables of messages and copies, which make up the folders, and the index of the copies, inside a transaction.
pub fn make_folders<S: Alter>(tx: &mut Transaction<'_, S>) -> Result<(), Error>
    ensures { MakesTables S.Store schema_6 mail_schema tx.old tx.new result }
{
    make_message(tx)?;
    make_copies(tx)
}

/// Makes the tables of the queue, the replies and the notices, inside a transaction.
pub fn make_later<S: Alter>(tx: &mut Transaction<'_, S>) -> Result<(), Error>
    ensures { MakesTables S.Store schema_3 schema_6 tx.old tx.new result }
{
    make_outgoing(tx)?;
    make_reply(tx)?;
    make_notice(tx)
}

/// Makes the other five tables, inside a transaction.
fn make_others<S: Alter>(tx: &mut Transaction<'_, S>) -> Result<(), Error>
    ensures { MakesTables S.Store schema_3 mail_schema tx.old tx.new result }
{
    make_later(tx)?;
    make_folders(tx)
}

/// Makes all tables and the row of their version, inside a transaction.
fn make_ours<S: Alter>(tx: &mut Transaction<'_, S>) -> Result<(), Error>
    ensures { MakesOurs S.Store tx.old tx.new result }
{
    make_first(tx)?;
    make_others(tx)?;
    add_version(tx)
}

/// Makes all tables and the row of their version, in one transaction.
pub fn make_tables<S: Alter>(conn: &mut Connection<S>) -> Result<(), Error>
    requires { conn.old.in_transaction ≡ false }
    ensures ended { conn.new.in_transaction ≡ false }
    ensures limit { conn.new.step_limit ≡ conn.old.step_limit }
    ensures made { Creates (state S.Store conn.old) (state S.Store conn.new) result }
    ensures settled { HasCleanDisk (state S.Store conn.new) → OnOk result (IsSettled (state S.Store conn.new)) }
    ensures same { HasCleanDisk (state S.Store conn.new) → OnErr result (StaysSame (state S.Store conn.old) (state S.Store conn.new)) }
    ensures crash { Survives (state S.Store conn.old) (state S.Store conn.new) (MayCreate (state S.Store conn.old)) }
{
    let _settled = conn.is_autocommit();
    let mut tx = conn.transaction();
    make_ours(&mut tx)?;
    tx.commit()
}

/// Opens a database of our tables: returns whether their version is 3. Only the table of the version is read, and nothing changes.
pub fn open_tables<S: Alter>(conn: &mut Connection<S>) -> Result<bool, Error>
    requires { conn.old.in_transaction ≡ false }
    ensures ended { conn.new.in_transaction ≡ false }
    ensures limit { conn.new.step_limit ≡ conn.old.step_limit }
    ensures opens { OpensOurs (state S.Store conn.old) (state S.Store conn.new) result }
{
    has_version(conn)
}
