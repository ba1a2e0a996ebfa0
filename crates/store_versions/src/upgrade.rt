//! Migrates a database of an earlier version to version 3 in one transaction.
ghost use Rattle.std.specs.Prelude.{◌≡◌, false, OnOk, OnErr};
ghost use Rattle.sqlite.specs.Held.{state};
ghost use Rattle.sqlite.specs.State.{Survives, HasCleanDisk};
ghost use Rattle.store_tables.specs.Connection.{RunsInside, Makes, IsSettled, StaysSame};
ghost use Rattle.store_versions.specs.Upgrade.{MigratesBy, Migrates, MayMigrate, OpensOld};

use crate::migration::migrate_last;
use crate::moving::migrate_fourth;
use crate::third::migrate_second;
use crate::version::{Older, has_old_version};
use sqlite::{Alter, Connection, Error, Transaction};

/// Migrates the earlier version to version 3, inside a transaction.
fn migrate_in<S: Alter>(tx: &mut Transaction<'_, S>, older: Older) -> Result<(), Error>
    ensures { RunsInside S.Store (Makes (MigratesBy older)) tx.old tx.new result }
{
    match older {
        Older::Second => migrate_second(tx),
        Older::CopiesLast => migrate_last(tx),
        Older::CopiesFourth => migrate_fourth(tx),
    }
}

/// Migrates the earlier version to version 3, in one transaction.
///
/// Takes memory for all copies; with the copies fourth also for the queue, the replies and the notices. After a refusal it is as
/// it was.
fn migrate<S: Alter>(conn: &mut Connection<S>, older: Older) -> Result<(), Error>
    requires { conn.old.in_transaction ≡ false }
    ensures ended { conn.new.in_transaction ≡ false }
    ensures limit { conn.new.step_limit ≡ conn.old.step_limit }
    ensures made { Migrates older (state S.Store conn.old) (state S.Store conn.new) result }
    ensures settled { HasCleanDisk (state S.Store conn.new) → OnOk result (IsSettled (state S.Store conn.new)) }
    ensures same { HasCleanDisk (state S.Store conn.new) → OnErr result (StaysSame (state S.Store conn.old) (state S.Store conn.new)) }
    ensures crash { Survives (state S.Store conn.old) (state S.Store conn.new) (MayMigrate older (state S.Store conn.old)) }
{
    let _settled = conn.is_autocommit();
    let mut tx = conn.transaction();
    migrate_in(&mut tx, older)?;
    tx.commit()
}

/// Opens a database of the earlier version's tables: returns whether its row of the version says that version. If it does, it is
/// migrated to version 3, in one transaction.
///
/// Takes memory for all copies; with the copies fourth also for the queue, the replies and the notices. After a refusal it is as
/// it was.
pub(crate) fn open_old<S: Alter>(conn: &mut Connection<S>, older: Older) -> Result<bool, Error>
    requires { conn.old.in_transaction ≡ false }
    ensures ended { conn.new.in_transaction ≡ false }
    ensures limit { conn.new.step_limit ≡ conn.old.step_limit }
    ensures opens { OpensOld older (state S.Store conn.old) (state S.Store conn.new) result }
{
    if !has_old_version(conn, older)? {
        return Ok(false);
    }
    migrate(conn, older)?;
    Ok(true)
}
