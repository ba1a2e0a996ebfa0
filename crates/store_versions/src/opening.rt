//! Opens a database of any version.
ghost use Rattle.std.specs.Prelude.{◌≡◌, false, IfSome, IfNone};
ghost use Rattle.sqlite.specs.Held.{state};
ghost use Rattle.store_versions.specs.Opening.{IsKnownSchema, LiesAs, OpensKnown};

use crate::schema::{is_old, is_oldest, is_second};
use crate::upgrade::open_old;
use crate::version::Older;
use sqlite::{Alter, Connection, Error};
use sqlite_schema::schema::Schema;
use store_tables::{is_ours, open_tables};

/// The layout of a store's tables.
#[derive(Clone, Copy, Debug, PartialEq, Eq)]
pub enum Layout {
    /// Those of version 3.
    Current,
    /// Those of version 2, with the index of the copies by their messages or without it.
    Second,
    /// Those of version 1, with the copies after all others.
    CopiesLast,
    /// Those of version 1, with the copies before the queue, the replies and the notices.
    CopiesFourth,
}

/// The layout of the tables, if they and their indexes are exactly ours, of any version; else `None`.
pub fn layout_of(schema: &Schema) -> Option<Layout>
    ensures found { IfSome result (λ layout. LiesAs layout schema.now) }
    ensures none { IfNone result (¬ IsKnownSchema schema.now) }
{
    if is_ours(schema) {
        Some(Layout::Current)
    } else if is_second(schema) {
        Some(Layout::Second)
    } else if is_old(schema) {
        Some(Layout::CopiesLast)
    } else if is_oldest(schema) {
        Some(Layout::CopiesFourth)
    } else {
        None
    }
}

/// Opens a database whose tables have this layout: returns whether its row of the version says theirs. If it does, the database is
/// migrated to version 3, in one transaction.
///
/// With version 3 only the table of the version is read. Version 2 takes memory for the rows of all copies, version 1 for all
/// copies with their messages, and with the copies fourth also for the queue, the replies and the notices. After a refusal it is as
/// it was.
pub fn open_known<S: Alter>(conn: &mut Connection<S>, layout: Layout) -> Result<bool, Error>
    requires { conn.old.in_transaction ≡ false }
    ensures ended { conn.new.in_transaction ≡ false }
    ensures limit { conn.new.step_limit ≡ conn.old.step_limit }
    ensures opens { OpensKnown layout (state S.Store conn.old) (state S.Store conn.new) result }
{
    match layout {
        Layout::Current => open_tables(conn),
        Layout::Second => open_old(conn, Older::Second),
        Layout::CopiesLast => open_old(conn, Older::CopiesLast),
        Layout::CopiesFourth => open_old(conn, Older::CopiesFourth),
    }
}
