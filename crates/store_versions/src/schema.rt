//! Checks whether the tables of a database are those of version 2, or of version 1 in either order, and no others.
ghost use Rattle.std.specs.Prelude.{◌≡◌, ◌⊎◌, ◌↔◌, [], ◌∷◌, IsTrue};
ghost use Rattle.store_tables.specs.QueueTable.{outgoing as the_outgoing};
ghost use Rattle.store_tables.specs.ReplyTable.{reply as the_reply};
ghost use Rattle.store_tables.specs.NoticeTable.{notice as the_notice};
ghost use Rattle.store_tables.specs.MessageTable.{message as the_message};
ghost use Rattle.store_tables.specs.Schema.{the_keys, the_indexes};
ghost use Rattle.store_versions.specs.OldSchema.{old_copy, old_schema, oldest_schema};
ghost use Rattle.store_versions.specs.SecondSchema.{second_copy, second_tables, IsSecondSchema};

use sqlite_schema::schema::{Index, Kind, Schema, Table};
use store_tables::schema::{
    Parents, are_all, are_indexes, are_keys, is_account, is_message, is_meta, is_notice,
    is_outgoing, is_reply, is_script, is_table, key_of, needed,
};

/// Whether this is the table of version 1's copies.
fn is_old_copy(table: &Table, tree: u32) -> bool
    ensures { IsTrue result ↔ (table.now ≡ old_copy tree) }
{
    let forms = [
        needed(b"owner", Kind::Blob),
        needed(b"folder", Kind::Blob),
        needed(b"n", Kind::Integer),
        needed(b"message", Kind::Blob),
    ];
    is_table(table, b"copy", tree, &[1, 2, 3], Parents::Account, &forms)
}

fn are_last(tables: &[Table]) -> bool
    ensures { IsTrue result ↔ (tables.now ≡ the_outgoing ∷ the_reply ∷ the_notice ∷ old_copy 12 ∷ []) }
{
    let [outgoing, reply, notice, copy] = tables else {
        return false;
    };
    is_outgoing(outgoing, 6) && is_reply(reply, 8) && is_notice(notice, 10) && is_old_copy(copy, 12)
}

fn are_after_copy(tables: &[Table]) -> bool
    ensures { IsTrue result ↔ (tables.now ≡ old_copy 6 ∷ record the_outgoing { tree = 8 } ∷ record the_reply { tree = 10 } ∷ record the_notice { tree = 12 } ∷ []) }
{
    let [copy, outgoing, reply, notice] = tables else {
        return false;
    };
    is_old_copy(copy, 6) && is_outgoing(outgoing, 8) && is_reply(reply, 10) && is_notice(notice, 12)
}

fn are_old_tables(tables: &[Table]) -> bool
    ensures { IsTrue result ↔ (tables.now ≡ old_schema.tables) }
{
    let [meta, account, script, others @ ..] = tables else {
        return false;
    };
    is_meta(meta) && is_account(account) && is_script(script) && are_last(others)
}

fn are_oldest_tables(tables: &[Table]) -> bool
    ensures { IsTrue result ↔ (tables.now ≡ oldest_schema.tables) }
{
    let [meta, account, script, others @ ..] = tables else {
        return false;
    };
    is_meta(meta) && is_account(account) && is_script(script) && are_after_copy(others)
}

fn are_old_keys(indexes: &[Index]) -> bool
    ensures { IsTrue result ↔ (indexes.now ≡ old_schema.indexes) }
{
    let forms = [
        key_of(b"sqlite_autoindex_meta_1", 1, 0, &[1]),
        key_of(b"sqlite_autoindex_account_1", 3, 2, &[1]),
        key_of(b"sqlite_autoindex_script_1", 5, 4, &[1, 2]),
        key_of(b"sqlite_autoindex_outgoing_1", 7, 6, &[1, 2]),
        key_of(b"sqlite_autoindex_reply_1", 9, 8, &[1, 2, 3]),
        key_of(b"sqlite_autoindex_notice_1", 11, 10, &[1, 2]),
        key_of(b"sqlite_autoindex_copy_1", 13, 12, &[1, 2, 3]),
    ];
    are_indexes(indexes, &forms)
}

fn are_oldest_keys(indexes: &[Index]) -> bool
    ensures { IsTrue result ↔ (indexes.now ≡ oldest_schema.indexes) }
{
    let forms = [
        key_of(b"sqlite_autoindex_meta_1", 1, 0, &[1]),
        key_of(b"sqlite_autoindex_account_1", 3, 2, &[1]),
        key_of(b"sqlite_autoindex_script_1", 5, 4, &[1, 2]),
        key_of(b"sqlite_autoindex_copy_1", 7, 6, &[1, 2, 3]),
        key_of(b"sqlite_autoindex_outgoing_1", 9, 8, &[1, 2]),
        key_of(b"sqlite_autoindex_reply_1", 11, 10, &[1, 2, 3]),
        key_of(b"sqlite_autoindex_notice_1", 13, 12, &[1, 2]),
    ];
    are_indexes(indexes, &forms)
}

/// Whether these are the tables and indexes of version 1 with the copies last, and nothing else.
pub(crate) fn is_old(schema: &Schema) -> bool
    ensures { IsTrue result ↔ (schema.now ≡ old_schema) }
{
    are_old_tables(schema.tables.as_slice())
        && are_old_keys(schema.indexes.as_slice())
        && schema.views.is_empty()
}

/// Whether these are the tables and indexes of version 1 with the copies fourth, and nothing else.
pub(crate) fn is_oldest(schema: &Schema) -> bool
    ensures { IsTrue result ↔ (schema.now ≡ oldest_schema) }
{
    are_oldest_tables(schema.tables.as_slice())
        && are_oldest_keys(schema.indexes.as_slice())
        && schema.views.is_empty()
}

/// Whether this is the table of version 2's copies.
fn is_second_copy(table: &Table) -> bool
    ensures { IsTrue result ↔ (table.now ≡ second_copy) }
{
    let forms = [
        needed(b"owner", Kind::Blob),
        needed(b"folder", Kind::Blob),
        needed(b"n", Kind::Integer),
        needed(b"id", Kind::Integer),
    ];
    let parents = Parents::AccountAndMessage;
    is_table(table, b"copy", 14, &[1, 2, 3], parents, &forms)
}

fn are_second_folders(tables: &[Table]) -> bool
    ensures { IsTrue result ↔ (tables.now ≡ the_message ∷ second_copy ∷ []) }
{
    let [message, copy] = tables else {
        return false;
    };
    is_message(message) && is_second_copy(copy)
}

fn are_second_last(tables: &[Table]) -> bool
    ensures { IsTrue result ↔ (tables.now ≡ the_outgoing ∷ the_reply ∷ the_notice ∷ the_message ∷ second_copy ∷ []) }
{
    let [outgoing, reply, notice, others @ ..] = tables else {
        return false;
    };
    is_outgoing(outgoing, 6)
        && is_reply(reply, 8)
        && is_notice(notice, 10)
        && are_second_folders(others)
}

fn are_second_tables(tables: &[Table]) -> bool
    ensures { IsTrue result ↔ (tables.now ≡ second_tables) }
{
    let [meta, account, script, others @ ..] = tables else {
        return false;
    };
    is_meta(meta) && is_account(account) && is_script(script) && are_second_last(others)
}

/// Whether these are the indexes of the tables' keys, with the one of the copies by their messages or without it.
fn are_second_indexes(indexes: &[Index]) -> bool
    ensures { IsTrue result ↔ (indexes.now ≡ the_indexes) ⊎ (indexes.now ≡ the_keys) }
{
    are_all(indexes) || are_keys(indexes)
}

/// Whether these are the tables and indexes of version 2, and nothing else. The index of the copies by their messages may be
/// absent.
pub(crate) fn is_second(schema: &Schema) -> bool
    ensures { IsTrue result ↔ IsSecondSchema schema.now }
{
    are_second_tables(schema.tables.as_slice())
        && are_second_indexes(schema.indexes.as_slice())
        && schema.views.is_empty()
}
