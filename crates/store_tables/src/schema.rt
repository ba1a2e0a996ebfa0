//! Checks whether the tables of a database are ours: those that the SQL texts in `table.rt` make, and no others.
ghost use Rattle.std.specs.Prelude.{◌≡◌, ◌↔◌, true, [], ◌∷◌, map, IsTrue};
ghost use Rattle.sqlite_value.specs.Keys.{plain};
ghost use Rattle.store_tables.specs.Forms.{needed, maybe, keyed};
ghost use Rattle.store_tables.specs.Schema as spec;
ghost use Rattle.store_tables.specs.MetaTable as meta_table;
ghost use Rattle.store_tables.specs.AccountTable as account_table;
ghost use Rattle.store_tables.specs.ScriptTable as script_table;
ghost use Rattle.store_tables.specs.QueueTable as queue_table;
ghost use Rattle.store_tables.specs.ReplyTable as reply_table;
ghost use Rattle.store_tables.specs.NoticeTable as notice_table;
ghost use Rattle.store_tables.specs.MessageTable as message_table;
ghost use Rattle.store_tables.specs.CopyTable as copy_table;

use sqlite_items::Items;
use sqlite_schema::schema::{Action, Column, Index, Kind, Reference, Schema, Table};
use sqlite_value::keys::{Collation, Order};
use sqlite_value::value::{Bytes, Value};

/// A column without a default, whose texts are compared octet by octet.
#[derive(Clone, Copy)]
pub struct Form<'a> {
    pub name: &'a [u8],
    pub kind: Kind,
    pub not_null: bool,
}

pub fn needed(name: &[u8], kind: Kind) -> Form<'_>
    ensures { spec.column_of result ≡ needed name.now kind }
{
    Form {
        name,
        kind,
        not_null: true,
    }
}

fn maybe(name: &[u8], kind: Kind) -> Form<'_>
    ensures { spec.column_of result ≡ maybe name.now kind }
{
    Form {
        name,
        kind,
        not_null: false,
    }
}

impl Form<'_> {
    fn is_of(&self, column: &Column) -> bool
        ensures { IsTrue result ↔ (column.now ≡ spec.column_of self.now) }
    {
        column.name.as_slice() == self.name
            && column.kind == self.kind
            && column.is_strict
            && column.not_null == self.not_null
            && matches!(column.default, Value::Null)
            && column.collation == Collation::Binary
    }
}

fn are_columns(mut columns: &[Column], mut forms: &[Form<'_>]) -> bool
    ensures { IsTrue result ↔ (columns.entry.now ≡ map spec.column_of forms.entry.now) }
{
    while let [form, others @ ..] = forms {
        let [column, more @ ..] = columns else {
            return false;
        };
        if !form.is_of(column) {
            return false;
        }
        columns = more;
        forms = others;
    }
    columns.is_empty()
}

fn is_only_text(texts: &[Bytes], text: &[u8]) -> bool
    ensures { IsTrue result ↔ (texts.now ≡ text.now ∷ []) }
{
    let [only] = texts else {
        return false;
    };
    only.as_slice() == text
}

fn are_two_texts(texts: &[Bytes], first: &[u8], last: &[u8]) -> bool
    ensures { IsTrue result ↔ (texts.now ≡ first.now ∷ last.now ∷ []) }
{
    let [one, other] = texts else {
        return false;
    };
    one.as_slice() == first && other.as_slice() == last
}

/// Whether this is `REFERENCES account (name)` on the first column.
fn is_to_account(reference: &Reference) -> bool
    ensures { IsTrue result ↔ (reference.now ≡ account_table.account_reference) }
{
    reference.columns.as_slice() == [1].as_slice()
        && reference.parent.as_slice() == b"account".as_slice()
        && is_only_text(reference.parent_columns.as_slice(), b"name")
        && reference.on_delete == Action::NoAction
        && reference.on_update == Action::NoAction
        && !reference.is_deferred
}

/// Whether this is `REFERENCES message (owner, id)` on the columns of a copy.
fn is_to_message(reference: &Reference) -> bool
    ensures { IsTrue result ↔ (reference.now ≡ copy_table.message_reference) }
{
    reference.columns.as_slice() == [1, 4].as_slice()
        && reference.parent.as_slice() == b"message".as_slice()
        && are_two_texts(reference.parent_columns.as_slice(), b"owner", b"id")
        && reference.on_delete == Action::NoAction
        && reference.on_update == Action::NoAction
        && !reference.is_deferred
}

/// The tables that the rows of a table refer to.
#[derive(Clone, Copy)]
pub enum Parents {
    Nothing,
    Account,
    AccountAndMessage,
}

/// Whether these are the references to the parents.
fn refer(references: &[Reference], parents: Parents) -> bool
    ensures { IsTrue result ↔ (references.now ≡ spec.references_to parents) }
{
    match (parents, references) {
        (Parents::Nothing, []) => true,
        (Parents::Account, [account]) => is_to_account(account),
        (Parents::AccountAndMessage, [account, message]) => {
            is_to_account(account) && is_to_message(message)
        }
        _ => false,
    }
}

fn is_only_key(keys: &[Items<usize>], key: &[usize]) -> bool
    ensures { IsTrue result ↔ (keys.now ≡ key.now ∷ []) }
{
    let [only] = keys else {
        return false;
    };
    only.as_slice() == key
}

fn is_plain(orders: &[Order]) -> bool
    ensures { IsTrue result ↔ (orders.now ≡ plain ∷ []) }
{
    let [only] = orders else {
        return false;
    };
    only.digits == 0
}

/// Whether the table's only key is its primary key, of these columns, in the plain order.
fn has_one_key(table: &Table, primary: &[usize]) -> bool
    ensures { IsTrue result ↔ (table.now.primary ≡ primary.now) × (table.now.uniques ≡ primary.now ∷ []) × (table.now.orders ≡ plain ∷ []) }
{
    table.primary.as_slice() == primary
        && is_only_key(table.uniques.as_slice(), primary)
        && is_plain(table.orders.as_slice())
}

/// Whether the table has no constraint but those of its columns, its key and its references.
fn has_no_other_rule(table: &Table) -> bool
    ensures { IsTrue result ↔ spec.HasNoOtherRule table.now }
{
    table.key.is_none()
        && table.checks.roots.is_empty()
        && table.computed.is_empty()
        && table.stamps.places.is_empty()
        && table.stamps.terms.roots.is_empty()
        && table.stamps.formats.is_empty()
        && !table.is_counted
}

/// Whether the table has this name, tree, key, columns and references.
pub fn is_table(
    table: &Table,
    name: &[u8],
    tree: u32,
    primary: &[usize],
    parents: Parents,
    forms: &[Form<'_>],
) -> bool
    ensures { IsTrue result ↔ (table.now ≡ keyed name.now tree primary.now (spec.references_to parents) (map spec.column_of forms.now)) }
{
    table.name.as_slice() == name
        && table.tree == tree
        && has_one_key(table, primary)
        && refer(table.references.as_slice(), parents)
        && are_columns(table.columns.as_slice(), forms)
        && has_no_other_rule(table)
}

pub fn is_meta(table: &Table) -> bool
    ensures { IsTrue result ↔ (table.now ≡ meta_table.meta) }
{
    let forms = [needed(b"item", Kind::Text), needed(b"value", Kind::Integer)];
    is_table(table, b"meta", 0, &[1], Parents::Nothing, &forms)
}

pub fn is_account(table: &Table) -> bool
    ensures { IsTrue result ↔ (table.now ≡ account_table.account) }
{
    let forms = [
        needed(b"name", Kind::Blob),
        needed(b"address", Kind::Blob),
        needed(b"salt", Kind::Blob),
        needed(b"rounds", Kind::Integer),
        needed(b"digest", Kind::Blob),
        maybe(b"active", Kind::Blob),
        needed(b"next_copy", Kind::Integer),
        needed(b"next_out", Kind::Integer),
        needed(b"next_notice", Kind::Integer),
    ];
    is_table(table, b"account", 2, &[1], Parents::Nothing, &forms)
}

pub fn is_script(table: &Table) -> bool
    ensures { IsTrue result ↔ (table.now ≡ script_table.script) }
{
    let forms = [
        needed(b"owner", Kind::Blob),
        needed(b"name", Kind::Blob),
        needed(b"text", Kind::Blob),
    ];
    is_table(table, b"script", 4, &[1, 2], Parents::Account, &forms)
}

pub fn is_outgoing(table: &Table, tree: u32) -> bool
    ensures { IsTrue result ↔ (table.now ≡ record queue_table.outgoing { tree = tree }) }
{
    let forms = [
        needed(b"owner", Kind::Blob),
        needed(b"id", Kind::Integer),
        needed(b"kind", Kind::Integer),
        needed(b"sender", Kind::Blob),
        needed(b"target", Kind::Blob),
        needed(b"message", Kind::Blob),
    ];
    is_table(table, b"outgoing", tree, &[1, 2], Parents::Account, &forms)
}

pub fn is_reply(table: &Table, tree: u32) -> bool
    ensures { IsTrue result ↔ (table.now ≡ record reply_table.reply { tree = tree }) }
{
    let forms = [
        needed(b"owner", Kind::Blob),
        needed(b"handle", Kind::Blob),
        needed(b"sender", Kind::Blob),
        needed(b"moment", Kind::Integer),
    ];
    is_table(table, b"reply", tree, &[1, 2, 3], Parents::Account, &forms)
}

pub fn is_notice(table: &Table, tree: u32) -> bool
    ensures { IsTrue result ↔ (table.now ≡ record notice_table.notice { tree = tree }) }
{
    let forms = [
        needed(b"owner", Kind::Blob),
        needed(b"id", Kind::Integer),
        needed(b"moment", Kind::Integer),
        needed(b"text", Kind::Blob),
    ];
    is_table(table, b"notice", tree, &[1, 2], Parents::Account, &forms)
}

pub fn is_message(table: &Table) -> bool
    ensures { IsTrue result ↔ (table.now ≡ message_table.message) }
{
    let forms = [
        needed(b"owner", Kind::Blob),
        needed(b"id", Kind::Integer),
        needed(b"bytes", Kind::Blob),
    ];
    is_table(table, b"message", 12, &[1, 2], Parents::Account, &forms)
}

fn is_copy(table: &Table) -> bool
    ensures { IsTrue result ↔ (table.now ≡ copy_table.copy) }
{
    let forms = [
        needed(b"owner", Kind::Blob),
        needed(b"folder", Kind::Blob),
        needed(b"n", Kind::Integer),
        needed(b"id", Kind::Integer),
        needed(b"flags", Kind::Blob),
    ];
    let parents = Parents::AccountAndMessage;
    is_table(table, b"copy", 14, &[1, 2, 3], parents, &forms)
}

fn are_folders(tables: &[Table]) -> bool
    ensures { IsTrue result ↔ (tables.now ≡ message_table.message ∷ copy_table.copy ∷ []) }
{
    let [message, copy] = tables else {
        return false;
    };
    is_message(message) && is_copy(copy)
}

fn are_last(tables: &[Table]) -> bool
    ensures { IsTrue result ↔ (tables.now ≡ queue_table.outgoing ∷ reply_table.reply ∷ notice_table.notice ∷ message_table.message ∷ copy_table.copy ∷ []) }
{
    let [outgoing, reply, notice, others @ ..] = tables else {
        return false;
    };
    is_outgoing(outgoing, 6) && is_reply(reply, 8) && is_notice(notice, 10) && are_folders(others)
}

fn are_tables(tables: &[Table]) -> bool
    ensures { IsTrue result ↔ (tables.now ≡ spec.the_tables) }
{
    let [meta, account, script, others @ ..] = tables else {
        return false;
    };
    is_meta(meta) && is_account(account) && is_script(script) && are_last(others)
}

/// The index of the one key of a table, by the trees of the two.
#[derive(Clone, Copy)]
pub struct KeyForm<'a> {
    pub name: &'a [u8],
    pub tree: u32,
    pub table: u32,
    pub places: &'a [usize],
}

pub fn key_of<'a>(name: &'a [u8], tree: u32, table: u32, places: &'a [usize]) -> KeyForm<'a>
    ensures { spec.index_of result ≡ record { name = name.now; tree = tree; table = table; columns = places.now; order = plain; is_unique = true } }
{
    KeyForm {
        name,
        tree,
        table,
        places,
    }
}

impl KeyForm<'_> {
    fn is_of(&self, index: &Index) -> bool
        ensures { IsTrue result ↔ (index.now ≡ spec.index_of self.now) }
    {
        index.name.as_slice() == self.name
            && index.tree == self.tree
            && index.table == self.table
            && index.columns.as_slice() == self.places
            && index.order == Order::PLAIN
            && index.is_unique
    }
}

pub fn are_indexes(mut indexes: &[Index], mut forms: &[KeyForm<'_>]) -> bool
    ensures { IsTrue result ↔ (indexes.entry.now ≡ map spec.index_of forms.entry.now) }
{
    while let [form, others @ ..] = forms {
        let [index, more @ ..] = indexes else {
            return false;
        };
        if !form.is_of(index) {
            return false;
        }
        indexes = more;
        forms = others;
    }
    indexes.is_empty()
}

/// Whether these are the indexes of the tables' keys.
pub fn are_keys(indexes: &[Index]) -> bool
    ensures { IsTrue result ↔ (indexes.now ≡ spec.the_keys) }
{
    let forms = [
        key_of(b"sqlite_autoindex_meta_1", 1, 0, &[1]),
        key_of(b"sqlite_autoindex_account_1", 3, 2, &[1]),
        key_of(b"sqlite_autoindex_script_1", 5, 4, &[1, 2]),
        key_of(b"sqlite_autoindex_outgoing_1", 7, 6, &[1, 2]),
        key_of(b"sqlite_autoindex_reply_1", 9, 8, &[1, 2, 3]),
        key_of(b"sqlite_autoindex_notice_1", 11, 10, &[1, 2]),
        key_of(b"sqlite_autoindex_message_1", 13, 12, &[1, 2]),
        key_of(b"sqlite_autoindex_copy_1", 15, 14, &[1, 2, 3]),
    ];
    are_indexes(indexes, &forms)
}

/// Whether this is the index of the copies by their messages.
fn is_copy_message(index: &Index) -> bool
    ensures { IsTrue result ↔ (index.now ≡ copy_table.copy_message) }
{
    index.name.as_slice() == b"copy_message".as_slice()
        && index.tree == 16
        && index.table == 14
        && index.columns.as_slice() == [1, 4].as_slice()
        && index.order == Order::PLAIN
        && !index.is_unique
}

/// Whether these are the indexes of the tables' keys and that of the copies by their messages.
pub fn are_all(indexes: &[Index]) -> bool
    ensures { IsTrue result ↔ (indexes.now ≡ spec.the_indexes) }
{
    let [keys @ .., last] = indexes else {
        return false;
    };
    are_keys(keys) && is_copy_message(last)
}

/// Whether these are our tables and indexes, and nothing else.
pub fn is_ours(schema: &Schema) -> bool
    ensures { IsTrue result ↔ spec.IsOurSchema schema.now }
{
    are_tables(schema.tables.as_slice())
        && are_all(schema.indexes.as_slice())
        && schema.views.is_empty()
}
