//! What a store has, as a text: the rows of its tables.
use octets::Octets;
use sqlite::{Alter, Connection, Row};
use sqlite_value::value::ValueRef;
use std::alloc::{AllocError, Global};
use test_files::LinePart::{Number, Text};
use test_files::add_parts;

/// All rows, by their tables.
pub const ALL: [&str; 8] = [
    "SELECT item, value FROM meta",
    "SELECT name, address, salt, rounds, digest, active, next_copy, next_out, next_notice FROM account",
    "SELECT owner, name, text FROM script",
    "SELECT owner, id, kind, sender, target, message FROM outgoing",
    "SELECT owner, handle, sender, moment FROM reply",
    "SELECT owner, id, moment, text FROM notice",
    "SELECT owner, id, bytes FROM message",
    "SELECT owner, folder, n, id, flags FROM copy",
];

/// The row of the version.
pub const VERSION: [&str; 1] = ["SELECT value FROM meta"];

/// The rows that queries give, in their order; none if one fails.
pub fn find_rows<S: Alter>(
    alloc: Global,
    conn: &mut Connection<S>,
    queries: &[&str],
) -> Option<Octets> {
    let mut out = Octets::new(alloc);
    for query in queries {
        let rows = conn.query_all(query, &[]).ok()?;
        add_rows(&mut out, &rows).ok()?;
    }
    Some(out)
}

fn add_rows(out: &mut Octets, rows: &[Row]) -> Result<(), AllocError> {
    out.extend_from_slice(b"table\n")?;
    for row in rows {
        add_row(out, row)?;
    }
    Ok(())
}

fn add_row(out: &mut Octets, row: &Row) -> Result<(), AllocError> {
    for at in 0..row.column_count() {
        if let Ok(value) = row.get_ref(at) {
            add_value(out, value)?;
        }
    }
    out.extend_from_slice(b"\n")
}

fn add_value(out: &mut Octets, value: ValueRef<'_>) -> Result<(), AllocError> {
    match value {
        ValueRef::Null | ValueRef::Real(_) => add_parts(out, &[Text(b"none ")]),
        ValueRef::Int(number) => add_parts(
            out,
            &[Number(u64::try_from(number).unwrap_or(0)), Text(b" ")],
        ),
        ValueRef::Text(text) | ValueRef::Blob(text) => {
            add_parts(out, &[Text(b"<"), Text(text), Text(b"> ")])
        }
    }
}
