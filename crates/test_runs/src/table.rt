//! The files of cases.
use crate::run::MemoryRuns;
use crate::{asked, script, session, stream};
use octets::Octets;
use std::alloc::{AllocError, Global};
use test_files::{Answers, CaseTally, try_rows};
use test_texts::TextTable;

/// A file of cases: in tables a line is a case, and its last column is what is wanted.
#[derive(Clone, Copy)]
pub enum Table {
    /// One whose answers need no store.
    Text(TextTable),
    Scripts,
    Tests,
    Sessions,
    Events,
    Asked,
    Streams,
    Runs,
    Exports,
    Devices,
}

/// All of them, in the order in which they are tried.
pub const TABLES: [Table; 30] = [
    Table::Text(TextTable::Ascii),
    Table::Text(TextTable::Addresses),
    Table::Text(TextTable::Targets),
    Table::Text(TextTable::Bare),
    Table::Text(TextTable::Spellings),
    Table::Text(TextTable::Comparisons),
    Table::Text(TextTable::Globs),
    Table::Text(TextTable::Lines),
    Table::Text(TextTable::Words),
    Table::Text(TextTable::Texts),
    Table::Text(TextTable::Tokens),
    Table::Text(TextTable::Faults),
    Table::Text(TextTable::Kept),
    Table::Text(TextTable::Items),
    Table::Text(TextTable::Replies),
    Table::Text(TextTable::Logins),
    Table::Text(TextTable::Heads),
    Table::Text(TextTable::Dates),
    Table::Text(TextTable::Flags),
    Table::Text(TextTable::AccountFiles),
    Table::Scripts,
    Table::Tests,
    Table::Sessions,
    Table::Events,
    Table::Asked,
    Table::Streams,
    Table::Runs,
    Table::Exports,
    Table::Devices,
    Table::Text(TextTable::Vacations),
];

impl Table {
    /// The file's name.
    pub fn file(self) -> &'static str {
        match self {
            Table::Text(table) => table.file(),
            Table::Scripts => "scripts.cases",
            Table::Tests => "tests.cases",
            Table::Sessions => "sessions.cases",
            Table::Events => "events.cases",
            Table::Asked => "asked.cases",
            Table::Streams => "streams.cases",
            Table::Runs => "runs.cases",
            Table::Exports => "exports.cases",
            Table::Devices => "devices.cases",
        }
    }

    /// Tries each case of the file.
    pub fn try_all(
        self,
        alloc: Global,
        tally: &mut CaseTally,
        file: &str,
    ) -> Result<(), AllocError> {
        match self {
            Table::Text(table) => table.try_all(alloc, tally, file),
            Table::Scripts | Table::Tests => script::try_script_file(alloc, tally, file),
            Table::Sessions | Table::Events => session::try_conversations(alloc, tally, file),
            Table::Runs | Table::Exports | Table::Devices => {
                try_rows(alloc, tally, &mut MemoryRuns::new(alloc)?, file)
            }
            Table::Asked | Table::Streams => try_rows(alloc, tally, &mut Rows, file),
        }
    }
}

/// The tables whose rows know nothing of each other: of one column, what the words of the command line ask for; of two,
/// streams that fail.
#[derive(Drop)]
struct Rows;

impl Answers for Rows {
    fn answer(
        &mut self,
        alloc: Global,
        out: &mut Octets,
        given: &[Octets],
    ) -> Result<(), AllocError> {
        match given {
            [words] => asked::add_asked(alloc, out, words.as_slice()),
            [call, number] => stream::answer_stream(alloc, out, call.as_slice(), number.as_slice()),
            _ => out.extend_from_slice(b"not that many columns"),
        }
    }
}
