//! Tries the cases of `data/` on the libraries, on the engine and on the program's runs over a store in memory, and says which rows fail.
//!
//! Standard output has a line for each file with how many of its cases hold. Standard error has a line for each case
//! that doesn't, and then the exit status is 1.
#![tactic(auto)]

mod answer;
mod asked;
mod call;
mod cut;
mod event;
mod place;
mod question;
mod run;
mod script;
mod session;
mod spare;
mod stream;
mod table;
mod talk;

use std::process::ExitCode;
use std::{fs, io};
use table::{TABLES, Table};
use test_files::CaseTally;

fn main(rt: HostRuntime) -> io::Result<ExitCode> {
    let mut status = ExitCode::SUCCESS;
    for table in TABLES {
        if !try_file(&rt, table)? {
            status = ExitCode::FAILURE;
        }
    }
    Ok(status)
}

/// Tries each case of a file, and says whether all hold.
fn try_file(rt: &HostRuntime, table: Table) -> io::Result<bool> {
    let text = fs::read_to_string(rt, table.file())?;
    try_text(rt, table, text.as_str())
}

fn try_text(rt: &HostRuntime, table: Table, text: &str) -> io::Result<bool> {
    let mut tally = CaseTally::new(rt.alloc());
    table.try_all(rt.alloc(), &mut tally, text)?;
    tell(rt, table.file(), &tally)
}

/// Tells how many cases of a file hold, and which don't; and says whether all hold.
fn tell(rt: &HostRuntime, file: &str, tally: &CaseTally) -> io::Result<bool> {
    for line in tally.failures().lines() {
        eprintln!(rt; "{file}:{line}")?;
    }
    println!(rt; "{file}: {} cases hold", tally.count())?;
    Ok(tally.failures().is_empty())
}
