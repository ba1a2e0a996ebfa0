//! Tries the rows of `data/`: texts that are mailboxes or none, and runs over queues and a server in memory.
//!
//! Standard output has a line for each file with how many of its rows hold, and a last one with how many files do. Standard error has a
//! line for each row that doesn't, and then the exit status is 1.
#![tactic(auto)]

mod boxes;
mod letters;
mod memory_journal;
mod memory_peer;
mod memory_queue;
mod userdbs;

use boxes::Boxes;
use letters::{Changes, Holdings, Letters, Refusals};
use std::process::ExitCode;
use std::{fs, io};
use test_files::{Answers, CaseTally, try_rows};
use userdbs::Userdbs;

fn main(rt: HostRuntime) -> io::Result<ExitCode> {
    let mut failed = try_file(&rt, "mailboxes.cases", &mut Boxes)?;
    failed |= try_file(&rt, "letters.cases", &mut Letters)?;
    failed |= try_file(&rt, "refusals.cases", &mut Refusals)?;
    failed |= try_file(&rt, "holdings.cases", &mut Holdings)?;
    failed |= try_file(&rt, "changes.cases", &mut Changes)?;
    failed |= try_file(&rt, "userdbs.cases", &mut Userdbs)?;
    println!(rt; "{}", if failed { "failed" } else { "all hold" })?;
    Ok(ExitCode::from(u8::from(failed)))
}

// Tries the rows of a file. Returns whether one of them doesn't hold.
fn try_file<A: Answers>(rt: &HostRuntime, name: &str, answers: &mut A) -> io::Result<bool> {
    let file = fs::read_to_string(rt, name)?;
    let mut tally = CaseTally::new(rt.alloc());
    try_rows(rt.alloc(), &mut tally, answers, file.as_str())?;
    println!(rt; "{name}: {} hold", tally.count())?;
    for line in tally.failures().lines() {
        eprintln!(rt; "{name}:{line}")?;
    }
    Ok(!tally.failures().is_empty())
}
