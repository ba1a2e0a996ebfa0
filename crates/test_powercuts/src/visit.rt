//! A database that is opened over files, and what comes of it.
use crate::image::CutFiles;
use crate::rows::{ALL, VERSION, find_rows};
use octets::Octets;
use sqlite::{Alter, Connection, Options};
use sqlite_disk::Disk;
use std::alloc::Global;
use store_accounts::Store;
use store_engine::{Answer, Event, Progress, RunAnswers, World, run};

/// What is to happen in a database.
#[derive(Clone, Copy)]
pub enum Errand<'a> {
    /// Statements, whatever the database is.
    Make(&'a [&'a str]),
    /// The store is opened, and then events happen in it.
    Change(&'a [Event]),
    /// It is opened, and read.
    Look,
}

/// What came of it.
#[derive(Drop)]
pub struct Visit {
    /// Whether all was done: each event was answered, and the last one not refused.
    pub is_done: bool,
    /// The version that was found, and the rows of the store that was opened, if it was looked at.
    pub shown: Option<Octets>,
}

/// Opens a database over files, does there what is to be done, and gives the files back as they are then, without closing it.
pub fn open_files(alloc: Global, files: CutFiles, errand: Errand<'_>) -> (Visit, CutFiles) {
    let none = Visit {
        is_done: false,
        shown: None,
    };
    if !files.may_be_used() {
        return (none, files);
    }
    match Connection::open_files(alloc, files, Options::new(1)) {
        Err((_, left)) => (none, left.into_files()),
        Ok(conn) => {
            let (visit, store) = run_errand(alloc, conn, errand);
            (visit, store.close())
        }
    }
}

/// Does what is to be done, and gives the store of the connection back. No other generic code is called at a store over a file.
fn run_errand<S: Alter + Drop>(
    alloc: Global,
    conn: Connection<S>,
    errand: Errand<'_>,
) -> (Visit, S) {
    let (visit, conn) = visited(alloc, conn, errand);
    let store = conn.into_store();
    (visit, store)
}

fn visited<S: Alter>(
    alloc: Global,
    conn: Connection<S>,
    errand: Errand<'_>,
) -> (Visit, Connection<S>) {
    match errand {
        Errand::Make(texts) => make(conn, texts),
        Errand::Change(events) => change(alloc, conn, events),
        Errand::Look => look(alloc, conn),
    }
}

fn make<S: Alter>(conn: Connection<S>, texts: &[&str]) -> (Visit, Connection<S>) {
    let mut conn = conn;
    let mut is_done = true;
    for text in texts {
        is_done = is_done && conn.execute_batch(text).is_ok();
    }
    (
        Visit {
            is_done,
            shown: None,
        },
        conn,
    )
}

fn look<S: Alter>(alloc: Global, conn: Connection<S>) -> (Visit, Connection<S>) {
    let mut conn = conn;
    let version = find_rows(alloc, &mut conn, &VERSION);
    let (opened, mut conn) = change(alloc, conn, &[]);
    let rows = find_rows(alloc, &mut conn, &ALL);
    let shown = if opened.is_done {
        joined(version, rows)
    } else {
        None
    };
    (
        Visit {
            is_done: opened.is_done,
            shown,
        },
        conn,
    )
}

/// What follows, after the version; none if there is none of the two.
fn joined(version: Option<Octets>, rows: Option<Octets>) -> Option<Octets> {
    let (mut all, rows) = (version?, rows?);
    all.extend_from_slice(rows.as_slice()).ok()?;
    Some(all)
}

fn change<S: Alter>(
    alloc: Global,
    conn: Connection<S>,
    events: &[Event],
) -> (Visit, Connection<S>) {
    let (is_done, conn) = match Store::open(alloc, conn) {
        Err((_, conn, _)) => (false, conn),
        Ok(store) => {
            let mut world = World::new(alloc, store);
            let ran = run(&mut world, events);
            (is_whole(&ran), world.into_store().release())
        }
    };
    (
        Visit {
            is_done,
            shown: None,
        },
        conn,
    )
}

/// Whether each event was answered, and the last one not refused.
fn is_whole(ran: &RunAnswers) -> bool {
    ran.whole && ran.answers.last().is_none_or(is_done)
}

fn is_done(answer: &Answer) -> bool {
    match answer {
        Answer::Out(Progress::Done, said) => said.as_slice().starts_with(b"OK"),
        Answer::Delivered(_)
        | Answer::Added
        | Answer::Imported
        | Answer::Taken(_)
        | Answer::MailTaken => true,
        _ => false,
    }
}
