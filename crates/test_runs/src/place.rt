//! Where messages and rows of queues are: the numbers of a folder, and the first place after one.
use crate::answer::add_word_line;
use octets::{Octets, parse_decimal};
use sqlite::MemStore;
use std::alloc::{AllocError, Global};
use store_accounts::{CopyKey, QueueKey, Store};
use store_engine::Refusal;
use test_files::LinePart::{Number, Text};
use test_files::{add_parts, split_at_first};

/// Appends the numbers of the folder's messages, a line each.
pub fn add_numbers(
    store: &mut Store<MemStore>,
    out: &mut Octets,
    user: &[u8],
    folder: &[u8],
) -> Result<(), Refusal> {
    let numbers = store.numbers(user, folder)?;
    Ok(add_each(out, numbers.as_slice())?)
}

fn add_each(out: &mut Octets, numbers: &[u64]) -> Result<(), AllocError> {
    for number in numbers {
        add_parts(out, &[Number(*number), Text(b"\n")])?;
    }
    Ok(())
}

/// Appends the first message's place after the one in the note, `USER FOLDER NUMBER`, or `none`.
pub fn add_next_filed(
    alloc: Global,
    store: &mut Store<MemStore>,
    out: &mut Octets,
    note: &str,
) -> Result<(), Refusal> {
    let start = filed_in(alloc, note)?;
    let next = store.next_filed(&start)?;
    Ok(add_filed(out, next.as_ref())?)
}

fn filed_in(alloc: Global, note: &str) -> Result<CopyKey, AllocError> {
    let (user, place) = split_at_first(note, " ");
    let (folder, number) = split_at_first(place, " ");
    Ok(CopyKey {
        user: Octets::from_slice(alloc, user.as_bytes())?,
        folder: Octets::from_slice(alloc, folder.as_bytes())?,
        number: number_in(number),
    })
}

/// The number that digits write; 0 if there are none.
pub fn number_in(digits: &str) -> u64 {
    parse_decimal(digits.as_bytes()).unwrap_or(0)
}

fn add_filed(out: &mut Octets, filed: Option<&CopyKey>) -> Result<(), AllocError> {
    match filed {
        Some(filed) => add_parts(
            out,
            &[
                Text(filed.user.as_slice()),
                Text(b" "),
                Text(filed.folder.as_slice()),
                Text(b" "),
                Number(filed.number),
                Text(b"\n"),
            ],
        ),
        None => add_word_line(out, b"", b"none"),
    }
}

/// Appends the first place of a row of a queue after the one in the note, `USER ID`, or `none`.
pub fn add_next_queued(
    alloc: Global,
    store: &mut Store<MemStore>,
    out: &mut Octets,
    note: &str,
) -> Result<(), Refusal> {
    let (user, id) = split_at_first(note, " ");
    let start = QueueKey {
        user: Octets::from_slice(alloc, user.as_bytes())?,
        id: number_in(id),
    };
    let next = store.next_queued(&start)?;
    Ok(add_queued(out, next.as_ref())?)
}

fn add_queued(out: &mut Octets, queued: Option<&QueueKey>) -> Result<(), AllocError> {
    match queued {
        Some(queued) => add_parts(
            out,
            &[
                Text(queued.user.as_slice()),
                Text(b" "),
                Number(queued.id),
                Text(b"\n"),
            ],
        ),
        None => add_word_line(out, b"", b"none"),
    }
}
