//! What is asked of a store, and done to it, beside events.
use crate::answer::{add_refusal, add_word_line};
use crate::call::{add_moment, add_profile, add_replies, add_rows, commit, rename};
use crate::event::PASSWORD;
use crate::place::{add_next_filed, add_next_queued, add_numbers, number_in};
use cli_reports::{list_queue, list_user_notices};
use octets::{Octets, Texts};
use sasl_plain::digest;
use sqlite::MemStore;
use std::alloc::{AllocError, Global};
use store_accounts::{Folder, NumberedMessage, Store};
use store_engine::Refusal;
use test_files::LinePart::{Number, Text};
use test_files::{CaseTally, Section, add_parts, decode_cell, split_at_first, trim_end};

/// Asks the store what a section asks, and appends what it says.
pub fn ask(
    alloc: Global,
    tally: &mut CaseTally,
    store: &mut Store<MemStore>,
    out: &mut Octets,
    section: &Section<'_>,
) -> Result<(), AllocError> {
    let (user, word) = split_at_first(section.note, " ");
    let (user, name) = (user.as_bytes(), word.as_bytes());
    let asked = match section.name {
        "account" => add_account(alloc, store, user, section.text),
        "put" => put(alloc, store, user, name, section.text),
        "activate" => store.set_active(user, Some(name)),
        "delete" => store.delete(user, name),
        "rename" => rename(store, user, section.note),
        "commit" => commit(alloc, store, user, section.text),
        "dequeue" => store.take_out(user, number_in(word)),
        "profile" => add_profile(store, out, user),
        "rows" => add_rows(store, out, user),
        "replies" => add_replies(store, out, user, name),
        "answered" => add_moment(alloc, store, out, user, name, section.text),
        "text" => add_script(store, out, user, name),
        "scripts" => add_scripts(store, out, user),
        "folder" => add_folder(store, out, user, name),
        "folders" => add_folders(store, out, user),
        "first" => add_first(store, out, user, name),
        "queue" => add_queue(alloc, store, out, user),
        "notices" => add_notices(alloc, store, out, user),
        "numbers" => add_numbers(store, out, user, name),
        "filed" => add_next_filed(alloc, store, out, section.note),
        "queued" => add_next_queued(alloc, store, out, section.note),
        _ => return tally.skip(section, &[]),
    };
    match asked {
        Ok(()) => Ok(()),
        Err(refusal) => add_refusal(alloc, out, refusal),
    }
}

fn add_account(
    alloc: Global,
    store: &mut Store<MemStore>,
    user: &[u8],
    address: &str,
) -> Result<(), Refusal> {
    let address = decode_cell(alloc, address)?;
    let digest = digest(b"salt", 1, PASSWORD);
    store.add_user(user, trim_end(address.as_slice()), b"salt", 1, &digest)
}

fn put(
    alloc: Global,
    store: &mut Store<MemStore>,
    user: &[u8],
    name: &[u8],
    text: &str,
) -> Result<(), Refusal> {
    let text = decode_cell(alloc, text)?;
    store.put_script(user, name, text.as_slice())
}

/// Appends the text of a script, or `none`.
fn add_script(
    store: &mut Store<MemStore>,
    out: &mut Octets,
    user: &[u8],
    name: &[u8],
) -> Result<(), Refusal> {
    let script = store.script(user, name)?;
    Ok(add_text(out, script.as_ref())?)
}

fn add_text(out: &mut Octets, text: Option<&Octets>) -> Result<(), AllocError> {
    match text {
        Some(text) => add_word_line(out, b"text ", text.as_slice()),
        None => add_word_line(out, b"", b"none"),
    }
}

/// Appends the names of the scripts, a line each.
fn add_scripts(store: &mut Store<MemStore>, out: &mut Octets, user: &[u8]) -> Result<(), Refusal> {
    let names = store.scripts(user)?;
    Ok(add_lines(out, &names)?)
}

fn add_lines(out: &mut Octets, texts: &Texts) -> Result<(), AllocError> {
    for text in texts.as_slice() {
        add_word_line(out, b"", text.as_slice())?;
    }
    Ok(())
}

/// Appends how many messages the folder has, and each of them.
fn add_folder(
    store: &mut Store<MemStore>,
    out: &mut Octets,
    user: &[u8],
    name: &[u8],
) -> Result<(), Refusal> {
    let messages = store.folder(user, name)?;
    Ok(add_messages(out, &messages)?)
}

fn add_messages(out: &mut Octets, messages: &Texts) -> Result<(), AllocError> {
    add_parts(out, &[Number(messages.len() as u64), Text(b"\n")])?;
    add_lines(out, messages)
}

/// Appends the number of the folder's first message, the message and, if it has some, a line with its flags; or `none`.
fn add_first(
    store: &mut Store<MemStore>,
    out: &mut Octets,
    user: &[u8],
    name: &[u8],
) -> Result<(), Refusal> {
    let first = store.first_message(user, name)?;
    Ok(add_numbered(out, first.as_ref())?)
}

fn add_numbered(out: &mut Octets, first: Option<&NumberedMessage>) -> Result<(), AllocError> {
    match first {
        Some(first) => {
            let message = Text(first.message.as_slice());
            add_parts(
                out,
                &[Number(first.number), Text(b" "), message, Text(b"\n")],
            )?;
            add_flags(out, first.flags.as_slice())
        }
        None => add_word_line(out, b"", b"none"),
    }
}

/// Appends a line with a message's flags, if it has some.
fn add_flags(out: &mut Octets, flags: &[u8]) -> Result<(), AllocError> {
    if flags.is_empty() {
        return Ok(());
    }
    add_word_line(out, b"flags ", flags)
}

/// Appends a line `NAME COUNT` for each folder.
fn add_folders(store: &mut Store<MemStore>, out: &mut Octets, user: &[u8]) -> Result<(), Refusal> {
    let folders = store.folders(user)?;
    Ok(add_counts(out, folders.as_slice())?)
}

fn add_counts(out: &mut Octets, folders: &[Folder]) -> Result<(), AllocError> {
    for folder in folders {
        add_parts(
            out,
            &[
                Text(folder.name.as_slice()),
                Text(b" "),
                Number(folder.count),
                Text(b"\n"),
            ],
        )?;
    }
    Ok(())
}

/// Appends the rows of the queue, a line each.
fn add_queue(
    alloc: Global,
    store: &mut Store<MemStore>,
    out: &mut Octets,
    user: &[u8],
) -> Result<(), Refusal> {
    let rows = store.queue_heads(user)?;
    let listing = list_queue(alloc, rows.as_slice())?;
    Ok(out.extend_from_slice(listing.as_slice())?)
}

/// Appends the notices, a line each.
fn add_notices(
    alloc: Global,
    store: &mut Store<MemStore>,
    out: &mut Octets,
    user: &[u8],
) -> Result<(), Refusal> {
    let notices = store.notices(user)?;
    let listing = list_user_notices(alloc, notices.as_slice())?;
    Ok(out.extend_from_slice(listing.as_slice())?)
}
