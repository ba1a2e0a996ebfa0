//! Calls of a store that only sessions and deliveries make in the program.
use crate::answer::add_word_line;
use mail_flags::Placement;
use octets::{List, Octets, Texts};
use sqlite::MemStore;
use std::alloc::{AllocError, Global};
use store_accounts::{
    KeptReply, Plan, Profile, QueuedMessage, Report, SentMemory, Store, VacationReply,
    VacationReport,
};
use store_engine::Refusal;
use test_files::LinePart::{Number, Text};
use test_files::{add_parts, decode_cell, split_at_first, trim_end};

/// Gives a script another name: the note has both.
pub fn rename(store: &mut Store<MemStore>, user: &[u8], note: &str) -> Result<(), Refusal> {
    let (_, names) = split_at_first(note, " ");
    let (name, other) = split_at_first(names, " ");
    store.rename(user, name.as_bytes(), other.as_bytes())
}

/// Writes a delivery of this message: it joins INBOX and `a`, goes on to carol, is answered, and leaves a notice.
pub fn commit(
    alloc: Global,
    store: &mut Store<MemStore>,
    user: &[u8],
    text: &str,
) -> Result<(), Refusal> {
    let message = decode_cell(alloc, text)?;
    let plan = Plan {
        message: message.as_slice(),
        sender: b"bob@example.net",
        moment: 1_800_000_000,
        filed: copies(alloc)?,
        report: whole_report(alloc)?,
        memory: SentMemory::none(alloc),
        reply: Some(reply(alloc)?),
    };
    store.commit_delivery(user, &plan)
}

/// A copy with two flags, and one without.
fn copies(alloc: Global) -> Result<List<Placement>, AllocError> {
    let mut copies = List::new(alloc);
    copies.push(Placement {
        mailbox: Octets::from_slice(alloc, b"INBOX")?,
        flags: Octets::from_slice(alloc, b"\\Seen work")?,
    })?;
    copies.push(Placement {
        mailbox: Octets::from_slice(alloc, b"a")?,
        flags: Octets::new(alloc),
    })?;
    Ok(copies)
}

/// A report that tells of everything that a delivery can write.
fn whole_report(alloc: Global) -> Result<Report, AllocError> {
    let notice = Octets::from_slice(alloc, b"a notice")?;
    let filed = texts(alloc, &[b"INBOX", b"a"])?;
    let sent = texts(alloc, &[b"carol@example.com"])?;
    Ok(Report {
        filed,
        sent,
        vacation: VacationReport::Sent,
        notice: Some(notice),
    })
}

fn reply(alloc: Global) -> Result<VacationReply, AllocError> {
    let handle = Octets::from_slice(alloc, b"handle")?;
    let message = Octets::from_slice(alloc, b"Away.")?;
    Ok(VacationReply {
        handle,
        message,
        moment: 1_800_000_000,
    })
}

fn texts(alloc: Global, items: &[&[u8]]) -> Result<Texts, AllocError> {
    let mut texts = Texts::new(alloc);
    for item in items {
        texts.push(Octets::from_slice(alloc, item)?)?;
    }
    Ok(texts)
}

/// Appends the address of the account and the name of its active script, or `none`.
pub fn add_profile(
    store: &mut Store<MemStore>,
    out: &mut Octets,
    user: &[u8],
) -> Result<(), Refusal> {
    let profile = store.account(user)?;
    Ok(add_address(out, profile.as_ref())?)
}

fn add_address(out: &mut Octets, profile: Option<&Profile>) -> Result<(), AllocError> {
    let Some(profile) = profile else {
        return add_word_line(out, b"", b"none");
    };
    add_parts(out, &[Text(profile.address.as_slice()), Text(b" ")])?;
    match &profile.active {
        Some(name) => add_word_line(out, b"active ", name.as_slice()),
        None => add_word_line(out, b"", b"none"),
    }
}

/// Appends the rows of the queue, each with its message.
pub fn add_rows(store: &mut Store<MemStore>, out: &mut Octets, user: &[u8]) -> Result<(), Refusal> {
    let rows = store.queue(user)?;
    Ok(add_letters(out, rows.as_slice())?)
}

fn add_letters(out: &mut Octets, rows: &[QueuedMessage]) -> Result<(), AllocError> {
    for row in rows {
        add_parts(
            out,
            &[
                Number(row.id),
                Text(b" "),
                Text(row.sender.as_slice()),
                Text(b" "),
                Text(row.target.as_slice()),
                Text(b" "),
                Text(row.message.as_slice()),
                Text(b"\n"),
            ],
        )?;
    }
    Ok(())
}

/// Appends when the sender was answered, under each handle.
pub fn add_replies(
    store: &mut Store<MemStore>,
    out: &mut Octets,
    user: &[u8],
    sender: &[u8],
) -> Result<(), Refusal> {
    let replies = store.replies(user, sender)?;
    Ok(add_moments(out, replies.as_slice())?)
}

fn add_moments(out: &mut Octets, replies: &[KeptReply]) -> Result<(), AllocError> {
    for reply in replies {
        add_parts(
            out,
            &[
                Number(reply.moment),
                Text(b" "),
                Text(reply.handle.as_slice()),
                Text(b"\n"),
            ],
        )?;
    }
    Ok(())
}

/// Appends when the sender was answered under the handle's key that the text is, or `none`.
pub fn add_moment(
    alloc: Global,
    store: &mut Store<MemStore>,
    out: &mut Octets,
    user: &[u8],
    sender: &[u8],
    text: &str,
) -> Result<(), Refusal> {
    let handle = decode_cell(alloc, text)?;
    let moment = store.last_reply(user, trim_end(handle.as_slice()), sender)?;
    Ok(match moment {
        Some(moment) => add_parts(out, &[Number(moment), Text(b"\n")])?,
        None => add_word_line(out, b"", b"none")?,
    })
}
