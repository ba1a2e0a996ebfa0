//! Runs over queues in memory, with a server that sends given octets.
use crate::memory_journal::MemoryJournal;
use crate::memory_peer::MemoryPeer;
use crate::memory_queue::{MemoryQueue, QueueChange};
use octets::{Octets, parse_decimal, write_decimal};
use smtp_send::{DueMessage, SmtpClient, send_queue};
use std::alloc::{AllocError, Global};
use test_files::Answers;

/// How many octets come at once, at most: what is answered doesn't depend on that.
const PIECES: [usize; 4] = [4_096, 1, 2, 7];

/// Answers what becomes of rows: what is noted of each, `left` and the numbers of those that are left, and what was written.
///
/// The first column is what the server sends. Then each row has three: its sender, its target, its message; it is the row of user `u` with
/// the next number.
#[derive(Drop)]
pub struct Letters;

/// Answers the same of queues that refuse this many times to give a row up, as the first column says; the others are those of `Letters`.
/// After the answer comes how many seconds were waited.
#[derive(Drop)]
pub struct Refusals;

/// Answers when the store was taken and given back: what the queue noted (`trace` of `MemoryQueue`), what was noted of each row, and how many
/// seconds were waited. The columns: what the server sends, with a `~` before what comes late; after how many looks whether somebody waits
/// for the store somebody does, or nothing; how many milliseconds pass from one look at the clock to the next; how many times a row isn't
/// given up; and three of each row, as in `Letters`.
#[derive(Drop)]
pub struct Holdings;

/// Answers what becomes of rows, as `Letters` does, while another makes something else of one of them: once the store is given back after
/// that row was found. The columns: what the server sends; the number of the row; `gone`, or `other` and three columns of the row that then
/// has the number; and three of each row.
#[derive(Drop)]
pub struct Changes;

impl Answers for Letters {
    fn answer(
        &mut self,
        alloc: Global,
        out: &mut Octets,
        given: &[Octets],
    ) -> Result<(), AllocError> {
        let Some((server, rows)) = given.split_first() else {
            return Ok(());
        };
        let mut first: Option<Octets> = None;
        for most in PIECES {
            let run = Run {
                server: server.as_slice(),
                rows,
                most,
                refusals: 0,
                looks: None,
                span: 0,
            };
            let answer = run.answer(alloc)?;
            match &first {
                None => first = Some(answer.told),
                Some(other) => {
                    if *other != answer.told {
                        out.extend_from_slice(b"pieces differ: ")?;
                    }
                }
            }
        }
        match first {
            Some(answer) => out.extend_from_slice(answer.as_slice()),
            None => Ok(()),
        }
    }
}

impl Answers for Refusals {
    fn answer(
        &mut self,
        alloc: Global,
        out: &mut Octets,
        given: &[Octets],
    ) -> Result<(), AllocError> {
        let [count, server, rows @ ..] = given else {
            return Ok(());
        };
        let run = Run {
            server: server.as_slice(),
            rows,
            most: 4_096,
            refusals: parse_decimal(count.as_slice()).unwrap_or(0),
            looks: None,
            span: 0,
        };
        let answer = run.answer(alloc)?;
        out.extend_from_slice(answer.told.as_slice())?;
        out.extend_from_slice(b"; ")?;
        write_decimal(out, answer.seconds)
    }
}

impl Answers for Holdings {
    fn answer(
        &mut self,
        alloc: Global,
        out: &mut Octets,
        given: &[Octets],
    ) -> Result<(), AllocError> {
        let [server, looks, span, refusals, rows @ ..] = given else {
            return Ok(());
        };
        let run = Run {
            server: server.as_slice(),
            rows,
            most: 4_096,
            refusals: parse_decimal(refusals.as_slice()).unwrap_or(0),
            looks: parse_decimal(looks.as_slice()),
            span: parse_decimal(span.as_slice()).unwrap_or(0),
        };
        let answer = run.answer(alloc)?;
        out.extend_from_slice(answer.trace.as_slice())?;
        out.extend_from_slice(b"; ")?;
        out.extend_from_slice(answer.noted.as_slice())?;
        write_decimal(out, answer.seconds)
    }
}

impl Answers for Changes {
    fn answer(
        &mut self,
        alloc: Global,
        out: &mut Octets,
        given: &[Octets],
    ) -> Result<(), AllocError> {
        let [server, number, kind, others @ ..] = given else {
            return Ok(());
        };
        let id = parse_decimal(number.as_slice()).unwrap_or(0);
        let (change, rows) = change_of(alloc, id, kind.as_slice(), others)?;
        let run = Run {
            server: server.as_slice(),
            rows,
            most: 4_096,
            refusals: 0,
            looks: None,
            span: 0,
        };
        let answer = run.answer_with(alloc, change)?;
        out.extend_from_slice(answer.told.as_slice())
    }
}

// What another makes of the row with a number, and the columns after it.
fn change_of<'a>(
    alloc: Global,
    id: u64,
    kind: &[u8],
    others: &'a [Octets],
) -> Result<(QueueChange, &'a [Octets]), AllocError> {
    match others {
        [sender, target, message, rows @ ..] if kind == b"other".as_slice() => {
            let row = row_of(alloc, id, sender, target, message)?;
            Ok((QueueChange::Other(row), rows))
        }
        rows => Ok((QueueChange::Gone(id), rows)),
    }
}

/// What a run is over.
#[derive(Clone, Copy)]
struct Run<'a> {
    /// What the server sends.
    server: &'a [u8],
    /// Three texts for each row.
    rows: &'a [Octets],
    /// How many octets come at once, at most.
    most: usize,
    /// How many times taking a row out is refused.
    refusals: u64,
    /// After how many looks somebody waits for the store.
    looks: Option<u64>,
    /// How many milliseconds pass from one look at the clock to the next.
    span: u64,
}

/// What came of it.
#[derive(Drop)]
struct Answer {
    told: Octets,
    /// What the queue noted.
    trace: Octets,
    /// What was noted of rows.
    noted: Octets,
    /// How many seconds were waited.
    seconds: u64,
}

impl Run<'_> {
    fn answer(self, alloc: Global) -> Result<Answer, AllocError> {
        self.answer_with(alloc, QueueChange::None)
    }

    fn answer_with(self, alloc: Global, change: QueueChange) -> Result<Answer, AllocError> {
        let mut queue = queue_of(alloc, self.rows, self.refusals, self.looks)?;
        queue.set_change(change);
        let mut journal = MemoryJournal::new(alloc, self.span);
        let host = Octets::from_slice(alloc, b"h")?;
        let peer = MemoryPeer::new(alloc, self.server, self.most);
        let mut client = SmtpClient::new(alloc, peer, host);
        let ended = send_queue(
            alloc,
            &mut queue,
            &mut client,
            &mut journal,
            false,
            u64::MAX,
        );
        let mut told = Octets::from_slice(alloc, journal.noted())?;
        told.extend_from_slice(if ended.is_ok() {
            b"left"
        } else {
            b"stopped; left"
        })?;
        queue.tell(&mut told)?;
        told.extend_from_slice(b"; ")?;
        told.extend_from_slice(client.peer().sent())?;
        Ok(Answer {
            told,
            trace: Octets::from_slice(alloc, queue.trace())?,
            noted: Octets::from_slice(alloc, journal.noted())?,
            seconds: journal.seconds(),
        })
    }
}

fn queue_of(
    alloc: Global,
    rows: &[Octets],
    refusals: u64,
    looks: Option<u64>,
) -> Result<MemoryQueue, AllocError> {
    let mut queue = MemoryQueue::new(alloc, refusals, looks);
    let mut id = 0;
    for row in rows.chunks(3) {
        if let [sender, target, message] = row {
            id = u64::saturating_add(id, 1);
            queue.push(row_of(alloc, id, sender, target, message)?)?;
        }
    }
    Ok(queue)
}

// The row of user `u` with a number.
fn row_of(
    alloc: Global,
    id: u64,
    sender: &Octets,
    target: &Octets,
    message: &Octets,
) -> Result<DueMessage, AllocError> {
    Ok(DueMessage {
        user: Octets::from_slice(alloc, b"u")?,
        id,
        sender: sender.try_clone(alloc)?,
        target: target.try_clone(alloc)?,
        message: message.try_clone(alloc)?,
    })
}
