//! A run over all rows.
ghost use Rattle.std.specs.Prelude.{◌≡◌, is_ok, true, IfOk, IfSome};
ghost use Rattle.smtp_send.specs.Talks.{SendTalk};
ghost use Rattle.smtp_send.specs.Rows.{Rows, IsThere};
ghost use Rattle.smtp_send.specs.Attempts as s;

use crate::journal::Journal;
use crate::queue::{DueMessage, QueueUnavailable, SendQueue};
use crate::row::{Stop, send_row, smtp_message_of};
use crate::server::Server;
use crate::way::{await_reply, make_way};
use octets::Octets;
use smtp_dialogue::{Ending, Extensions};
use std::alloc::Global;

/// What became of the rows of a run.
#[derive(Clone, Copy, Debug, PartialEq, Eq)]
pub struct SendTally {
    /// How many were sent.
    pub sent: u64,
    /// How many others were tried.
    pub waiting: u64,
}

impl SendTally {
    // How many were tried.
    fn count(self) -> u64 {
        self.sent.saturating_add(self.waiting)
    }

    // With one row more, which ended so.
    fn with(self, ending: Ending) -> SendTally {
        match ending {
            Ending::Sent => SendTally {
                sent: self.sent.saturating_add(1),
                waiting: self.waiting,
            },
            _ => SendTally {
                sent: self.sent,
                waiting: self.waiting.saturating_add(1),
            },
        }
    }
}

/// What is known of the connection: what the server offers, or that there is none.
#[derive(Clone, Copy)]
struct Link {
    offered: Option<Extensions>,
    /// Whether a row may go without 8BITMIME.
    may_eight_bit: bool,
}

/// Hands the rows of all queues that are due to a server, in the order of the octets of the users and of the numbers, at most this many
/// of them. It connects once there is one, and again if the connection was lost.
///
/// The store of the queues is held from one row to the next while the server answers at once and nobody waits for it: it is given back
/// before each wait for the connection that isn't over at once, if somebody waits for it, and if it was held for long.
///
/// Time is linear in the rows and in their messages' octets; one row is in memory.
///
/// # Errors
///
/// What was sent until then has left the queues, but for `Kept`: the last row that was sent has not.
pub fn send_queue<Q: SendQueue, S: Server, J: Journal>(
    alloc: Global,
    queue: &mut Q,
    server: &mut S,
    journal: &mut J,
    may_eight_bit: bool,
    most: u64,
) -> Result<SendTally, Stop>
    ensures { (before : s.SendState) → Q.shows queue.old before.rows → S.said server.old before.talk
        → s.RunReaches may_eight_bit (Q.shows queue.new) (S.said server.new) before (is_ok result) }
{
    let mut link = Link {
        offered: None,
        may_eight_bit,
    };
    let mut user = Octets::new(alloc);
    let mut id = 0;
    let mut tally = SendTally {
        sent: 0,
        waiting: 0,
    };
    for _ in 0..u64::MAX {
        if tally.count() >= most {
            break;
        }
        let Some(row) = read_next(queue, &user, id)? else {
            break;
        };
        make_way(queue, journal);
        match visit(alloc, queue, server, journal, &mut link, &row) {
            Ok(ending) => tally = tally.with(ending),
            Err(stop) => return Err(stop),
        }
        id = row.id;
        user = row.user;
    }
    queue.give_back();
    server.close();
    Ok(tally)
}

// The first row after a place.
fn read_next<Q: SendQueue>(
    queue: &mut Q,
    user: &Octets,
    id: u64,
) -> Result<Option<DueMessage>, Stop>
    ensures there { IfOk result (λ found. IfSome found (λ row. (rows : Rows) → Q.shows queue.old rows → IsThere row rows)) }
    ensures same { (rows : Rows) → Q.shows queue.old rows → Q.shows queue.new rows }
{
    match queue.next(user.as_slice(), id) {
        Ok(found) => Ok(found),
        Err(QueueUnavailable::Memory) => Err(Stop::Memory),
        Err(QueueUnavailable::Store) => Err(Stop::Store),
    }
}

// Hands over one row, and notes what became of it. Returns how that ended.
fn visit<Q: SendQueue, S: Server, J: Journal>(
    alloc: Global,
    queue: &mut Q,
    server: &mut S,
    journal: &mut J,
    link: &mut Link,
    row: &DueMessage,
) -> Result<Ending, Stop>
    ensures may { link.new.may_eight_bit ≡ link.old.may_eight_bit }
    ensures reaches { (before : s.SendState) → Q.shows queue.old before.rows → S.said server.old before.talk → IsThere row.now before.rows
        → s.RunReaches link.old.may_eight_bit (Q.shows queue.new) (S.said server.new) before (is_ok result) }
{
    journal.begin(row.user.as_slice(), row.id);
    let handed = hand_over(alloc, queue, server, journal, link, row);
    note_ending(journal, row, handed)
}

// Hands the row to the server, over the connection that there is or a new one.
fn hand_over<Q: SendQueue, S: Server, J: Journal>(
    alloc: Global,
    queue: &mut Q,
    server: &mut S,
    journal: &mut J,
    link: &mut Link,
    row: &DueMessage,
) -> Result<Ending, Stop>
    ensures may { link.new.may_eight_bit ≡ link.old.may_eight_bit }
    ensures reaches { (before : s.SendState) → Q.shows queue.old before.rows → S.said server.old before.talk → IsThere row.now before.rows
        → s.RunReaches link.old.may_eight_bit (Q.shows queue.new) (S.said server.new) before (is_ok result) }
{
    let Some(offered) = offered_for(queue, server, link, row) else {
        return Err(Stop::Unreachable);
    };
    let may_eight_bit = link.may_eight_bit;
    match send_row(alloc, queue, server, journal, offered, may_eight_bit, row) {
        Ok(ending) => {
            settle(queue, server, journal, link, ending);
            Ok(ending)
        }
        Err(stop) => Err(stop),
    }
}

// Notes what became of the row: if the server isn't available it waits.
fn note_ending<J: Journal>(
    journal: &mut J,
    row: &DueMessage,
    handed: Result<Ending, Stop>,
) -> Result<Ending, Stop>
    ensures { is_ok result ≡ true → is_ok handed ≡ true }
{
    let ending = match handed {
        Ok(ending) => ending,
        Err(Stop::Unreachable) => Ending::Lost,
        Err(stop) => return Err(stop),
    };
    match journal.note(row.user.as_slice(), row.id, ending) {
        Ok(()) => handed,
        Err(_) => Err(Stop::Output),
    }
}

// What the server offers, over the connection that there is or a new one; none if it isn't available. A row that is never sent needs
// none.
fn offered_for<Q: SendQueue, S: Server>(
    queue: &mut Q,
    server: &mut S,
    link: &mut Link,
    row: &DueMessage,
) -> Option<Extensions>
    ensures may { link.new.may_eight_bit ≡ link.old.may_eight_bit }
    ensures rows { (rows : Rows) → Q.shows queue.old rows → Q.shows queue.new rows }
    ensures kept { (t : SendTalk) → S.said server.old t → S.said server.new t }
{
    if let Some(offered) = link.offered {
        return Some(offered);
    }
    if !smtp_message_of(row).is_addressed() {
        return Some(Extensions::none());
    }
    queue.give_back();
    let Ok(offered) = server.open() else {
        return None;
    };
    link.offered = Some(offered);
    Some(offered)
}

// Settles the connection after a message: one that was refused is dropped by RSET, and a connection that was lost is ended.
fn settle<Q: SendQueue, S: Server, J: Journal>(
    queue: &mut Q,
    server: &mut S,
    journal: &mut J,
    link: &mut Link,
    ending: Ending,
)
    ensures may { link.new.may_eight_bit ≡ link.old.may_eight_bit }
    ensures rows { (rows : Rows) → Q.shows queue.old rows → Q.shows queue.new rows }
    ensures kept { (t : SendTalk) → S.said server.old t → S.said server.new t }
{
    let goes_on = match ending {
        Ending::Sent | Ending::Undeclared | Ending::Unaddressed => true,
        Ending::Refused(_) | Ending::Delayed(_) => begin_anew(queue, server, journal),
        Ending::OutOfPlace(_) | Ending::Lost => false,
    };
    if !goes_on {
        queue.give_back();
        server.close();
        link.offered = None;
    }
}

// Drops the message that was refused. Returns whether the server says yes to that.
fn begin_anew<Q: SendQueue, S: Server, J: Journal>(
    queue: &mut Q,
    server: &mut S,
    journal: &mut J,
) -> bool
    ensures rows { (rows : Rows) → Q.shows queue.old rows → Q.shows queue.new rows }
    ensures kept { (t : SendTalk) → S.said server.old t → S.said server.new t }
{
    if server.reset().is_err() {
        return false;
    }
    await_reply(queue, server, journal);
    server.is_reset()
}
