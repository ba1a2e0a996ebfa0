//! One row: its message is sent, and then it leaves the queue.
ghost use Rattle.std.specs.Prelude.{IfOk, OnErr};
ghost use Rattle.smtp_dialogue.specs.Messages.{smtp_mail_of};
ghost use Rattle.smtp_send.specs.Rows.{Rows, RowTakenOut};
ghost use Rattle.smtp_send.specs.Attempts as s;

use crate::dialogue::send_message;
use crate::journal::Journal;
use crate::queue::{DueMessage, QueueUnavailable, SendQueue, TakenOut};
use crate::server::Server;
use smtp_dialogue::{Ending, Extensions, SmtpMessage, without_path};
use std::alloc::Global;

/// For how many milliseconds it is tried to take out a row that was sent, from the first refusal on.
const PATIENCE: u64 = 600_000;

/// After how many milliseconds it is tried again.
const PAUSE: u64 = 1_000;

/// Why a run ends early.
#[derive(Clone, Copy, Debug, PartialEq, Eq)]
pub enum Stop {
    /// There is no memory.
    Memory,
    /// The store isn't available, or can't be read.
    Store,
    /// The server isn't available.
    Unreachable,
    /// What became of a row can't be told.
    Output,
    /// A row was sent, and can't be taken out: it goes once more.
    Kept,
}

/// Hands a row's message to the server. After the 250 to its text the row is taken out; if the store refuses that it is tried again for
/// ten minutes. Another row that has its number by then stays. That is told, and so is a row that is gone.
///
/// Time is linear in the message's octets.
pub fn send_row<Q: SendQueue, S: Server, J: Journal>(
    alloc: Global,
    queue: &mut Q,
    server: &mut S,
    journal: &mut J,
    offered: Extensions,
    may_eight_bit: bool,
    row: &DueMessage,
) -> Result<Ending, Stop>
    ensures { (before : s.SendState) → Q.shows queue.old before.rows → S.said server.old before.talk → (after : s.SendState)
        × Q.shows queue.new after.rows × S.said server.new after.talk × s.EndsRow offered may_eight_bit row.now before after result }
{
    let message = smtp_message_of(row);
    let Ok(ending) = send_message(
        alloc,
        queue,
        server,
        journal,
        offered,
        may_eight_bit,
        message,
    ) else {
        return Err(Stop::Memory);
    };
    match ending {
        Ending::Sent => match take_out(queue, journal, row) {
            Ok(taken) => {
                tell_taken(journal, row, taken);
                Ok(ending)
            }
            Err(_) => Err(Stop::Kept),
        },
        _ => Ok(ending),
    }
}

// The row's message.
pub(crate) fn smtp_message_of(row: &DueMessage) -> SmtpMessage<'_>
    ensures { s.IsMessageOfRow row.now (smtp_mail_of result) }
{
    SmtpMessage {
        sender: row.sender.as_slice(),
        target: row.target.as_slice(),
        text: without_path(row.message.as_slice()),
    }
}

// Tells of a row that was sent and was to be taken out.
fn tell_taken<J: Journal>(journal: &mut J, row: &DueMessage, taken: TakenOut) {
    match taken {
        TakenOut::Removed => {}
        TakenOut::Gone => journal.tell_gone(row.user.as_slice(), row.id),
        TakenOut::Changed => journal.tell_changed(row.user.as_slice(), row.id),
    }
}

// Takes the row out. What is refused is tried again, a second later, until ten minutes have passed since the first refusal.
fn take_out<Q: SendQueue, J: Journal>(
    queue: &mut Q,
    journal: &mut J,
    row: &DueMessage,
) -> Result<TakenOut, QueueUnavailable>
    ensures taken { IfOk result (λ taken. (rows : Rows) → Q.shows queue.old rows → (after : Rows) × RowTakenOut row.now taken rows after × Q.shows queue.new after) }
    ensures kept { OnErr result ((rows : Rows) → Q.shows queue.old rows → Q.shows queue.new rows) }
{
    let mut refused = None;
    for _ in 0..u64::MAX {
        if let Ok(taken) = queue.take_out(row) {
            return Ok(taken);
        }
        let now = journal.uptime();
        let first = *refused.get_or_insert(now);
        if now.saturating_sub(first) >= PATIENCE {
            break;
        }
        journal.pause(PAUSE);
    }
    Err(QueueUnavailable::Store)
}
