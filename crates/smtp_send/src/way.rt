//! The store while a connection is spoken to: it is kept if replies come at once, and nobody else waits for it.
ghost use Rattle.std.specs.Prelude.{OnOk, OnErr};
ghost use Rattle.smtp_send.specs.Rows.{Rows};
ghost use Rattle.smtp_send.specs.Talks as s;
ghost use Rattle.smtp_send.specs.Talks.{SendTalk};

use crate::journal::Journal;
use crate::queue::SendQueue;
use crate::server::{Lost, Server};

/// For how many milliseconds the store is left alone if it was held for long: others may ask for it without saying that they wait.
const REST: u64 = 20;

/// Gives the store back if somebody waits for it, or if it was held for long; then it rests.
pub(crate) fn make_way<Q: SendQueue, J: Journal>(queue: &mut Q, journal: &mut J)
    ensures { (rows : Rows) → Q.shows queue.old rows → Q.shows queue.new rows }
{
    let now = journal.uptime();
    if queue.give_way(now) {
        journal.pause(REST);
    }
}

/// Before a reply is waited for: the store is kept if the reply comes at once, and nobody waits for the store.
pub(crate) fn await_reply<Q: SendQueue, S: Server, J: Journal>(
    queue: &mut Q,
    server: &mut S,
    journal: &mut J,
)
    ensures rows { (rows : Rows) → Q.shows queue.old rows → Q.shows queue.new rows }
    ensures said { (t : SendTalk) → S.said server.old t → S.said server.new t }
{
    make_way(queue, journal);
    if !server.has_reply() {
        queue.give_back();
    }
}

/// Writes octets of a message. The store is kept if they go at once, and nobody waits for the store.
///
/// # Errors
///
/// The connection is lost, and a prefix of them was written.
pub(crate) fn write_octets<Q: SendQueue, S: Server, J: Journal>(
    queue: &mut Q,
    server: &mut S,
    journal: &mut J,
    octets: &[u8],
) -> Result<(), Lost>
    ensures rows { (rows : Rows) → Q.shows queue.old rows → Q.shows queue.new rows }
    ensures ok { OnOk result ((t : SendTalk) → S.said server.old t → S.said server.new (s.talk_written t octets.now)) }
    ensures err { OnErr result ((t : SendTalk) → S.said server.old t → (u : SendTalk) × S.said server.new u × s.WritesPrefix octets.now t u) }
{
    make_way(queue, journal);
    let count = server.offer(octets)?;
    let (_, rest) = octets.split_at(count);
    if rest.is_empty() {
        return Ok(());
    }
    queue.give_back();
    server.write(rest)
}
