//! A run over the queues of a store.
ghost use Rattle.std.specs.Prelude.{is_ok, None};
ghost use Rattle.smtp_send.specs.Attempts.{RunReaches, SendState};
ghost use Rattle.smtp_queue.specs.Queues.{ShowsRows, ShowsSome};

use crate::queue::StoreQueue;
use crate::queue_store::Search;
use smtp_send::{Journal, SendTally, Server, Stop, send_queue};
use std::alloc::Global;
use store_lock::Keeper;

/// How a run ended, and the keeper that it had.
#[derive(Drop)]
pub struct Ended<K: Keeper + Drop> {
    pub keeper: K,
    pub tally: Result<SendTally, Stop>,
}

/// Hands the rows of a store's queues that are due to a server, in the order of the octets of the users and of the numbers, at most this
/// many of them; each leaves its queue once the server has taken it.
///
/// The store is held from one row to the next, as [`send_queue`] and [`StoreQueue`] say, and is back with the keeper at the end.
///
/// Time is linear in the rows, but for the logarithm of those that wait, and in the messages' octets; one row is in memory.
///
/// # Errors
///
/// What was sent until then has left the queues, but for `Kept`: the last row that was sent has not.
pub fn send_due<K: Keeper + Drop, S: Server, J: Journal>(
    alloc: Global,
    search: Search<'_>,
    keeper: K,
    server: &mut S,
    journal: &mut J,
    may_eight_bit: bool,
    most: u64,
) -> Ended<K>
    ensures { (before : SendState) → ShowsRows K.S.Store K.tells search.entry.waits.now search.entry.now (K.holds keeper) None before.rows → S.said server.old before.talk
        → RunReaches may_eight_bit (ShowsSome K.S.Store K.tells (K.holds result.keeper)) (S.said server.new) before (is_ok result.tally) }
{
    let mut queue = StoreQueue::new(alloc, search, keeper);
    let tally = send_queue(alloc, &mut queue, server, journal, may_eight_bit, most);
    Ended {
        keeper: queue.into_keeper(),
        tally,
    }
}
