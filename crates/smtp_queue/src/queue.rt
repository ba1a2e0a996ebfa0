//! The queues of the store that a keeper has.
ghost use Rattle.std.specs.Prelude.{◌≡◌, None, IfOk};
ghost use Rattle.smtp_queue.specs.Queues.{IsRowTold, QueueStillShows, store_and_keeper};

use crate::due_row::DueRow;
use crate::queue_store::{Search, find_row, remove_row};
use octets::Octets;
use smtp_send::{DueMessage, QueueUnavailable as Denial, SendQueue, TakenOut};
use std::alloc::{AllocError, Global};
use store_accounts::{QueueKey, QueuedMessage, Refusal};
use store_lock::{HeldStore, Keeper, StoreUnavailable};

/// For how many milliseconds at most the store is held without a break, while others may ask for it who don't say that they wait.
const MAX_HAD: u64 = 1_000;

/// The queues of all users in a store at a path. A row that isn't due is passed over, without a look at its message.
///
/// The store is taken for a call that needs it, and held until it is given back: by `give_back`, by `give_way` if somebody waits for it
/// or it was held for a second, and after a call that failed. Nobody else changes it while it is held.
#[derive(Drop)]
pub struct StoreQueue<'a, K: Keeper + Drop> {
    alloc: Global,
    search: Search<'a>,
    held: HeldStore<K>,
    /// When the clock was first looked at since the store was taken, in milliseconds.
    since: Option<u64>,
}

impl<'a, K: Keeper + Drop> StoreQueue<'a, K> {
    /// The queues of the store that a keeper has at the path of a search.
    pub fn new(alloc: Global, search: Search<'a>, keeper: K) -> StoreQueue<'a, K>
        ensures search { result.search ≡ search.entry }
        ensures keeper { result.held.keeper ≡ keeper }
        ensures store { result.held.store ≡ None }
    {
        StoreQueue {
            alloc,
            search,
            held: HeldStore::new(keeper),
            since: None,
        }
    }

    /// The keeper, which has the store back.
    pub fn into_keeper(self) -> K
        ensures { QueueStillShows K.S.Store K.tells K.holds self.entry.held (store_and_keeper None result) }
    {
        let StoreQueue {
            alloc: _,
            search: _,
            held,
            since: _,
        } = self;
        held.into_keeper()
    }
}

/// A place, as the store has it. Lack of memory is the only error.
fn place_of(alloc: Global, user: &[u8], id: u64) -> Result<QueueKey, AllocError>
    ensures user { IfOk result (λ place. place.user ≡ user.now) }
    ensures id { IfOk result (λ place. place.id ≡ id) }
{
    Ok(QueueKey {
        user: Octets::from_slice(alloc, user)?,
        id,
    })
}

/// The due message that a row holds, if one was found.
fn due_message_of(found: Option<DueRow>) -> Option<DueMessage>
    ensures { IsRowTold found result }
{
    let Some(DueRow { place, row }) = found else {
        return None;
    };
    let QueueKey { user, id } = place;
    let QueuedMessage {
        id: _,
        kind: _,
        sender,
        target,
        message,
    } = row;
    Some(DueMessage {
        user,
        id,
        sender,
        target,
        message,
    })
}

/// Why a row can't be read or taken out, by what the keeper says.
fn denial_of(denial: StoreUnavailable) -> Denial {
    match denial {
        StoreUnavailable::Refused(Refusal::Memory) => Denial::Memory,
        _ => Denial::Store,
    }
}

impl<K: Keeper + Drop> SendQueue for StoreQueue<'_, K> {
    ghost use Rattle.smtp_queue.specs.Queues.{ShowsRows};

    ghost shows = { λ queue rows. ShowsRows K.S.Store K.tells queue.search.waits.now queue.search.now (K.holds queue.held.keeper) queue.held.store rows };

    fn next(&mut self, user: &[u8], id: u64) -> Result<Option<DueMessage>, Denial> {
        let Ok(start) = place_of(self.alloc, user, id) else {
            return Err(Denial::Memory);
        };
        match find_row(&mut self.held, self.alloc, self.search, start) {
            Ok(found) => Ok(due_message_of(found)),
            Err(denial) => {
                self.since = None;
                self.held.give_back();
                Err(denial_of(denial))
            }
        }
    }

    fn take_out(&mut self, row: &DueMessage) -> Result<TakenOut, Denial> {
        let Ok(place) = place_of(self.alloc, row.user.as_slice(), row.id) else {
            return Err(Denial::Memory);
        };
        match remove_row(&mut self.held, self.search.path, &place, row) {
            Ok(taken) => Ok(taken),
            Err(denial) => {
                self.since = None;
                self.held.give_back();
                Err(denial_of(denial))
            }
        }
    }

    fn give_way(&mut self, moment: u64) -> bool {
        if self.held.store.is_none() {
            return false;
        }
        if self.held.keeper.is_awaited(self.search.path) {
            self.give_back();
            return false;
        }
        let since = *self.since.get_or_insert(moment);
        if moment.saturating_sub(since) < MAX_HAD {
            return false;
        }
        self.give_back();
        true
    }

    fn give_back(&mut self) {
        self.since = None;
        self.held.give_back();
    }
}
