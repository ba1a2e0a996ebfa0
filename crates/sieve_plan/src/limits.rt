//! How many addresses a message goes on to.
ghost use Rattle.std.specs.Prelude.{◌≡◌, ◌∷◌, [], ℕ, List, map, take};
ghost use Rattle.mail_address.specs.declared.address.Addr.{Addr as Address};
ghost use Rattle.mail_address.specs.Spelling.{address_spelling};
ghost use Rattle.store_accounts.specs.Cells.{borrowed_octets};
ghost use Rattle.sieve_plan.specs.Plans.{limits_of};
ghost use Rattle.sieve_plan.specs.Sent as specs;

use crate::notice::{BEFORE_TEXT, FULL_TEXT, LARGE_TEXT, MANY_TEXT};
use octets::Texts;

/// As often one message goes on from an account within 12 hours: as often as one run of a script may send it.
const MOST_SENT: usize = 16;

/// So many octets one delivery writes into the queue, 64 MiB, so that it doesn't hold up others; one address gets any message.
const MOST_WRITTEN: usize = 67_108_864;

/// How many of the addresses to which a message wasn't sent before it goes on to, by each limit.
#[derive(Clone, Copy)]
pub(crate) struct Limits {
    /// As many rows as there is room for in the queue.
    room: u64,
    /// As many rows of its size as one delivery may write.
    by_size: usize,
    /// As often as it may still go on.
    left: usize,
}

impl Limits {
    /// The limits of a message of this size that was sent on so often already; `room` is how many rows may join the queue.
    pub(crate) fn new(room: u64, size: usize, sent: usize) -> Limits
        ensures { limits_of result ≡ specs.limits_by room size sent }
    {
        Limits {
            room,
            by_size: (MOST_WRITTEN / size.max(1)).max(1),
            left: MOST_SENT.saturating_sub(sent),
        }
    }

    /// The first ones, as many as each of the limits lets through.
    pub(crate) fn let_through(self, fresh: Texts) -> Texts
        ensures { (targets : List Address) → fresh ≡ map address_spelling targets → result ≡ map address_spelling (specs.let_through (limits_of self) targets) }
    {
        let with_room = first_ones(fresh, self.room);
        let written = first_ones(with_room, self.by_size as u64);
        first_ones(written, self.left as u64)
    }

    /// Why the message isn't sent on to all addresses: the first limit that holds one back; else that it was sent to some before.
    /// Of all of them so many are fresh.
    pub(crate) fn held_notice(self, all: usize, fresh: usize) -> Option<&'static [u8]>
        ensures { borrowed_octets result ≡ specs.held_notice (limits_of self) all fresh }
    {
        if self.room < fresh as u64 {
            return Some(FULL_TEXT);
        }
        if self.by_size < fresh {
            return Some(LARGE_TEXT);
        }
        if self.left < fresh {
            return Some(MANY_TEXT);
        }
        if fresh < all {
            return Some(BEFORE_TEXT);
        }
        None
    }
}

/// The first ones, at most so many.
fn first_ones(texts: Texts, most: u64) -> Texts
    ensures { result ≡ take most texts }
{
    let mut vec = texts.into_vec();
    if most < vec.len() as u64 {
        vec.truncate(most as usize);
    }
    Texts::from_vec(vec)
}
