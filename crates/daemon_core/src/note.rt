//! What the daemon notes.
use lmtp_dialogue::Lookup;
use maildir_moves::Moving;
use octets::{List, Octets};
use store_engine::{Answer, Event};

/// The delivery of a message of one connection, and how it was answered.
#[derive(Drop)]
pub struct ToldDelivery {
    /// The connection's number.
    pub id: u32,
    pub event: Event,
    pub answer: Answer,
}

/// What the daemon did when it continued with a connection, or by itself. One that tells its acts makes the value; over the
/// system none is made.
#[derive(Drop)]
pub enum Note {
    /// An event was applied to the store, and answered so.
    Did {
        /// The events by which other processes changed the accounts while the daemon didn't hold the store; the sessions in
        /// them begin and end there.
        others: List<Event>,
        event: Event,
        answer: Answer,
    },
    /// The store was asked for, and wasn't available.
    Away,
    /// An event that asks no store, whatever the accounts are, was answered so.
    Freed {
        event: Event,
        answer: Answer,
    },
    /// What was kept back was said.
    Spoke,
    /// What comes first of a client of LMTP was answered, and no store was asked for it; or one of ManageSieve was told that there is no
    /// room for what it sends.
    Answered,
    /// The store was asked whether there is an account of that name, and this was found.
    Asked {
        /// As of [`Note::Did`].
        others: List<Event>,
        user: Octets,
        lookup: Lookup,
    },
    /// It was looked whether somebody waits for the store, and whether somebody does.
    Looked(bool),
    /// Messages were to move on, by one step, and this became of them.
    Moved {
        /// As of [`Note::Did`].
        others: List<Event>,
        moving: Moving,
    },
    /// A message of a client of LMTP is to be delivered together with those of others.
    Gathered,
    /// Messages of several clients were delivered as one act, each with an answer of its own.
    Delivered {
        /// As of [`Note::Did`].
        others: List<Event>,
        /// In the order in which they were applied.
        told: List<ToldDelivery>,
    },
    /// Memory or the store refused such messages as one act: none is answered, and each is to be delivered by itself.
    Parted {
        /// As of [`Note::Did`].
        others: List<Event>,
        /// The deliveries that were tried.
        events: List<Event>,
    },
    /// The store wasn't available for the messages of these connections.
    PutOff(List<u32>),
}
