//! The events that change accounts and sessions, one after the other.
use crate::terms::Terms;
use crate::upkeep::Upkeep;
use octets::Octets;
use sieve_exec::Envelope;
use store_text::AccountFile;

/// An event, with all that comes from outside. A session is known by a number.
///
/// The model tells a run as a list of these; the program makes four of them. The daemon makes `Open`, `Step`, `GiveUp` and `Close`, and
/// [`apply`](crate::apply) or [`apply_free`](crate::apply_free) applies them. What the other seven stand for, the daemon and the
/// subcommands do by calls of their own, without a copy of the texts: `Give` by [`Clients::give`](crate::Clients::give), `Deliver`,
/// `AddUser`, `Import` and `TakeOut` by the functions of these names, `TakeMail` by the store's `take_mail`, `DoUpkeep` by
/// [`do_upkeep`](crate::do_upkeep). As values these seven are made by the crates of tests alone.
#[derive(Drop)]
pub enum Event {
    /// A client connects.
    Open(u32),
    /// Octets come from a client.
    Give(u32, Octets),
    /// The first item that a client sent is taken off and answered.
    Step(u32),
    /// The first item that a client sent can't be answered now, and is dropped.
    GiveUp(u32),
    /// A client disconnects.
    Close(u32),
    /// A message is delivered to a user.
    Deliver {
        /// The user's name.
        user: Octets,
        envelope: Envelope,
        /// The octets that were received.
        message: Octets,
        terms: Terms,
    },
    /// An account is made, or a closed one that has no mail is opened again.
    AddUser {
        /// The user's name.
        name: Octets,
        /// The user's own address, an addr-spec.
        address: Octets,
        /// Octets that no other account has, hashed before the password.
        salt: [u8; 16],
        /// The password; its digest is stored.
        password: Octets,
    },
    /// A row of a user's queue is taken out.
    TakeOut {
        /// The user's name.
        user: Octets,
        /// The row's number.
        id: u64,
    },
    /// The first message of a user's folder is taken out.
    TakeMail {
        /// The user's name.
        user: Octets,
        /// The folder's name.
        folder: Octets,
    },
    /// The account of a text is made whole, under a name that has no account, or a closed one without mail.
    Import(AccountFile),
    /// An administrator maintains a user's account.
    DoUpkeep {
        /// The user's name.
        user: Octets,
        upkeep: Upkeep,
    },
}
