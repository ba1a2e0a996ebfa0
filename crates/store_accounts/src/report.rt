//! What a delivery is to write, and what it reports.
ghost use Rattle.std.specs.Prelude.{◌≡◌};
ghost use Rattle.store_accounts.specs.Delivery.{no_memory};

use crate::reply::ReplyKey;
use mail_flags::Placement;
use octets::{List, Octets, Texts};
use std::alloc::Global;

/// What a delivery did about a vacation reply.
#[derive(Clone, Copy, Debug, PartialEq, Eq)]
pub enum VacationReport {
    /// The script ran no `vacation`.
    None,
    /// A reply joined the queue.
    Sent,
    /// A rule for automatic replies forbids one; its number, 1 to 10.
    Quiet(u8),
}

/// What a delivery did.
#[derive(Debug, Drop)]
pub struct Report {
    /// The folders that the message joined, in the order of the script.
    pub filed: Texts,
    /// The addresses that the message goes on to, in the order of the script, as they are spelled in the queue.
    pub sent: Texts,
    pub vacation: VacationReport,
    /// The text of the notice that the user was left, if there is one.
    pub notice: Option<Octets>,
}

/// The reply of a delivery to the sender of the message (RFC 5230).
#[derive(Debug, Drop)]
pub struct VacationReply {
    /// The key of the vacation's handle, any octets, under which the moment of the reply is kept.
    pub handle: Octets,
    /// The reply's own octets. It goes to the sender of the message, from the empty sender (RFC 5230, section 5.1).
    pub message: Octets,
    /// The moment that is kept, in seconds since 1970-01-01 UTC: the delivery's, or a later one that was kept already.
    pub moment: u64,
}

/// What is remembered of a message that is sent on, and what is forgotten. It is kept as the moments of replies are: under the key of
/// a handle and, in the place of the sender, what stands for the message.
#[derive(Debug, Drop)]
pub struct SentMemory {
    /// What stands for the message, any octets.
    pub message: Octets,
    /// Under each of these handles' keys the plan's moment is kept of the message, in place of another one.
    pub handles: Texts,
    /// These go first, whatever moments they have.
    pub forgotten: List<ReplyKey>,
}

impl SentMemory {
    /// Nothing is remembered, and nothing forgotten. Takes no memory.
    pub fn none(alloc: Global) -> SentMemory
        ensures { result ≡ no_memory }
    {
        SentMemory {
            message: Octets::new(alloc),
            handles: Texts::new(alloc),
            forgotten: List::new(alloc),
        }
    }
}

/// What a delivery is to write: the copies, what its report tells of addresses and a notice, and the reply. The message and its
/// sender are borrowed, so no copy of them is made for a folder or for an address.
#[derive(Drop)]
pub struct Plan<'a> {
    pub message: &'a [u8],
    /// The sender of the envelope, as received: a redirect has it (RFC 5228, section 4.2), and a reply goes there.
    pub sender: &'a [u8],
    /// The moment of the delivery, in seconds since 1970-01-01 UTC. A notice has it.
    pub moment: u64,
    /// The message joins each of the mailboxes with its flags there (RFC 5232), in order: a name that stands twice gets two copies.
    /// The report tells their names; that it does is for the caller to see.
    pub filed: List<Placement>,
    /// The message joins the queue for each address that is told as sent, in order, and the user is left the notice.
    pub report: Report,
    /// What is remembered of the message as it is sent on.
    pub memory: SentMemory,
    /// The reply joins the queue after them and is remembered, if one is sent.
    pub reply: Option<VacationReply>,
}
