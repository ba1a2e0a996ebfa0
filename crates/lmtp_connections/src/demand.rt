//! What is to be done next for a connection.
use lmtp_dialogue::RecipientReply;
use octets::Octets;

/// A recipient whose account is looked for: whether there is one of that name.
#[derive(Drop)]
pub struct Question {
    /// The name.
    pub user: Octets,
    /// The recipient's address.
    pub address: Octets,
    /// `Some(n)`: if there is no such account, form `n` of its name is asked for next.
    pub next: Option<usize>,
}

/// A message for one recipient.
#[derive(Drop)]
pub struct DeliveryRequest {
    /// The name of the account.
    pub user: Octets,
    /// The sender's address; empty for that of a bounce.
    pub sender: Octets,
    /// The recipient's address.
    pub recipient: Octets,
    /// The recipient's copy.
    pub message: Octets,
}

/// What is to be done next.
#[derive(Drop)]
pub enum Demand {
    /// Nothing: octets are wanted, or the client has said QUIT.
    Nothing,
    /// A line is to be answered.
    Line,
    /// A recipient is to be put off: the store was away for too long.
    PutOff,
    /// The store is to be asked whether there is an account of that name.
    Account(Question),
    /// A reply is to be made after the text, without the store.
    Reply(RecipientReply),
    /// What became of the message, as it was noted, is to be told (`LmtpConnection::reply_noted`).
    Noted,
    /// A message is to be delivered by the store (`LmtpConnection::delivery`).
    Delivery,
}
