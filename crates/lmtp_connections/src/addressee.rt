//! For whom a message is, and what became of it.
use lmtp_dialogue::RecipientReply;
use octets::Octets;

/// A recipient that was taken, with its account.
#[derive(Drop)]
pub struct Addressee {
    /// The account's name.
    pub user: Octets,
    /// The recipient's address, as it was written.
    pub address: Octets,
    /// What became of the message, once a reply was made after the text.
    pub became: Option<RecipientReply>,
}
