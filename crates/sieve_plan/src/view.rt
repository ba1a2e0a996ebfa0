//! What a delivery has to know of the account, beside the text of its active script.
use mail_address::Addr;
use octets::{List, Texts};
use store_accounts::ReplyKey;

/// What a delivery has to know of the account, beside the text of its active script: as much of it as the deeds ask for.
#[derive(Debug, Drop)]
pub struct AccountView {
    /// The account's address.
    pub address: Addr,
    /// The moment that is kept of the response that a `vacation` asks for, if one was executed and one is kept.
    pub last: Option<u64>,
    /// The addresses to which the message was sent before, as they are spelled; none where the deeds send it nowhere.
    pub known: Texts,
    /// How many more rows may join the queue; any number where the deeds bring none.
    pub room: u64,
    /// What is kept and over of messages that were sent on: 32 keys at most.
    pub over: List<ReplyKey>,
}
