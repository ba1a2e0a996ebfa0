//! LMTP (RFC 2033) as items of a stream: command lines, and texts of messages.
#![tactic(auto)]

pub mod argument;
pub mod command;
pub mod command_line;
pub mod copy;
pub mod laws;
pub mod message_text;
pub mod name;
pub mod path;
pub mod receiver;
pub mod recipient_reply;
mod recipients;
pub mod reply;
mod talk;
pub mod verb;

pub use command_line::{Found, find_line, skip_line};
pub use copy::{copy_for, was_delivered};
pub use message_text::{Text, TextFault, TextState};
pub use name::{Names, name_forms};
pub use receiver::{LmtpStage, Lookup, Next, ReceivedMessage, Receiver};
pub use recipient_reply::{RecipientReply, ReplyBuffer};
pub use reply::LmtpReply;
