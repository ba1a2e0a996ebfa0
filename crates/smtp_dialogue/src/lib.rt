//! The client's side of SMTP (RFC 5321): what is sent of a message, and what a server answers.
#![tactic(auto)]

mod address;
pub mod command;
pub mod dialogue;
pub mod extension;
pub mod laws;
pub mod mailbox;
pub mod message;
pub mod reply;
pub mod sent;

pub use command::{DATA, QUIT, RSET, ehlo_line, mail_line, rcpt_line};
pub use dialogue::{Ending, NextStage, SmtpStage, next_turn};
pub use extension::{Extensions, read_extensions};
pub use mailbox::is_smtp_mailbox;
pub use message::{SmtpMessage, size_of, without_path};
pub use reply::{Heard, ReplyLine, first_reply, read_reply_line};
pub use sent::{DotStuffed, SentState};
