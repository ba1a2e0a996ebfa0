//! The response of `vacation` (RFC 5230): what identifies it, whether it is sent, and its octets.
#![tactic(auto)]

pub mod addressed;
mod body;
pub mod date;
pub mod decision;
mod fields;
mod from;
pub mod handle;
pub mod laws;
pub mod layout;
pub mod reason;
mod sender;
mod subject;
mod text;
mod value;

pub use addressed::AddressedMail;
pub use date::{MAX_MOMENT, write_date};
pub use decision::decide_reply;
pub use fields::first_raw;
pub use handle::{handle_key, has_short_texts, push_number};
pub use layout::reply_bytes;
pub use reason::{Reason, ReplyDecision};
