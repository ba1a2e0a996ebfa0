//! The flags of a message, as IMAP names them (RFC 3501, 2.3.2; RFC 5232), and their letters in a Maildir.
#![tactic(auto)]

mod flags;
pub mod laws;
mod name;
mod placement;
mod system;

pub use flags::Flags;
pub use name::{MAX_FLAG_LEN, are_same, is_flag};
pub use placement::Placement;
pub use system::SystemFlag;
