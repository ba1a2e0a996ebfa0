//! An account as a text that is taken from one store to another: lines of netstrings, in one order, and a SHA-256 at the end.
#![tactic(auto)]

mod account_file;
mod entry;
mod fields;
mod head;
pub mod laws;
mod limits;
mod line;
mod netstring;
mod order;
mod part;
mod reading;
mod writing;

pub use account_file::{AccountFile, AccountReadError};
pub use head::{AccountHead, AccountOwner, Numbers};
pub use limits::{is_head, may_have};
pub use netstring::MAX_FIELD;
pub use part::{LetterKind, Part};
pub use reading::read_account_file;
pub use writing::{AccountLine, Writer};
