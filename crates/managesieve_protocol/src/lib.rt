//! ManageSieve's items and replies (RFC 5804): finds the first item in the octets of a client, and writes replies.
#![tactic(auto)]

mod command_name;
pub mod commands;
pub mod items;
mod reading;
pub mod replies;
pub mod scanner;
mod spelling;
mod state;

pub use commands::ClientCommand;
pub use items::{ClientItem, ItemExtent, command_at, extent, first, item_at};
pub use replies::{DataLine, ReplyCode, ServerReply, Status};
pub use scanner::Scan;
pub use spelling::{spell, spell_string};
