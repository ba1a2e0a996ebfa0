//! The tables of accounts, scripts and messages in an SQL database, and changes of their rows.
#![tactic(auto)]

mod account;
mod change;
mod copy;
mod message;
mod notice;
mod queue;
mod reply;
pub mod schema;
mod script;
mod statement;
mod table;
mod version;

pub use change::{Change, make_all};
pub use copy::add_copy;
pub use message::add_message;
pub use notice::add_notice;
pub use queue::QueuedKind;
pub use reply::add_reply;
pub use schema::is_ours;
pub use statement::{execute, query};
pub use table::{
    has_no_tables, is_taken, make_copies, make_folders, make_later, make_tables, open_tables,
};
pub use version::{add_version, are_version, find_version};
