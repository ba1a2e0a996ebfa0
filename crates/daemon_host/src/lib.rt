//! All that is outside of the daemon, over the system: its sockets and its clock, and the store of a keeper.
#![tactic(auto)]

pub mod host;
mod host_log;
pub mod host_store;
pub mod host_system;
mod log;
pub mod mail_store;
mod message_id;
mod pause;
mod store_turns;
