//! A daemon that serves many clients of ManageSieve (RFC 5804) and of LMTP (RFC 2033) side by side, over whatever is outside:
//! it is the abstract machine of store_engine, running.
#![tactic(auto)]

pub mod client_state;
pub mod daemon;
mod deliveries;
mod delivery_reply;
mod eviction;
pub mod gathered;
pub mod life;
mod look;
mod machine;
pub mod mail;
mod mail_connections;
mod mail_step;
mod memory_room;
pub mod note;
mod poll_wait;
pub mod recipient_account;
mod report;
mod session;
mod step;
pub mod store_access;
pub mod store_deliveries;
mod want;

pub use machine::{LMTP, MANAGESIEVE};
