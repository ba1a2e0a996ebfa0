//! Mail that moves on out of a store: whose is next, where it goes, and which folders rest. A sink keeps it first; then it is taken
//! out.
#![tactic(auto)]

mod batch;
mod first_mails;
pub mod laws;
mod load;
mod maildir_path;
mod moving;
mod order;
mod rest;
mod route;

pub use batch::{BegunBatch, MailBatch};
pub use load::Load;
pub use maildir_path::place_in;
pub use moving::{MovePause, Moving, Stay, StayReason, pause_behind};
pub use order::{FolderMark, MoveOrder};
pub use rest::{Rest, Rests};
pub use route::{Route, move_next};
