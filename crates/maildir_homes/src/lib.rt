//! Where users' Maildirs are.
#![tactic(auto)]

mod homes;
pub mod laws;
mod template;

pub use homes::{HomePart, MailHomes};
pub use template::read_homes;
