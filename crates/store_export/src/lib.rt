//! Reads an account of a store for its text: its contents are listed first, and then each part is read when it is needed.
#![tactic(auto)]

mod contents;
pub mod laws;
mod part;
mod place;
mod run;

pub use contents::{Contents, list_contents};
pub use part::read_part;
pub use place::PartPlace;
