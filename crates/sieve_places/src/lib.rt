//! The word of a script at which a fault is, and its place: for whoever reads what `check` says.
#![tactic(auto)]

mod column;
mod find;
mod pick;
mod spread;
mod words;

pub use find::{FaultPlace, find_place};
pub use words::{place_words, push_shown};
