//! Log lines that no value can forge, and a tally of what happened.
#![tactic(auto)]

pub mod file_digest;
pub mod laws;
pub mod log_line;
pub mod tally;
pub mod times;
pub mod value;
