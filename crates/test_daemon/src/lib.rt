//! All that is outside of the daemon, in memory: it follows a script, and tells all acts.
#![tactic(auto)]

pub mod copies;
pub mod fake_access;
pub mod memory;
pub mod shelf;
mod together;
