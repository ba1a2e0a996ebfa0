//! All that is outside of the loop, in memory: it follows a script, and tells all acts.
#![tactic(auto)]

pub mod echo;
pub mod echo_outside;
pub mod fake;
pub mod peer;
pub mod play;
mod quoted;
pub mod schedule;
pub mod script;
pub mod stage;
