//! Flat code for Sieve scripts: tests set a flag, actions are carried out, and jumps lead forward
//! (RFC 5228, 2.10, 3 and 5).
//!
//! [`compile`] makes it from a checked script. Its contract says what it means and how much work it takes, for any asking
//! and any work of the tests that look at the message or at what the run has done, so nothing here needs a message.
#![tactic(auto)]

mod code;
mod emit;
mod instr;

pub use code::{Code, compile};
pub use instr::Instr;
