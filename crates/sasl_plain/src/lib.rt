//! Logins by the SASL mechanism PLAIN (RFC 4616), and the stored passwords that they are checked against.
//!
//! A password is stored as a salt, a number of rounds and a digest, a scheme of this project: each round hashes the
//! digest before it with the salt and the password.
#![tactic(auto)]

pub mod message;
pub mod password;

pub use message::{Login, plain};
pub use password::{PasswordHash, ROUNDS, accepts, digest};
