//! A connection to Dovecot's userdb, in pieces: which users are asked for, what is written and heard, and what the answers are.
#![tactic(auto)]

pub mod answer;
pub mod connection;
pub mod end;
mod escape;
pub mod laws;
mod line;
pub mod probe;
pub mod request;
pub mod talk;
pub mod wanted;

pub use answer::{UserdbAnswer, UserdbReply};
pub use connection::UserdbConnection;
pub use end::UserdbEnd;
pub use probe::{PROBE_OCTETS, UserdbTrust, probe_name, trust_after};
pub use request::is_askable;
pub use talk::{UserdbPhase, UserdbTalk};
pub use wanted::UserdbWanted;
