//! One connection to a server of SMTP (RFC 5321), in pieces: which octets are to go out, what is waited for, and how each message
//! ended.
#![tactic(auto)]

mod answer;
pub mod connection;
pub mod end;
pub mod exchange;
pub mod laws;
mod lines;
mod replies;
pub mod wanted;

pub use connection::SmtpConnection;
pub use end::SmtpEnd;
pub use exchange::{SmtpExchange, SmtpPhase};
pub use wanted::SmtpWanted;
