//! One connection of LMTP (RFC 2033), as a daemon serves it: for which accounts the store is asked, which deliveries are
//! made, and what is said.
#![tactic(auto)]

pub mod addressee;
pub mod connection;
pub mod demand;
mod next;
pub mod progress;

pub use addressee::Addressee;
pub use connection::LmtpConnection;
pub use demand::{DeliveryRequest, Demand, Question};
pub use progress::{LmtpProgress, StoreWait, Wanted};
