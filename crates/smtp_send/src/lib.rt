//! Sends the rows of a queue by SMTP: each is handed to a server, and leaves the queue once the server has taken it.
#![tactic(auto)]

pub mod client;
pub mod dialogue;
pub mod journal;
pub mod peer;
pub mod queue;
pub mod row;
pub mod run;
pub mod server;
mod text;
mod way;

pub use client::SmtpClient;
pub use dialogue::send_message;
pub use journal::{Journal, Unwritten};
pub use peer::{MOMENT, Patience, SmtpPeer};
pub use queue::{DueMessage, QueueUnavailable, SendQueue, TakenOut};
pub use row::{Stop, send_row};
pub use run::{SendTally, send_queue};
pub use server::{Lost, Server};
