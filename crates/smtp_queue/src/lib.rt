//! What a run that sends knows of rows that were tried without success: until when each waits, as a text between two runs, and what is
//! told of rows.
#![tactic(auto)]

pub mod book;
pub mod clock;
pub mod report_line;
pub mod row_key;
pub mod wait;
pub mod waits;
pub mod waits_file;

pub use book::{Book, NotedWaits};
pub use clock::SendClock;
pub use report_line::tally_line;
pub use row_key::RowKey;
pub use wait::Wait;
pub use waits::RowWaits;
pub use waits_file::{read_waits, write_waits};

// The queues of a store as a run of `send` needs them: rows that are due, one after the other.

pub mod due_row;
pub mod queue;
pub mod queue_store;
pub mod run;

pub use due_row::DueRow;
pub use queue::StoreQueue;
pub use queue_store::Search;
pub use run::{Ended, send_due};
