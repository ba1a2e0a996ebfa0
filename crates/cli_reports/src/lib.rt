//! The lines that are printed: of what scripts come to, one for each action; of a fault of the script; and of
//! a user's queue and notices, one for each row.
#![tactic(auto)]

mod address;
pub mod laws;
mod line;
pub mod listing;
pub mod report;

pub use listing::{add_notice_line, add_queue_line, list_queue, list_user_notices};
pub use report::{report_fault, report_settlement};
