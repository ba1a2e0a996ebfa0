//! One client's session of ManageSieve (RFC 5804): octets come in pieces, and items are taken off them and answered.
#![tactic(auto)]

mod account;
pub mod command_class;
pub mod command_outcome;
pub mod decision;
pub mod free;
pub mod laws;
pub mod login;
pub mod progress;
pub mod replies;
pub mod script_name;
pub mod scripts;
pub mod session;

pub use command_class::StoreCommand;
pub use command_outcome::{CommandOutcome, SessionChange};
pub use decision::{Decision, ScriptChange};
pub use progress::{FirstItem, FreeStep, Progress};
pub use session::Session;
