//! The machine: accounts and sessions of ManageSieve, which events change one after the other.
#![tactic(auto)]

mod account;
mod answer;
mod attempting;
mod clients;
mod deliveries;
mod delivery;
mod event;
mod importing;
pub mod laws;
mod limits;
mod machine;
mod parcel;
mod replay;
mod script_edit;
mod standing;
mod taking;
mod terms;
mod upkeep;
mod user;

pub use account::first_message;
pub use answer::Answer;
pub use attempting::{attempt, attempt_on_prefix};
pub use clients::Clients;
pub use deliveries::deliver_all;
pub use delivery::deliver;
pub use event::Event;
pub use importing::import;
pub use machine::{World, apply, apply_free};
pub use managesieve_sessions::Progress;
pub use parcel::Parcel;
pub use replay::{RunAnswers, run};
pub use script_edit::{ScriptEdit, ScriptObjection};
pub use sieve_exec::{Envelope, Failure, Outcome, When};
pub use sieve_plan::{HostScripts, KeptScripts, Settlement};
pub use store_accounts::{Plan, QueuedKind, QueuedMessage, Refusal, Report, VacationReport};
pub use taking::{take_mail, take_mails, take_out};
pub use terms::{HostSettings, LentTerms, Terms};
pub use upkeep::{Upkeep, do_upkeep};
pub use user::add_user;
