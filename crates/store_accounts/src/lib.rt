//! Accounts with their scripts and messages, kept in the tables of an SQL database.
#![tactic(auto)]

mod account;
mod cell;
mod deliveries;
mod delivery;
mod filing;
mod folder;
mod message;
mod next;
mod notice;
mod numbers;
mod profile;
mod queue;
mod queued_envelope;
mod refusal;
mod reply;
mod report;
mod row;
mod script;
pub mod store;
mod taking;
mod users;
mod whole;

pub use account::Counters;
pub use deliveries::PlannedDelivery;
pub use filing::Filing;
pub use folder::Folder;
pub use next::{CopyKey, QueueKey};
pub use notice::Notice;
pub use profile::Profile;
pub use queue::QueuedMessage;
pub use queued_envelope::QueuedEnvelope;
pub use refusal::Refusal;
pub use reply::{KeptReply, ReplyKey, latest};
pub use report::{Plan, Report, SentMemory, VacationReply, VacationReport};
pub use store::Store;
pub use store_tables::QueuedKind;
pub use taking::NumberedMessage;
