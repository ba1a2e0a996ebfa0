//! A message with its envelope, as the tests of a script see it, and the outcome of a script on it (RFC 5228, 4 and 5).
#![tactic(auto)]

mod address;
mod cached_mail;
mod envelope;
mod extension;
mod field_cache;
mod header;
mod images;
mod index;
mod joined_address;
pub mod laws;
mod machine;
mod mail;
mod mailboxes;
mod matching;
mod outcome;
mod raw_values;
mod ready_key;
mod ready_keys;
mod run_state;
mod sizes;
mod slices;
mod when;
mod work;

pub use cached_mail::CachedMail;
pub use envelope::{Envelope, domain_in, local_in};
pub use machine::{RunEnd, run_code, run_from};
pub use mail::Mail;
pub use outcome::{Failure, Outcome};
pub use run_state::{INBOX, RunState};
pub use when::When;
pub use work::MAX_WORK;
