//! Who keeps the messages that leave a store: a Maildir, or memory.
#![tactic(auto)]

pub mod file_laws;
mod file_name;
mod file_place;
mod identity;
mod kept;
mod mail_files;
mod maildir;
mod memory_sink;
mod new_names;
mod parts;
mod sink;
mod subscriptions;
mod sync;
mod synced;
mod system_files;

pub use kept::KeptMail;
pub use maildir::Maildir;
pub use memory_sink::MemorySink;
pub use sink::{MailSink, SinkError};

// Where a user's mail is: the directories of a Maildir.

mod directory;
pub mod laws;
mod level;
mod listed;
mod separator;
mod spelling;

pub use directory::directory_of;
pub use separator::Separator;
