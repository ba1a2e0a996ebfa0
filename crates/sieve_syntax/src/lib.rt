//! The commands of a Sieve script, and what they mean (RFC 5228, 8.2).
#![tactic(auto)]

mod capability;
mod error;
mod extension;
pub mod laws;
mod parser;
mod script;
mod table;
mod tree;

pub use capability::Capability;
pub use extension::ExtensionTest;
pub use extension::date::{CurrentDate, DateTest, DateZone};
pub use extension::envelope::{EnvelopeParts, EnvelopeTest};
pub use extension::fileinto::{FileInto, is_mailbox};
pub use extension::imap4flags::HasFlag;
pub use extension::relational::Relation;
pub use extension::vacation::{ReplyFrom, Vacation, VacationArgs};
pub use mail_dates::DatePart;
pub use script::{Script, check};
pub use sieve_lex::{FaultKind, ScriptError, ScriptFault};
pub use tree::action::{Action, Redirect};
pub use tree::checks::{Address, AddressPart, Bound, Collation, Header, MailCheck, Matching, Size};
pub use tree::command::{Branch, Command};
pub use tree::test::Test;
