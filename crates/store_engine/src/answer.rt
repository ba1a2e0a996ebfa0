//! The answers to events.
use crate::script_edit::ScriptObjection;
use managesieve_sessions::Progress;
use octets::Octets;
use sieve_lex::ScriptFault;
use store_accounts::{QueuedMessage, Refusal, Report};

/// The answer to an event.
#[derive(Drop)]
pub enum Answer {
    /// How the session goes on, and the octets that are sent to the client.
    Out(Progress, Octets),
    /// The delivery was made.
    Delivered(Report),
    /// The account was made.
    Added,
    /// The account of the text is there.
    Imported,
    /// The row was taken out of the queue.
    Taken(QueuedMessage),
    /// The first message of the folder was taken out.
    MailTaken,
    /// The password or the address was changed.
    Changed,
    /// The script was stored.
    Stored,
    /// The text is no script, and nothing was stored.
    Invalid(ScriptFault),
    /// What scripts there are, or which one is active, was changed.
    Edited,
    /// This stands against such a change, and the scripts stay as they are.
    Objected(ScriptObjection),
    /// The account was closed.
    Closed,
    /// The closed account was opened.
    Opened,
    /// The account was removed.
    Removed,
    /// The notices were taken.
    NoticesTaken,
    /// The event isn't one for the session's number.
    Ignored,
    /// The event was refused, and what is seen stayed; after `Store` a crash may leave its change, as a whole.
    Refused(Refusal),
}
