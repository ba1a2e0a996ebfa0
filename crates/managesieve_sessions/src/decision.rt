//! The decision on a command.
use managesieve_protocol::ServerReply;

/// The answer to a command, and what the command changes in the account: nothing unless the answer is `OK`.
#[derive(Drop)]
pub struct Decision<'a> {
    /// The answer.
    pub reply: ServerReply,
    /// What is written before the answer is sent.
    pub change: Option<ScriptChange<'a>>,
}

/// A change to an account's scripts.
#[derive(Clone, Copy)]
pub enum ScriptChange<'a> {
    /// Keeps a script under its name, in place of the one that has the name.
    Put { name: &'a [u8], script: &'a [u8] },
    /// Makes the script of this name active, or none.
    Activate(Option<&'a [u8]>),
    /// Deletes the script of this name.
    Delete(&'a [u8]),
    /// Gives a script another name; it stays active if it was.
    Rename { old: &'a [u8], new: &'a [u8] },
}
