//! How a session goes on.
use crate::command_class::StoreCommand;
use managesieve_protocol::ClientCommand;

/// How a session goes on after a step.
#[derive(Clone, Copy, Debug, PartialEq, Eq)]
pub enum Progress {
    /// No whole item is there: more octets have to come first.
    Need,
    /// One item was answered.
    Done,
    /// The session has ended: the connection is to be closed.
    Close,
}

/// What the first item came to, unless it is a command.
#[derive(Drop)]
pub enum FirstItem {
    /// A step was made.
    Made(Progress),
    /// This command comes first.
    Command(ClientCommand),
}

/// What a step without the store came to.
#[derive(Drop)]
pub enum FreeStep {
    /// A step was made.
    Made(Progress),
    /// The first item is this command, and the store has to be asked about it.
    Asks(StoreCommand),
}
