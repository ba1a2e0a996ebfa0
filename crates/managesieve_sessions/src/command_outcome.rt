//! The outcome of a command that isn't about scripts.
use managesieve_protocol::ServerReply;
use octets::Octets;

/// The answer to a command, and how the session changes.
#[derive(Drop)]
pub struct CommandOutcome {
    /// The answer.
    pub reply: ServerReply,
    /// How the session changes after the answer.
    pub session_change: SessionChange,
}

/// How a session changes after a command.
#[derive(Drop)]
pub enum SessionChange {
    /// It stays as it is.
    Stay,
    /// It ends.
    Close,
    /// A challenge waits for its answer.
    Challenge,
    /// This user is logged in, and no login counts as failed.
    LogIn(Octets),
    /// A login failed; the third one ends the session.
    Fail,
    /// Nobody is logged in, and no login counts as failed.
    LogOut,
}
