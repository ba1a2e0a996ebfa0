//! What the daemon knows of a connection beside its session.
use octets::Octets;

/// What a connection waits for, beside its socket. Moments are in milliseconds.
#[derive(Drop)]
pub enum SessionWait {
    /// Nothing.
    Nothing,
    /// The store, which wasn't available at the first moment, and is asked for again at the second.
    Store(u64, u64),
    /// The answer to a command that the store refused, or that lacked memory.
    Refused,
    /// The moment at which this is said.
    Reply(u64, Octets),
}

/// Whether there was room for what a client sent.
#[derive(Clone, Copy, Debug, PartialEq, Eq)]
pub enum Fit {
    /// There was.
    Fits,
    /// There was none for what came last. The client is told so in its next step.
    Over,
    /// It is told so, and nothing more is wanted of it.
    Told,
}

/// What the daemon knows of a connection beside its session. Moments are in milliseconds.
#[derive(Drop)]
pub struct ClientState {
    pub waits: SessionWait,
    /// The moment since which nobody is logged in; if somebody is, that of the last answer.
    pub unauthenticated_since: u64,
    /// The moment of the last answer, or of the first octet after it.
    pub since: u64,
    pub fit: Fit,
}
