//! What calls on the outside answer.
/// What a wait tells.
#[derive(Clone, Copy, Debug, PartialEq, Eq)]
pub enum Wake {
    /// A connection of that kind may be accepted.
    Knock(u32),
    /// More may be done on this connection.
    Ready(u32),
}

/// What an attempt to accept comes to.
#[derive(Clone, Copy, Debug, PartialEq, Eq)]
pub enum Accepted {
    /// A connection.
    Came,
    /// None for now.
    Nobody,
}

/// What a read comes to.
#[derive(Clone, Copy, Debug, PartialEq, Eq)]
pub enum Input {
    /// The number of octets, at least one.
    Got(usize),
    /// None for now.
    Nothing,
    /// None, ever again.
    Over,
    /// The connection failed.
    Lost,
}

/// What a write comes to.
#[derive(Clone, Copy, Debug, PartialEq, Eq)]
pub enum Output {
    /// The number of octets that were taken, at least one.
    Taken(usize),
    /// None for now.
    Nothing,
    /// The connection failed.
    Lost,
}

/// Why a daemon ends.
#[derive(Clone, Copy, Debug, PartialEq, Eq)]
pub enum WaitError {
    /// A wait failed.
    Wait,
}
