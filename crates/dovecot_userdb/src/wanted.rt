//! What a connection waits for.
use crate::end::UserdbEnd;

/// What a connection waits for, besides that its octets are written.
#[derive(Clone, Copy, PartialEq, Eq)]
pub enum UserdbWanted {
    /// That the server says its version.
    Greeting,
    /// That the server answers.
    Answer,
    /// A request.
    Request,
    /// Nothing: it is at its end.
    Nothing(UserdbEnd),
}
