//! Why a connection is at its end.
use std::fmt;

/// Why a connection is at its end. Shown in words, which fit after a colon.
#[derive(Clone, Copy, PartialEq, Eq)]
pub enum UserdbEnd {
    /// What came first doesn't say version 1 of the protocol.
    Version,
    /// An answer came to a request that wasn't made, or that is answered already.
    Unasked,
    /// A line begins as an answer, and is none.
    NoAnswer,
    /// A line has more than 8,192 octets with its LF.
    LongLine,
    /// All numbers of requests are used up.
    Spent,
    /// The server ended the connection, or nobody is there.
    Closed,
    /// The server let too much time pass.
    Late,
    /// There was no memory.
    Memory,
}

impl fmt::Display for UserdbEnd {
    fn fmt<W: fmt::Write>(&self, f: &mut fmt::Formatter<W>) -> fmt::Result {
        f.write_str(match self {
            UserdbEnd::Version => "the server doesn't speak version 1 of Dovecot's auth protocol",
            UserdbEnd::Unasked => "the server answers what wasn't asked",
            UserdbEnd::NoAnswer => "what the server says is no answer",
            UserdbEnd::LongLine => "a line of the server has more than 8,192 octets",
            UserdbEnd::Spent => "4,294,967,295 requests were made",
            UserdbEnd::Closed => "the server ended the connection",
            UserdbEnd::Late => "the server is silent for too long",
            UserdbEnd::Memory => "no memory",
        })
    }
}
