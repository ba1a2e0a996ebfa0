//! Why a connection is at its end.
use std::fmt;

/// Why a connection is at its end. Shown in words, which fit after a colon.
#[derive(Clone, Copy, PartialEq, Eq)]
pub enum SmtpEnd {
    /// It was ended by QUIT.
    Quit,
    /// A reply came that isn't one to continue with: to the greeting, EHLO, HELO or RSET, or to a stage of a message.
    Unexpected(u16),
    /// Octets came when it wasn't the server's turn: before all was written, or while nothing was asked of it.
    OutOfTurn,
    /// What came is no reply.
    NoReply,
    /// A line of a reply has more than 2,048 octets.
    LongLine,
    /// A reply has more than 65,536 octets.
    LongReply,
    /// The server ended the connection, or nobody is there.
    Closed,
    /// The server let too much time pass.
    Late,
    /// There was no memory.
    Memory,
}

impl fmt::Display for SmtpEnd {
    fn fmt<W: fmt::Write>(&self, f: &mut fmt::Formatter<W>) -> fmt::Result {
        match self {
            SmtpEnd::Quit => f.write_str("ended by QUIT"),
            SmtpEnd::Unexpected(code) => write!(f, "the server answers {code}"),
            SmtpEnd::OutOfTurn => f.write_str("the server speaks out of turn"),
            SmtpEnd::NoReply => f.write_str("what the server says is no reply"),
            SmtpEnd::LongLine => f.write_str("a line of the server has more than 2,048 octets"),
            SmtpEnd::LongReply => f.write_str("a reply of the server has more than 65,536 octets"),
            SmtpEnd::Closed => f.write_str("the server ended the connection"),
            SmtpEnd::Late => f.write_str("the server is silent for too long"),
            SmtpEnd::Memory => f.write_str("no memory"),
        }
    }
}
