//! The server's replies.
use octets::{List, Octets};

/// A reply: the lines before the last one, and the last one's parts (RFC 5804, section 1.3).
///
/// Without a status there is no last line, and code and text aren't written.
#[derive(Drop)]
pub struct ServerReply {
    /// The lines before the last one.
    pub lines: List<DataLine>,
    /// The last line's status, if there is a last line.
    pub word: Option<Status>,
    /// The response code in the last line, for programs.
    pub code: Option<ReplyCode>,
    /// The text in the last line, for people.
    pub text: Option<Octets>,
}

/// The status of a reply's last line (RFC 5804, sections 1.2 and 1.3).
#[derive(Clone, Copy)]
pub enum Status {
    /// The command was done.
    Ok,
    /// It was not done.
    No,
    /// It was not done, and the server closes the connection.
    Bye,
}

/// A line before the last one.
#[derive(Drop)]
pub enum DataLine {
    /// A capability of the server, and its value (section 1.7).
    Capability { name: Octets, value: Option<Octets> },
    /// A script's name, and whether it is the active one (section 2.7).
    Script { name: Octets, active: bool },
    /// A script's text, always as a literal (section 2.9).
    Text(Octets),
    /// The empty string of a challenge (section 2.1).
    Empty,
}

/// A response code (section 1.3).
#[derive(Drop)]
pub enum ReplyCode {
    /// The string of the client's `NOOP`.
    Tag(Octets),
    /// The script is too large.
    MaxSize,
    /// There are too many scripts.
    MaxScripts,
    /// There is no such script.
    NonExistent,
    /// The script is the active one.
    Active,
    /// Another script has that name already.
    AlreadyExists,
    /// The server can't do it now.
    TryLater,
}
