//! The parts of an account, of which it may have many.
use octets::Octets;

/// Why a message goes out.
#[derive(Clone, Copy, Debug, PartialEq, Eq)]
pub enum LetterKind {
    /// A message that a script sends on (RFC 5228, section 4.2).
    Redirect,
    /// The reply of a `vacation` (RFC 5230).
    Answer,
}

/// A script, the moment of a reply, a message in a folder, a message on its way out, or a notice.
#[derive(Debug, Drop)]
pub enum Part {
    /// A script, and its text.
    Script {
        name: Octets,
        text: Octets,
    },
    /// When the sender was last replied to under a handle: the handle's key, any octets, the sender in lower case, and seconds since
    /// 1970-01-01 UTC.
    Reply {
        handle: Octets,
        sender: Octets,
        moment: u64,
    },
    /// A message in a folder, with the number of its copy there, and the text that names the copy's flags (empty if it has none).
    Mail {
        number: u64,
        folder: Octets,
        message: Octets,
        flags: Octets,
    },
    /// Another copy of the message before it, which came as `Mail` with the number `first`, and the text that names its own flags.
    Copy {
        number: u64,
        folder: Octets,
        first: u64,
        flags: Octets,
    },
    /// A message on its way out.
    Letter {
        id: u64,
        kind: LetterKind,
        sender: Octets,
        target: Octets,
        message: Octets,
    },
    /// A notice to the user, with its moment in seconds since 1970-01-01 UTC.
    Notice {
        number: u64,
        moment: u64,
        text: Octets,
    },
}
