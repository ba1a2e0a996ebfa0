//! Command lines.
ghost use Rattle.std.specs.Prelude.{◌≤◌, length};
ghost use Rattle.lmtp_dialogue.specs.Lines.{LineFinds, Skips};

use memchr::memmem;

/// The most octets of a command line, with its CRLF.
pub const MAX_LINE: usize = 2048;

/// What comes first in a stream of command lines.
#[derive(Clone, Copy, Debug, PartialEq, Eq)]
pub enum Found {
    /// No whole line yet.
    Need,
    /// A line of this many octets, and its CRLF.
    Line(usize),
    /// More octets than a line may have.
    TooLong,
}

/// What comes first in the octets of a client. Looks at 2,048 of them at most; takes no memory.
pub fn find_line(octets: &[u8]) -> Found
    ensures { LineFinds result octets.now }
{
    let most = octets.len().min(MAX_LINE);
    match memmem::find(&octets[..most], b"\r\n") {
        Some(count) => Found::Line(count),
        None => {
            if octets.len() < MAX_LINE {
                Found::Need
            } else {
                Found::TooLong
            }
        }
    }
}

/// How many octets of a line that is too long are dropped: those before its CRLF, or all but the last one, which may be a CR. Takes
/// no memory.
pub fn skip_line(octets: &[u8]) -> usize
    ensures within { result ≤ length octets.now }
    ensures skips { Skips result octets.now }
{
    match memmem::find(octets, b"\r\n") {
        Some(count) => count,
        None => octets.len().saturating_sub(1),
    }
}
