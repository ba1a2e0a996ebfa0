//! What a server answers.
ghost use Rattle.std.specs.Prelude.{◌≡◌, ◌≤◌, ◌<◌, ℕ, ◌∷◌, length, ◌↔◌, IsTrue};
ghost use Rattle.smtp_dialogue.specs.Replies as s;

use lmtp_dialogue::{Found, find_line};

/// A line of a reply (RFC 5321, section 4.2).
#[derive(Clone, Copy)]
pub struct ReplyLine<'a> {
    /// From 200 to 599.
    pub code: u16,
    /// No other line of the reply follows.
    pub is_last: bool,
    /// What follows the code and its mark.
    pub text: &'a [u8],
}

/// The line of a reply that these octets are, without their CRLF; none if they are none.
pub fn read_reply_line(line: &[u8]) -> Option<ReplyLine<'_>>
    ensures { s.ReadsReplyLine line.now result }
{
    let (first, behind) = line.split_first()?;
    let (second, behind) = behind.split_first()?;
    let (third, rest) = behind.split_first()?;
    match code_of(*first, *second, *third) {
        Some(code) => read_mark(code, rest),
        None => None,
    }
}

// Three digits, of which the first is 2 to 5.
fn code_of(first: u8, second: u8, third: u8) -> Option<u16>
    ensures { s.ReadsCode first second third result }
{
    if !(b'2'..=b'5').contains(&first) || !second.is_ascii_digit() || !third.is_ascii_digit() {
        return None;
    }
    Some(100 * u16::from(first - b'0') + 10 * u16::from(second - b'0') + u16::from(third - b'0'))
}

// What follows the code.
fn read_mark(code: u16, rest: &[u8]) -> Option<ReplyLine<'_>>
    ensures { s.ReadsMark code rest.now result }
{
    match rest.split_first() {
        None => Some(ReplyLine {
            code,
            is_last: true,
            text: rest,
        }),
        Some((b' ', text)) => Some(ReplyLine {
            code,
            is_last: true,
            text,
        }),
        Some((b'-', text)) => Some(ReplyLine {
            code,
            is_last: false,
            text,
        }),
        Some(_) => None,
    }
}

/// What comes first in the octets that a server sent.
#[derive(Clone, Copy)]
pub enum Heard {
    /// No whole reply yet.
    Need,
    /// A reply with this code, and its number of octets with the CRLF of each line.
    Reply { code: u16, count: usize },
    /// None, whatever follows.
    Bad,
}

/// What comes first in the octets that a server sent: a reply of one line or of several, all with the same code (RFC 5321, section
/// 4.2.1).
///
/// A line has at most 2,048 octets with its CRLF. Time is linear in the octets of the reply; no memory is taken.
pub fn first_reply(octets: &[u8]) -> Heard
    ensures { s.HearsReply octets.now result }
{
    let mut at = 0;
    let mut code = None;
    loop {
        let (_, left) = octets.split_at(at);
        match find_line(left) {
            Found::Need => return Heard::Need,
            Found::TooLong => return Heard::Bad,
            Found::Line(count) => {
                let (octets, _) = left.split_at(count);
                let Some(line) = line_of(code, octets) else {
                    return Heard::Bad;
                };
                at += count + 2;
                if line.is_last {
                    return Heard::Reply {
                        code: line.code,
                        count: at,
                    };
                }
                code = Some(line.code);
            }
        }
    }
}

// The line of a reply that these octets are, if its code is that of the lines before it.
fn line_of(code: Option<u16>, octets: &[u8]) -> Option<ReplyLine<'_>>
    ensures { s.ReadsNextLine code octets.now result }
{
    match read_reply_line(octets) {
        Some(line) => {
            if agrees(code, line.code) {
                Some(line)
            } else {
                None
            }
        }
        None => None,
    }
}

fn agrees(other: Option<u16>, code: u16) -> bool
    ensures { IsTrue result ↔ s.CodeAgrees other code }
{
    match other {
        Some(other) => code == other,
        None => true,
    }
}
