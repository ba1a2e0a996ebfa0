//! What comes first in the octets of a server, exactly.
ghost use Rattle.std.specs.Prelude.{◌↔◌, IsTrue};
ghost use Rattle.smtp_dialogue.specs.Replies.{CodeAgrees};
ghost use Rattle.smtp_connections.specs.Answers as s;

use lmtp_dialogue::{Found, find_line};
use smtp_dialogue::read_reply_line;

/// What comes first in the octets that a server sent.
#[derive(Clone, Copy)]
pub(crate) enum SmtpAnswer {
    /// A reply isn't whole yet: each line that is there is one of it, and no line is too long.
    Part,
    /// A reply with this code, and its number of octets with the CRLF of each line.
    Whole {
        /// From 200 to 599.
        code: u16,
        /// How many octets it has.
        count: usize,
    },
    /// A line that is none of a reply, or has another code than those before it.
    NoReply,
    /// A line of more than 2,048 octets with its CRLF.
    LongLine,
}

/// What a line makes of a reply.
#[derive(Clone, Copy)]
pub(crate) enum LineMeans {
    /// It is the last one, with this code.
    Last(u16),
    /// It has this code, and others follow.
    More(u16),
    /// It is none of the reply.
    None,
}

/// What comes first in the octets that a server sent: a reply of one line or of several, all with the same code (RFC 5321, section
/// 4.2.1), or the first fault. Whatever it is, but for a part, it is the same if more octets follow.
///
/// Time is linear in the octets of the reply; no memory is taken.
pub(crate) fn read_answer(octets: &[u8]) -> SmtpAnswer
    ensures { s.Answers octets.now result }
{
    let mut at = 0;
    let mut code = None;
    loop {
        let (_, left) = octets.split_at(at);
        match find_line(left) {
            Found::Need => return SmtpAnswer::Part,
            Found::TooLong => return SmtpAnswer::LongLine,
            Found::Line(count) => {
                let (line, _) = left.split_at(count);
                at += count + 2;
                match line_means(code, line) {
                    LineMeans::Last(code) => return SmtpAnswer::Whole { code, count: at },
                    LineMeans::More(same) => code = Some(same),
                    LineMeans::None => return SmtpAnswer::NoReply,
                }
            }
        }
    }
}

// What a line makes of a reply whose lines before it have this code.
fn line_means(before: Option<u16>, octets: &[u8]) -> LineMeans
    ensures { s.MeansOfReply before octets.now result }
{
    let Some(line) = read_reply_line(octets) else {
        return LineMeans::None;
    };
    if !agrees(before, line.code) {
        return LineMeans::None;
    }
    if line.is_last {
        LineMeans::Last(line.code)
    } else {
        LineMeans::More(line.code)
    }
}

fn agrees(before: Option<u16>, code: u16) -> bool
    ensures { IsTrue result ↔ CodeAgrees before code }
{
    match before {
        Some(other) => code == other,
        None => true,
    }
}
