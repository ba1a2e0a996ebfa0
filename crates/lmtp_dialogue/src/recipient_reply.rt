//! What becomes of a recipient behind the text, and the lines that tell it.
ghost use Rattle.std.specs.Prelude.{◌≡◌, ◌≤◌, ◌+◌, ◌++◌, length, map, IfOk};
ghost use Rattle.std.specs.Vec.{vec_len, vec_capacity};
ghost use Rattle.lmtp_dialogue.specs.RecipientReplies as replies;
ghost use Rattle.lmtp_dialogue.specs.Replies.{lmtp_line_of, lmtp_shown_octet};

use crate::reply::{LmtpReply, front, shown_octet};
use octets::Octets;
use std::alloc::{AllocError, Global};

/// The most octets of a reply, with its codes and CRLF (RFC 5321, section 4.5.3.1.5).
const MAX_REPLY: usize = 512;

/// The most octets of a reply's own text: with both codes and CRLF its line has 512.
const MAX_REPLY_TEXT: usize = 500;

/// What becomes of a recipient, once the text has come (RFC 2033, section 4.2).
///
/// Where one has a text of its own, that may be any: 500 octets of it are said, with `?` for each that isn't printable ASCII.
#[derive(Drop)]
pub enum RecipientReply {
    /// The message was delivered: what is reported of that.
    Delivered(Octets),
    /// It wasn't, and a fixed line says why.
    Refused(LmtpReply),
}

impl RecipientReply {
    /// A copy. Lack of memory is the only error.
    pub fn try_clone(&self, alloc: Global) -> Result<RecipientReply, AllocError>
        ensures { IfOk result (λ copy. copy ≡ self.now) }
    {
        match self {
            RecipientReply::Delivered(report) => Ok(RecipientReply::Delivered(report.try_clone(
                alloc,
            )?)),
            RecipientReply::Refused(reply) => Ok(RecipientReply::Refused(*reply)),
        }
    }
}

/// Memory for a reply, which is reserved before what is replied to is done.
#[derive(Drop)]
pub struct ReplyBuffer {
    lines: Vec<u8>,
    ghost empty: { vec_len lines ≡ 0 },
    ghost room: { 512 ≤ vec_capacity lines },
}

impl ReplyBuffer {
    /// Lack of memory is the only error.
    pub fn new(alloc: Global) -> Result<ReplyBuffer, AllocError> {
        Ok(ReplyBuffer {
            lines: Vec::with_capacity(alloc, MAX_REPLY)?,
        })
    }

    /// The lines that tell it, each with CRLF. Takes no memory.
    pub fn say(self, reply: &RecipientReply) -> Octets
        ensures { result ≡ replies.recipient_lines reply.now }
    {
        let ReplyBuffer { mut lines } = self;
        match reply {
            RecipientReply::Delivered(report) => write_coded(
                &mut lines,
                b"250 2.1.5 ",
                report.as_slice(),
            ),
            RecipientReply::Refused(reply) => write(&mut lines, reply.line()),
        }
        Octets::from_vec(lines)
    }

    /// The line of a reply that has no text of its own. Takes no memory.
    pub fn say_line(self, reply: LmtpReply) -> Octets
        ensures { result ≡ lmtp_line_of reply }
    {
        let ReplyBuffer { mut lines } = self;
        write(&mut lines, reply.line());
        Octets::from_vec(lines)
    }
}

/// Writes a line: codes, at most 500 octets of a text, and CRLF.
fn write_coded(lines: &mut Vec<u8>, code: &[u8], text: &[u8])
    requires { vec_len lines.old + length code.now + 502 ≤ vec_capacity lines.old }
    ensures { lines.new.items ≡ lines.old.items ++ replies.coded_reply code.now text.now }
{
    write(lines, code);
    write_shown(lines, front(text, MAX_REPLY_TEXT));
    write(lines, b"\r\n");
}

fn write(lines: &mut Vec<u8>, more: &[u8])
    requires { vec_len lines.old + length more.now ≤ vec_capacity lines.old }
    ensures items { lines.new.items ≡ lines.old.items ++ more.now }
    ensures len { vec_len lines.new ≡ vec_len lines.old + length more.now }
    ensures capacity { vec_capacity lines.new ≡ vec_capacity lines.old }
{
    for octet in more {
        lines.push_reserved(*octet);
    }
}

fn write_shown(lines: &mut Vec<u8>, more: &[u8])
    requires { vec_len lines.old + length more.now ≤ vec_capacity lines.old }
    ensures items { lines.new.items ≡ lines.old.items ++ map lmtp_shown_octet more.now }
    ensures len { vec_len lines.new ≡ vec_len lines.old + length more.now }
    ensures capacity { vec_capacity lines.new ≡ vec_capacity lines.old }
{
    for octet in more {
        lines.push_reserved(shown_octet(*octet));
    }
}
