//! Writes a reply.
ghost use Rattle.std.specs.Prelude.{◌≡◌, ◌++◌, [], ◌∷◌, OnOk, OnErr};
ghost use Rattle.managesieve_protocol.specs.Arguments.{inside, quoted_octet};
ghost use Rattle.managesieve_protocol.specs.Replies as s;

use crate::replies::{DataLine, ReplyCode, ServerReply, Status};
use crate::state::MAX_QUOTED;
use octets::{Octets, write_decimal};
use std::alloc::{AllocError, Global};
use std::mem;

/// The largest number of octets around a script's name or text in its line: a literal's braces, digits and line end, and ` ACTIVE`.
const MOST_AROUND: usize = 32;

/// Appends the reply: strings are quoted if they fit, with `\` before each `"` and `\`, else literals.
///
/// Time and memory are linear in the reply's octets; a text is copied once. Lack of memory is the only error, and `out`
/// is then as before.
pub fn spell(alloc: Global, reply: &ServerReply, out: &mut Octets) -> Result<(), AllocError>
    ensures ok { OnOk result (out.new ≡ out.old ++ s.reply_octets reply.now) }
    ensures err { OnErr result (out.new ≡ out.old) }
{
    out.reserve(room(reply.lines.as_slice()))?;
    let before = out.len();
    let done = append(reply, out);
    if done.is_err() {
        let mut octets = mem::replace(out, Octets::new(alloc)).into_vec();
        octets.truncate(before);
        *out = Octets::from_vec(octets);
    }
    done
}

// About how many octets the lines before the last one take, if nothing in them is escaped.
fn room(lines: &[DataLine]) -> usize {
    let mut count: usize = 0;
    for line in lines {
        let text = match line {
            DataLine::Capability { name, .. } | DataLine::Script { name, .. } => name.len(),
            DataLine::Text(text) => text.len(),
            DataLine::Empty => 0,
        };
        count = count.saturating_add(text).saturating_add(MOST_AROUND);
    }
    count
}

fn append(reply: &ServerReply, out: &mut Octets) -> Result<(), AllocError>
    ensures ok { OnOk result (out.new ≡ out.old ++ s.reply_octets reply.now) }
    ensures err { OnErr result (s.ExtendsText out.old out.new) }
{
    lines(reply.lines.as_slice(), out)?;
    last(reply, out)
}

fn lines(lines: &[DataLine], out: &mut Octets) -> Result<(), AllocError>
    ensures ok { OnOk result (out.new ≡ out.old ++ s.lines_spelled lines.now) }
    ensures err { OnErr result (s.ExtendsText out.old out.new) }
{
    let mut rest = lines;
    while let Some((next, more)) = rest.split_first() {
        line(next, out)?;
        rest = more;
    }
    Ok(())
}

fn line(line: &DataLine, out: &mut Octets) -> Result<(), AllocError>
    ensures ok { OnOk result (out.new ≡ out.old ++ s.line_spelled line.now) }
    ensures err { OnErr result (s.ExtendsText out.old out.new) }
{
    match line {
        DataLine::Capability { name, value } => {
            spell_string(name.as_slice(), out)?;
            after_space(value, out)?;
        }
        DataLine::Script { name, active } => {
            spell_string(name.as_slice(), out)?;
            if *active {
                out.extend_from_slice(b" ACTIVE")?;
            }
        }
        DataLine::Text(text) => literal(text.as_slice(), out)?,
        DataLine::Empty => out.extend_from_slice(b"\"\"")?,
    }
    out.extend_from_slice(b"\r\n")
}

fn last(reply: &ServerReply, out: &mut Octets) -> Result<(), AllocError>
    ensures ok { OnOk result (out.new ≡ out.old ++ s.last_spelled reply.now.word reply.now.code reply.now.text) }
    ensures err { OnErr result (s.ExtendsText out.old out.new) }
{
    let Some(status) = reply.word else {
        return Ok(());
    };
    out.extend_from_slice(word(status))?;
    code(&reply.code, out)?;
    after_space(&reply.text, out)?;
    out.extend_from_slice(b"\r\n")
}

fn word(status: Status) -> &'static [u8]
    ensures { result.now ≡ s.status_word status }
{
    match status {
        Status::Ok => b"OK",
        Status::No => b"NO",
        Status::Bye => b"BYE",
    }
}

fn code(code: &Option<ReplyCode>, out: &mut Octets) -> Result<(), AllocError>
    ensures ok { OnOk result (out.new ≡ out.old ++ s.code_spelled code.now) }
    ensures err { OnErr result (s.ExtendsText out.old out.new) }
{
    let Some(code) = code else {
        return Ok(());
    };
    match code {
        ReplyCode::Tag(tag) => {
            out.extend_from_slice(b" (TAG ")?;
            spell_string(tag.as_slice(), out)?;
            out.extend_from_slice(b")")
        }
        ReplyCode::MaxSize => out.extend_from_slice(b" (QUOTA/MAXSIZE)"),
        ReplyCode::MaxScripts => out.extend_from_slice(b" (QUOTA/MAXSCRIPTS)"),
        ReplyCode::NonExistent => out.extend_from_slice(b" (NONEXISTENT)"),
        ReplyCode::Active => out.extend_from_slice(b" (ACTIVE)"),
        ReplyCode::AlreadyExists => out.extend_from_slice(b" (ALREADYEXISTS)"),
        ReplyCode::TryLater => out.extend_from_slice(b" (TRYLATER)"),
    }
}

// A space and a string, if there is one.
fn after_space(text: &Option<Octets>, out: &mut Octets) -> Result<(), AllocError>
    ensures ok { OnOk result (out.new ≡ out.old ++ s.spaced_string text.now) }
    ensures err { OnErr result (s.ExtendsText out.old out.new) }
{
    match text {
        Some(text) => {
            out.push(b' ')?;
            spell_string(text.as_slice(), out)
        }
        None => Ok(()),
    }
}

/// Appends a text as a string (RFC 5804, section 4): quoted if it fits, with `\` before each `"` and `\`, else a literal.
///
/// Time and memory are linear in the text. Lack of memory is the only error, and `out` then has more at its end.
pub fn spell_string(text: &[u8], out: &mut Octets) -> Result<(), AllocError>
    ensures ok { OnOk result (out.new ≡ out.old ++ s.string_spelled text.now) }
    ensures err { OnErr result (s.ExtendsText out.old out.new) }
{
    if fits_quotes(text) {
        out.push(b'"')?;
        between_marks(text, out)?;
        out.push(b'"')
    } else {
        literal(text, out)
    }
}

fn literal(text: &[u8], out: &mut Octets) -> Result<(), AllocError>
    ensures ok { OnOk result (out.new ≡ out.old ++ s.literal_spelled text.now) }
    ensures err { OnErr result (s.ExtendsText out.old out.new) }
{
    out.push(b'{')?;
    write_decimal(out, text.len() as u64)?;
    out.extend_from_slice(b"}\r\n")?;
    out.extend_from_slice(text)
}

fn between_marks(text: &[u8], out: &mut Octets) -> Result<(), AllocError>
    ensures ok { OnOk result (out.new ≡ out.old ++ inside text.now) }
    ensures err { OnErr result (s.ExtendsText out.old out.new) }
{
    let mut rest = text;
    while let Some((octet, more)) = rest.split_first() {
        one_octet(*octet, out)?;
        rest = more;
    }
    Ok(())
}

fn one_octet(octet: u8, out: &mut Octets) -> Result<(), AllocError>
    ensures ok { OnOk result (out.new ≡ out.old ++ quoted_octet octet) }
    ensures err { OnErr result (s.ExtendsText out.old out.new) }
{
    if octet == b'"' || octet == b'\\' {
        out.push(b'\\')?;
    }
    out.push(octet)
}

// Whether the text fits between quotation marks.
fn fits_quotes(text: &[u8]) -> bool
    ensures { result ≡ s.fits_quotes 0 text.now }
{
    let mut rest = text;
    let mut count = 0;
    while let Some((octet, more)) = rest.split_first() {
        if *octet == b'\0' || *octet == b'\n' || *octet == b'\r' {
            return false;
        }
        count += if *octet == b'"' || *octet == b'\\' {
            2
        } else {
            1
        };
        if count > MAX_QUOTED {
            return false;
        }
        rest = more;
    }
    true
}
