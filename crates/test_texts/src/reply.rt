//! Answers of ManageSieve as they are spelled (RFC 5804).
use managesieve_protocol::{DataLine, ReplyCode, ServerReply, Status, spell};
use octets::{List, Octets};
use std::alloc::{AllocError, Global};
use test_files::text_in;

/// The octets of an answer of one line.
pub fn add_reply_spelling(
    alloc: Global,
    out: &mut Octets,
    given: &[Octets],
) -> Result<(), AllocError> {
    match reply_of(alloc, given)? {
        Some(reply) => spell(alloc, &reply, out),
        None => out.extend_from_slice(b"no such answer"),
    }
}

fn reply_of(alloc: Global, given: &[Octets]) -> Result<Option<ServerReply>, AllocError> {
    let Some((kind, given)) = given.split_first() else {
        return Ok(None);
    };
    match text_in(kind.as_slice()) {
        "last" => last(alloc, given),
        "challenge" => with_line(alloc, Some(DataLine::Empty), Some(Status::Ok)),
        kind => {
            let line = line_of(alloc, kind, given)?;
            with_line(alloc, line, None)
        }
    }
}

/// A line of this kind.
fn line_of(alloc: Global, kind: &str, given: &[Octets]) -> Result<Option<DataLine>, AllocError> {
    match given {
        [] if kind == "empty" => Ok(Some(DataLine::Empty)),
        [text] if kind == "text" => Ok(Some(DataLine::Text(text.try_clone(alloc)?))),
        [name, value] if kind == "capability" => capability(alloc, name, value),
        [name, state] if kind == "script" => script(alloc, name, state.as_slice()),
        _ => Ok(None),
    }
}

fn capability(
    alloc: Global,
    name: &Octets,
    value: &Octets,
) -> Result<Option<DataLine>, AllocError> {
    let name = name.try_clone(alloc)?;
    let value = some(alloc, value)?;
    Ok(Some(DataLine::Capability { name, value }))
}

fn script(alloc: Global, name: &Octets, state: &[u8]) -> Result<Option<DataLine>, AllocError> {
    let active = state == b"active".as_slice();
    let name = name.try_clone(alloc)?;
    Ok(Some(DataLine::Script { name, active }))
}

/// An answer of one line, and of a last line with this word.
fn with_line(
    alloc: Global,
    line: Option<DataLine>,
    word: Option<Status>,
) -> Result<Option<ServerReply>, AllocError> {
    let Some(line) = line else {
        return Ok(None);
    };
    let mut lines = List::new(alloc);
    lines.push(line)?;
    Ok(Some(ServerReply {
        lines,
        word,
        code: None,
        text: None,
    }))
}

/// An answer of a last line alone.
fn last(alloc: Global, given: &[Octets]) -> Result<Option<ServerReply>, AllocError> {
    let [word, code, text] = given else {
        return Ok(None);
    };
    let code = code_of(alloc, code.as_slice())?;
    let text = some(alloc, text)?;
    Ok(Some(ServerReply {
        lines: List::new(alloc),
        word: word_of(text_in(word.as_slice())),
        code,
        text,
    }))
}

/// The text, or none if it is empty.
fn some(alloc: Global, text: &Octets) -> Result<Option<Octets>, AllocError> {
    if text.is_empty() {
        return Ok(None);
    }
    Ok(Some(text.try_clone(alloc)?))
}

fn word_of(word: &str) -> Option<Status> {
    match word {
        "ok" => Some(Status::Ok),
        "no" => Some(Status::No),
        "bye" => Some(Status::Bye),
        _ => None,
    }
}

fn code_of(alloc: Global, code: &[u8]) -> Result<Option<ReplyCode>, AllocError> {
    match code.strip_prefix(b"tag:") {
        Some(tag) => Ok(Some(ReplyCode::Tag(Octets::from_slice(alloc, tag)?))),
        None => Ok(plain_code(text_in(code))),
    }
}

/// The code without a text that this word stands for.
fn plain_code(word: &str) -> Option<ReplyCode> {
    match word {
        "maxsize" => Some(ReplyCode::MaxSize),
        "maxscripts" => Some(ReplyCode::MaxScripts),
        "nonexistent" => Some(ReplyCode::NonExistent),
        "active" => Some(ReplyCode::Active),
        "alreadyexists" => Some(ReplyCode::AlreadyExists),
        "trylater" => Some(ReplyCode::TryLater),
        _ => None,
    }
}
