//! One line of the server, and what it says.
ghost use Rattle.std.specs.Prelude.{◌≡◌, IfOk};
ghost use Rattle.std.specs.Option.{option_copied};
ghost use Rattle.dovecot_userdb.specs.Lines.{CutsAt};
ghost use Rattle.dovecot_userdb.specs.Answers as s;

use crate::answer::{UserdbAnswer, UserdbReply};
use crate::escape::read_escaped;
use memchr::memchr;
use octets::parse_decimal;
use std::alloc::{AllocError, Global};

/// Each field but the last one ends with it.
const TAB: u8 = b'\t';

/// What a line of the server says.
#[derive(Drop)]
pub(crate) enum UserdbLine {
    /// The answer to a request.
    Answer(UserdbReply),
    /// Something that a client passes over.
    Passed,
    /// It begins as an answer, and is none.
    Broken,
}

/// What the first field of a line announces.
#[derive(Clone, Copy)]
pub(crate) enum UserdbWord {
    /// A user.
    User,
    /// That there is no user.
    NotFound,
    /// That the server can't tell.
    Fail,
    /// No answer.
    Other,
}

/// What stands before the first of a mark, and what follows it; all, and nothing, if there is none. Takes no memory.
pub(crate) fn cut_at(mark: u8, octets: &[u8]) -> (&[u8], Option<&[u8]>)
    ensures { CutsAt mark octets.now result.0.now (option_copied result.1) }
{
    let Some(at) = memchr(mark, octets) else {
        return (octets, None);
    };
    let (front, behind) = octets.split_at(at);
    match behind.split_first() {
        Some((_, rest)) => (front, Some(rest)),
        None => (front, None),
    }
}

/// What a line says, without its LF. Time and memory are linear in its octets; lack of memory is the only error.
pub(crate) fn read_line(alloc: Global, line: &[u8]) -> Result<UserdbLine, AllocError>
    ensures { IfOk result (λ said. s.LineSays line.now said) }
{
    let (word, rest) = cut_at(TAB, line);
    match word_of(word) {
        UserdbWord::User => read_found(alloc, rest),
        UserdbWord::NotFound => Ok(read_plain(rest, UserdbAnswer::NotFound)),
        UserdbWord::Fail => Ok(read_plain(rest, UserdbAnswer::Failed)),
        UserdbWord::Other => Ok(UserdbLine::Passed),
    }
}

/// Whether a line says version 1 of the protocol.
pub(crate) fn is_version_one(line: &[u8]) -> bool
    ensures { s.TellsVersion line.now result }
{
    let (word, rest) = cut_at(TAB, line);
    if word == b"VERSION".as_slice() {
        return begins_with_one(rest);
    }
    false
}

// Whether what follows a word begins with the number 1.
fn begins_with_one(behind: Option<&[u8]>) -> bool
    ensures { s.TellsMajorOne (option_copied behind.entry) result }
{
    match number_in(behind) {
        Some((major, _)) => major == 1,
        None => false,
    }
}

fn word_of(word: &[u8]) -> UserdbWord
    ensures { s.IsWord word.now result }
{
    if word == b"USER".as_slice() {
        return UserdbWord::User;
    }
    if word == b"NOTFOUND".as_slice() {
        return UserdbWord::NotFound;
    }
    if word == b"FAIL".as_slice() {
        return UserdbWord::Fail;
    }
    UserdbWord::Other
}

// What a line says that begins with USER, from what follows that.
fn read_found(alloc: Global, behind: Option<&[u8]>) -> Result<UserdbLine, AllocError>
    ensures { IfOk result (λ said. s.SaysFound (option_copied behind.entry) said) }
{
    let Some((id, more)) = number_in(behind) else {
        return Ok(UserdbLine::Broken);
    };
    let Some(fields) = more else {
        return Ok(UserdbLine::Broken);
    };
    let (text, _) = cut_at(TAB, fields);
    match read_escaped(alloc, text)? {
        Some(name) => Ok(UserdbLine::Answer(UserdbReply {
            id,
            answer: UserdbAnswer::Found { name },
        })),
        None => Ok(UserdbLine::Broken),
    }
}

// What a line says that begins with a word for this answer, from what follows that.
fn read_plain(behind: Option<&[u8]>, answer: UserdbAnswer) -> UserdbLine
    ensures { s.SaysPlain (option_copied behind.entry) answer result }
{
    match number_in(behind) {
        Some((id, _)) => UserdbLine::Answer(UserdbReply { id, answer }),
        None => UserdbLine::Broken,
    }
}

// The number that is the first field, and what follows it; none if that is no number below 2^32.
fn number_in(behind: Option<&[u8]>) -> Option<(u32, Option<&[u8]>)>
    ensures { s.ReadsNumber (option_copied behind.entry) result }
{
    let (field, rest) = cut_at(TAB, behind?);
    match u32::try_from(parse_decimal(field)?) {
        Ok(number) => Some((number, rest)),
        Err(_) => None,
    }
}
