//! The value of a command, read from its text.
ghost use Rattle.std.specs.Prelude.{◌≡◌, ◌≤◌, IfOk, OnErr, is_some, length, true, false};
ghost use Rattle.managesieve_protocol.specs.Values as v;

use crate::command_name::CommandName;
use crate::commands::ClientCommand;
use octets::Octets;
use std::alloc::{AllocError, Global};

/// The command that a text spells; a text that spells none gives some command. Each octet is read once, and a literal's
/// text is copied in one piece. Lack of memory is the only error.
pub(crate) fn command(
    alloc: Global,
    text: &[u8],
    pending: bool,
) -> Result<ClientCommand, AllocError>
    ensures value { IfOk result (λ command. command ≡ v.command_in pending text.now) }
    ensures lacks { OnErr result (v.has_string (v.command_in pending text.now) ≡ true) }
{
    if pending {
        return response(alloc, text);
    }
    let end = name_length(text);
    match CommandName::named(&text[..end]) {
        Some(verb) => of_verb(alloc, verb, &text[end..]),
        None => response(alloc, text),
    }
}

// A string alone.
fn response(alloc: Global, text: &[u8]) -> Result<ClientCommand, AllocError>
    ensures { IfOk result (λ command. command ≡ v.response_in text.now) }
{
    let (value, _) = string(alloc, text)?;
    Ok(ClientCommand::Response(value))
}

// The command of a verb and of what comes after it.
fn of_verb(alloc: Global, verb: CommandName, rest: &[u8]) -> Result<ClientCommand, AllocError>
    ensures value { IfOk result (λ command. command ≡ v.command_of verb rest.now) }
    ensures lacks { OnErr result (v.has_string (v.command_of verb rest.now) ≡ true) }
{
    Ok(match verb {
        CommandName::Authenticate => authenticate(alloc, rest)?,
        CommandName::Capability => ClientCommand::Capability,
        CommandName::CheckScript => ClientCommand::CheckScript(one_text(alloc, rest)?),
        CommandName::DeleteScript => ClientCommand::DeleteScript(one_text(alloc, rest)?),
        CommandName::GetScript => ClientCommand::GetScript(one_text(alloc, rest)?),
        CommandName::HaveSpace => {
            let (name, more) = text(alloc, rest)?;
            let size = size(more);
            ClientCommand::HaveSpace { name, size }
        }
        CommandName::ListScripts => ClientCommand::ListScripts,
        CommandName::Logout => ClientCommand::Logout,
        CommandName::Noop => ClientCommand::Noop(maybe_text(alloc, rest)?),
        CommandName::PutScript => {
            let (name, script) = two_texts(alloc, rest)?;
            ClientCommand::PutScript { name, script }
        }
        CommandName::RenameScript => {
            let (old, new) = two_texts(alloc, rest)?;
            ClientCommand::RenameScript { old, new }
        }
        CommandName::SetActive => ClientCommand::SetActive(one_text(alloc, rest)?),
        CommandName::Unauthenticate => ClientCommand::Unauthenticate,
    })
}

// A login's mechanism and its initial response, if there is one.
fn authenticate(alloc: Global, rest: &[u8]) -> Result<ClientCommand, AllocError>
    ensures { IfOk result (λ command. command ≡ v.authenticate_of (v.text_in rest.now)) }
{
    let (mechanism, more) = text(alloc, rest)?;
    let response = maybe_text(alloc, more)?;
    Ok(ClientCommand::Authenticate {
        mechanism,
        response,
    })
}

// A number after a space.
fn size(rest: &[u8]) -> u32
    ensures { result ≡ v.size_in rest.now }
{
    number(&rest[rest.len().min(1)..]).0
}

// How many octets come before the first SP or CR.
fn name_length(text: &[u8]) -> usize
    ensures value { result ≡ v.name_length text.now }
    ensures within { result ≤ length text.now }
{
    let mut rest = text;
    let mut count = 0;
    while let Some((octet, more)) = rest.split_first() {
        if *octet == b' ' || *octet == b'\r' {
            break;
        }
        count += 1;
        rest = more;
    }
    count
}

// A string after a space.
fn one_text(alloc: Global, rest: &[u8]) -> Result<Octets, AllocError>
    ensures { IfOk result (λ value. value ≡ (v.text_in rest.now).0) }
{
    let (value, _) = text(alloc, rest)?;
    Ok(value)
}

// Two strings, each after a space.
fn two_texts(alloc: Global, rest: &[u8]) -> Result<(Octets, Octets), AllocError>
    ensures { IfOk result (λ values. values ≡ v.texts_in rest.now) }
{
    let (first, more) = text(alloc, rest)?;
    let second = one_text(alloc, more)?;
    Ok((first, second))
}

// A string after a space, if there is one.
fn maybe_text(alloc: Global, rest: &[u8]) -> Result<Option<Octets>, AllocError>
    ensures value { IfOk result (λ value. value ≡ v.maybe_text_in rest.now) }
    ensures lacks { OnErr result (is_some (v.maybe_text_in rest.now) ≡ true) }
{
    match rest.split_first() {
        Some((b' ', more)) => {
            let (value, _) = string(alloc, more)?;
            Ok(Some(value))
        }
        _ => Ok(None),
    }
}

// A string after a space, and the rest.
fn text(alloc: Global, rest: &[u8]) -> Result<(Octets, &[u8]), AllocError>
    ensures { IfOk result (λ read. (read.0, read.1.now) ≡ v.text_in rest.now) }
{
    string(alloc, &rest[rest.len().min(1)..])
}

// A string, and the rest.
fn string(alloc: Global, text: &[u8]) -> Result<(Octets, &[u8]), AllocError>
    ensures { IfOk result (λ read. (read.0, read.1.now) ≡ v.string_in text.now) }
{
    match text.split_first() {
        Some((b'"', rest)) => quoted(alloc, rest),
        Some((_, rest)) => {
            let (count, after) = number(rest);
            literal(alloc, count as usize, after)
        }
        None => Ok((Octets::new(alloc), text)),
    }
}

// A quoted string after its first quotation mark, and what comes after its last.
fn quoted(alloc: Global, text: &[u8]) -> Result<(Octets, &[u8]), AllocError>
    ensures { IfOk result (λ read. (read.0, read.1.now) ≡ v.quoted_in false text.now) }
{
    let mut value = Octets::new(alloc);
    let mut escape = false;
    let mut rest = text;
    while let Some((octet, more)) = rest.split_first() {
        rest = more;
        if escape {
            escape = false;
            value.push(*octet)?;
        } else if *octet == b'"' {
            break;
        } else if *octet == b'\\' {
            escape = true;
        } else {
            value.push(*octet)?;
        }
    }
    Ok((value, rest))
}

// That many octets after the four that end a literal's head, and the rest.
fn literal(alloc: Global, count: usize, text: &[u8]) -> Result<(Octets, &[u8]), AllocError>
    ensures { IfOk result (λ read. (read.0, read.1.now) ≡ v.literal_in (count, text.now)) }
{
    let body = &text[text.len().min(4)..];
    let (value, rest) = body.split_at(count.min(body.len()));
    Ok((Octets::from_slice(alloc, value)?, rest))
}

// The number at the start, below 2^32, and the rest.
fn number(text: &[u8]) -> (u32, &[u8])
    ensures { (result.0, result.1.now) ≡ v.digits_in 0 text.now }
{
    let mut number = 0;
    let mut rest = text;
    while let Some((octet, more)) = rest.split_first() {
        if !octet.is_ascii_digit() {
            break;
        }
        let longer = number as u64 * 10 + (*octet - b'0') as u64;
        if longer >= 1 << 32 {
            break;
        }
        number = longer as u32;
        rest = more;
    }
    (number, rest)
}
