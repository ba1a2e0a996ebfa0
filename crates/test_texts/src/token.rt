//! The tokens of a script (RFC 5228, 8.1).
use octets::Octets;
use sieve_lex::{Content, Mark, Said, ScriptError, Token, tokens};
use std::alloc::{AllocError, Global};
use std::format;
use test_files::LinePart::{Number, Text};
use test_files::add_parts;

/// Each token with what it is and says, its place and its line; or the fault.
pub fn add_tokens(alloc: Global, out: &mut Octets, script: &[u8]) -> Result<(), AllocError> {
    match tokens(alloc, script) {
        Ok(found) => add_all(out, found.as_slice()),
        Err(error) => add_error(alloc, out, &error),
    }
}

fn add_error(alloc: Global, out: &mut Octets, error: &ScriptError) -> Result<(), AllocError> {
    match error {
        ScriptError::Memory => Err(AllocError),
        ScriptError::Fault(_) => out.extend_from_slice(format!(in alloc; "{error}")?.as_bytes()),
    }
}

fn add_all(out: &mut Octets, found: &[Token<'_>]) -> Result<(), AllocError> {
    let mut between: &[u8] = b"";
    for token in found {
        add(out, between, token)?;
        between = b"; ";
    }
    Ok(())
}

fn add(out: &mut Octets, between: &[u8], token: &Token<'_>) -> Result<(), AllocError> {
    out.extend_from_slice(between)?;
    add_content(out, &token.content)?;
    add_place(out, token)
}

fn add_content(out: &mut Octets, content: &Content<'_>) -> Result<(), AllocError> {
    match content {
        Content::Identifier(name) => add_said(out, b"Identifier", name),
        Content::Tag(name) => add_said(out, b"Tag", name),
        Content::Text(value) => add_said(out, b"Text", value),
        Content::Number(number) => add_parts(out, &[Text(b"Number "), Number(*number), Text(b" ")]),
        Content::Mark(mark) => add_parts(out, &[Text(name_of(*mark)), Text(b" ")]),
    }
}

fn add_said<'a>(out: &mut Octets, kind: &'a [u8], said: &'a Said<'_>) -> Result<(), AllocError> {
    add_parts(
        out,
        &[Text(kind), Text(b" <"), Text(said.as_slice()), Text(b"> ")],
    )
}

fn add_place(out: &mut Octets, token: &Token<'_>) -> Result<(), AllocError> {
    let (start, end) = (token.start as u64, token.end as u64);
    add_parts(
        out,
        &[
            Number(start),
            Text(b"-"),
            Number(end),
            Text(b" line "),
            Number(token.line),
        ],
    )
}

fn name_of(mark: Mark) -> &'static [u8] {
    match mark {
        Mark::Semicolon => b"Semicolon",
        Mark::OpenBrace => b"OpenBrace",
        Mark::CloseBrace => b"CloseBrace",
        Mark::OpenBracket => b"OpenBracket",
        Mark::CloseBracket => b"CloseBracket",
        Mark::OpenParen => b"OpenParen",
        Mark::CloseParen => b"CloseParen",
        Mark::Comma => b"Comma",
    }
}
