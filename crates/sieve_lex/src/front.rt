//! The token that a text begins with.
ghost use Rattle.std.specs.Prelude.{◌≡◌, ◌∷◌, ◌↔◌, IsTrue, slice_index, take, codes};
ghost use Rattle.sieve_lex.specs.Spelling.{OpensText};
ghost use Rattle.std.specs.List.{prefix_len};
ghost use Rattle.sieve_lex.specs.Class.{is_name_start, is_name_octet};
ghost use Rattle.sieve_lex.specs.Finding.{FindsOne, IfFaultLine};
ghost use Rattle.sieve_lex.specs.Front.{IsFront};
ghost use Rattle.octets.specs.Ascii.{is_digit, lowered};

use crate::class::{Class, class_of, is_name_octet, is_name_start};
use crate::fault::{FaultKind, ScriptError, ScriptFault};
use crate::multiline::read_body;
use crate::number::{amount, digit_count, multiplier};
use crate::quoted::read_quoted;
use crate::said::Said;
use crate::token::Content;
use std::alloc::Global;

/// A token that a text begins with, and how many octets spell it.
#[derive(Drop)]
pub(crate) struct Front<'a> {
    pub(crate) content: Content<'a>,
    pub(crate) len: usize,
}

/// Reads the token that begins with the text's first octet. Looks only at its octets, and at those by which
/// it isn't a token.
#[inline(always)]
pub(crate) fn read_front<'a>(
    alloc: Global,
    octets: &'a [u8],
    line: u64,
) -> Result<Front<'a>, ScriptError>
    ensures found { FindsOne (IsFront octets.now) result }
    ensures lines { IfFaultLine result (λ n. n ≡ line) }
{
    let bad = ScriptError::Fault(ScriptFault {
        line,
        kind: FaultKind::BadByte,
    });
    let Some((first, rest)) = octets.split_first() else {
        return Err(bad);
    };
    if is_name_start(*first) {
        return read_identifier(alloc, octets, line);
    }
    if first.is_ascii_digit() {
        return read_number(octets, line);
    }
    if *first == b':' {
        return read_tag(rest, line);
    }
    if *first == b'"' {
        return read_string(alloc, rest, line);
    }
    match class_of(*first) {
        Class::Mark(mark) => Ok(Front {
            content: Content::Mark(mark),
            len: 1,
        }),
        _ => Err(bad),
    }
}

/// Reads the identifier that begins with the text's first octet.
#[inline(always)]
fn read_identifier<'a>(alloc: Global, octets: &'a [u8], line: u64) -> Result<Front<'a>, ScriptError>
    requires { IsTrue (is_name_start (slice_index octets.now 0)) }
    ensures found { FindsOne (IsFront octets.now) result }
    ensures lines { IfFaultLine result (λ n. n ≡ line) }
{
    let (name, rest) = octets.split_at(name_len(octets));
    if opens_text(name, rest) {
        return read_multiline(alloc, octets, line);
    }
    Ok(Front {
        content: Content::Identifier(Said::in_text(name)),
        len: name.len(),
    })
}

/// Reads the string of several lines that begins with the text's first octets, `text:`.
fn read_multiline<'a>(alloc: Global, octets: &'a [u8], line: u64) -> Result<Front<'a>, ScriptError>
    requires { lowered (take 5 octets.now) ≡ codes "text:" }
    ensures found { FindsOne (IsFront octets.now) result }
    ensures lines { IfFaultLine result (λ n. n ≡ line) }
{
    let (_, body) = octets.split_at(5);
    let (value, len) = read_body(alloc, body, line)?;
    Ok(Front {
        content: Content::Text(Said::apart(value)),
        len: 5 + len,
    })
}

/// Whether this is the name `text`, in any case, with a colon right after it: it begins a string of several lines.
fn opens_text(name: &[u8], rest: &[u8]) -> bool
    ensures { IsTrue result ↔ OpensText (Content.Identifier name.now) rest.now }
{
    rest.first() == Some(&b':') && name.eq_ignore_ascii_case(b"text")
}

/// Reads the tag whose colon precedes this text.
#[inline(always)]
fn read_tag<'a>(octets: &'a [u8], line: u64) -> Result<Front<'a>, ScriptError>
    ensures found { FindsOne (IsFront (58 ∷ octets.now)) result }
    ensures lines { IfFaultLine result (λ n. n ≡ line) }
{
    if !begins_name(octets) {
        return Err(ScriptError::Fault(ScriptFault {
            line,
            kind: FaultKind::BadByte,
        }));
    }
    let (name, _) = octets.split_at(name_len(octets));
    Ok(Front {
        content: Content::Tag(Said::in_text(name)),
        len: 1 + name.len(),
    })
}

/// Reads the number that begins with the text's first octet.
#[inline(always)]
fn read_number<'a>(octets: &'a [u8], line: u64) -> Result<Front<'a>, ScriptError>
    requires { IsTrue (is_digit (slice_index octets.now 0)) }
    ensures found { FindsOne (IsFront octets.now) result }
    ensures lines { IfFaultLine result (λ n. n ≡ line) }
{
    let (digits, rest) = octets.split_at(digit_count(octets));
    let (factor, letters) = multiplier(rest);
    match amount(digits, factor) {
        Some(amount) => Ok(Front {
            content: Content::Number(amount),
            len: digits.len() + letters,
        }),
        None => Err(ScriptError::Fault(ScriptFault {
            line,
            kind: FaultKind::NumberTooLarge,
        })),
    }
}

/// Reads the quoted string whose opening quotation mark precedes this text.
#[inline(always)]
fn read_string<'a>(alloc: Global, octets: &'a [u8], line: u64) -> Result<Front<'a>, ScriptError>
    ensures found { FindsOne (IsFront (34 ∷ octets.now)) result }
    ensures lines { IfFaultLine result (λ n. n ≡ line) }
{
    let (value, len) = read_quoted(alloc, octets, line)?;
    Ok(Front {
        content: Content::Text(value),
        len: 1 + len,
    })
}

/// Whether the text begins with a letter or `_`.
fn begins_name(octets: &[u8]) -> bool
    ensures { result ≡ is_name_start (slice_index octets.now 0) }
{
    match octets.first() {
        Some(first) => is_name_start(*first),
        None => false,
    }
}

/// How many octets at the beginning continue a name.
fn name_len(octets: &[u8]) -> usize
    ensures { result ≡ prefix_len is_name_octet octets.now }
{
    octets
        .iter()
        .take_while(|octet| is_name_octet(**octet))
        .count()
}
