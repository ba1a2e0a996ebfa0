//! Encoded characters in strings (RFC 5228, 2.4.2.4).
ghost use Rattle.std.specs.Prelude.{◌≡◌, ◌≤◌, [], length, Some, None, IfOk, MatchBool, MatchOption};
ghost use Rattle.std.specs.List.{list_any};
ghost use Rattle.sieve_lex.specs.Encoded as spec;

use crate::class::is_white;
use memchr::memchr;
use octets::Octets;
use std::alloc::{AllocError, Global};
use std::char;

/// What the numbers of a sequence are.
#[derive(Clone, Copy)]
pub(crate) enum Coding {
    /// Octets.
    Hex,
    /// Characters.
    Unicode,
}

/// What a text begins with.
#[derive(Drop)]
pub(crate) enum Sequence {
    /// No sequence.
    Absent,
    /// A sequence with a number that isn't a character's.
    OutOfRange,
    /// A sequence that stands for these octets, and its own length in octets.
    Present(Octets, usize),
}

/// Numbers saturate here: there is no such character.
const BEYOND: u32 = 0x11_0000;

/// Decodes a string of a script that requires `encoded-character` (RFC 5228, 2.4.2.4): replaces each `${hex: ..}` and
/// `${unicode: ..}` by what it encodes, once. `None` if a sequence has a number that isn't a character's.
///
/// Time and memory are linear in the text's length; a text without `$` is copied as it is.
pub fn decode(alloc: Global, text: &[u8]) -> Result<Option<Octets>, AllocError>
    ensures { IfOk result (λ value. value ≡ spec.decoded text.now) }
{
    let Some(_first) = memchr(b'$', text) else {
        return Ok(Some(Octets::from_slice(alloc, text)?));
    };
    let mut value = Octets::new(alloc);
    let mut at = 0;
    while at < text.len() {
        if text[at] != b'$' {
            value.push(text[at])?;
            at += 1;
            continue;
        }
        let (_, ahead) = text.split_at(at);
        match sequence_at(alloc, ahead)? {
            Sequence::Absent => {
                value.push(text[at])?;
                at += 1;
            }
            Sequence::OutOfRange => return Ok(None),
            Sequence::Present(octets, len) => {
                value.extend_from_slice(octets.as_slice())?;
                at += len;
            }
        }
    }
    Ok(Some(value))
}

/// The sequence that a text begins with. Looks no further than the first octet that isn't part of it.
fn sequence_at(alloc: Global, text: &[u8]) -> Result<Sequence, AllocError>
    ensures found { IfOk result (λ found. found ≡ spec.sequence_at text.now) }
    ensures within { IfOk result (λ found. spec.IsSequenceWithin found text.now) }
{
    let Some((coding, front)) = opening(text) else {
        return Ok(Sequence::Absent);
    };
    let (_, rest) = text.split_at(front);
    let inner = inner_len(rest);
    let (body, after) = rest.split_at(inner);
    if after.first() != Some(&b'}') || !has_digit(body) {
        return Ok(Sequence::Absent);
    }
    Ok(match (coding, values(alloc, coding, body)?) {
        (_, Some(octets)) => Sequence::Present(octets, front + inner + 1),
        (Coding::Hex, None) => Sequence::Absent,
        (Coding::Unicode, None) => Sequence::OutOfRange,
    })
}

/// The kind of the sequence that begins here, and how many octets precede its numbers.
fn opening(text: &[u8]) -> Option<(Coding, usize)>
    ensures value { result ≡ spec.opening_of text.now }
    ensures within { MatchOption result (Unit {0}) (λ found. found.1 ≤ length text.now) }
{
    if begins_with(text, b"${hex:") {
        Some((Coding::Hex, 6))
    } else if begins_with(text, b"${unicode:") {
        Some((Coding::Unicode, 10))
    } else {
        None
    }
}

/// Whether the text begins with `front`, in any ASCII case.
fn begins_with(text: &[u8], front: &[u8]) -> bool
    ensures { result ≡ spec.begins_with front.now text.now }
{
    front.len() <= text.len() && text.split_at(front.len()).0.eq_ignore_ascii_case(front)
}

/// How many octets at the beginning are part of numbers or between them.
fn inner_len(text: &[u8]) -> usize
    ensures value { result ≡ spec.inner_len text.now }
    ensures within { result ≤ length text.now }
{
    text.iter().take_while(|octet| is_inner(**octet)).count()
}

/// Whether a digit is among the octets.
fn has_digit(text: &[u8]) -> bool
    ensures { result ≡ list_any spec.is_hex text.now }
{
    text.iter().any(|octet| is_hex(*octet))
}

fn is_inner(octet: u8) -> bool
    ensures { result ≡ spec.is_inner octet }
{
    is_hex(octet) || is_white(octet)
}

fn is_hex(octet: u8) -> bool
    ensures { result ≡ spec.is_hex octet }
{
    (48 <= octet && octet <= 57) || (65 <= octet && octet <= 70) || (97 <= octet && octet <= 102)
}

/// What the words of these octets stand for.
fn values(alloc: Global, coding: Coding, body: &[u8]) -> Result<Option<Octets>, AllocError>
    ensures { IfOk result (λ value. value ≡ spec.words_value coding (spec.words_from [] body.now)) }
{
    let mut value = Octets::new(alloc);
    let mut digits = 0;
    let mut number = 0;
    for octet in body {
        if !is_white(*octet) {
            digits += 1;
            number = with_hex(number, *octet);
            continue;
        }
        if !append_value(&mut value, coding, digits, number)? {
            return Ok(None);
        }
        digits = 0;
        number = 0;
    }
    if !append_value(&mut value, coding, digits, number)? {
        return Ok(None);
    }
    Ok(Some(value))
}

/// A number with one more digit, saturating at `BEYOND`.
fn with_hex(number: u32, octet: u8) -> u32
    requires { number ≤ 1114112 }
    ensures value { result ≡ spec.with_hex number octet }
    ensures small { result ≤ 1114112 }
{
    (number * 16 + u32::from(hex_value(octet))).min(BEYOND)
}

fn hex_value(octet: u8) -> u8
    ensures { result ≡ spec.hex_value octet }
{
    if octet <= 57 {
        octet.saturating_sub(48)
    } else if octet <= 70 {
        octet.saturating_sub(55)
    } else {
        octet.saturating_sub(87)
    }
}

/// Appends what a number of that many digits stands for; nothing if there are no digits. Returns false if it stands for nothing.
fn append_value(
    value: &mut Octets,
    coding: Coding,
    digits: usize,
    number: u32,
) -> Result<bool, AllocError>
    ensures { IfOk result (λ fits. MatchBool fits
        (spec.joined_texts (Some value.old) (spec.word_value coding digits number) ≡ Some value.new)
        (spec.word_value coding digits number ≡ None)) }
{
    if digits == 0 {
        return Ok(true);
    }
    match coding {
        Coding::Hex => {
            if digits > 2 || number > 255 {
                return Ok(false);
            }
            value.push(number as u8)?;
        }
        Coding::Unicode => {
            let Some(character) = char::from_u32(number) else {
                return Ok(false);
            };
            let mut buffer = [0; 4];
            value.extend_from_slice(character.encode_utf8(&mut buffer).as_bytes())?;
        }
    }
    Ok(true)
}
