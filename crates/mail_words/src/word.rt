//! One encoded word.
ghost use Rattle.std.specs.Prelude.{◌≡◌, ◌&&◌, bytes_eq, codes, [], ◌∷◌, IfOk, MatchOption, None, option_map};
ghost use Rattle.std.specs.List.{list_all};
ghost use Rattle.base64.specs.Engines.{standard};
ghost use Rattle.base64.specs.GeneralPurpose.{decoded_of};
ghost use Rattle.mail_words.specs.Words as words;

use crate::charset::{charset_named, converted};
use crate::quoted::from_quoted;
use base64::DecodeAllocError;
use base64::engine::general_purpose::STANDARD;
use memchr::memchr;
use std::alloc::{AllocError, Global};

/// The text of a run that is a recognised word. One pass over the run.
pub(crate) fn word_text(alloc: Global, run: &[u8]) -> Result<Option<Vec<u8>>, AllocError>
    ensures { IfOk result (λ text. option_map (λ v. v.items) text ≡ words.encoded_word_text run.now) }
{
    match parts(run) {
        Some((set, encoding, text)) => meaning(alloc, set, encoding, text),
        None => Ok(None),
    }
}

fn meaning(
    alloc: Global,
    name: &[u8],
    encoding: &[u8],
    text: &[u8],
) -> Result<Option<Vec<u8>>, AllocError>
    ensures { IfOk result (λ found. option_map (λ v. v.items) found ≡ words.meaning_of name.now encoding.now text.now) }
{
    if !is_encoded_text(text) {
        return Ok(None);
    }
    let Some(set) = charset_named(name) else {
        return Ok(None);
    };
    match octets(alloc, encoding, text)? {
        Some(octets) => converted(alloc, set, octets),
        None => Ok(None),
    }
}

fn is_encoded_text(text: &[u8]) -> bool
    ensures { result ≡ words.is_encoded_text text.now }
{
    !text.is_empty() && are_visible(text)
}

fn are_visible(text: &[u8]) -> bool
    ensures { result ≡ list_all words.is_visible text.now }
{
    text.iter().all(|octet| is_visible(*octet))
}

fn is_visible(octet: u8) -> bool
    ensures { result ≡ words.is_visible octet }
{
    33 <= octet && octet <= 126
}

fn octets(alloc: Global, encoding: &[u8], text: &[u8]) -> Result<Option<Vec<u8>>, AllocError>
    ensures { IfOk result (λ found. option_map (λ v. v.items) found ≡ words.encoded_octets encoding.now text.now) }
{
    if encoding.eq_ignore_ascii_case(b"b") {
        from_base64(alloc, text)
    } else if encoding.eq_ignore_ascii_case(b"q") {
        from_quoted(alloc, text)
    } else {
        Ok(None)
    }
}

fn from_base64(alloc: Global, text: &[u8]) -> Result<Option<Vec<u8>>, AllocError>
    ensures { IfOk result (λ found. option_map (λ v. v.items) found ≡ decoded_of standard text.now) }
{
    match STANDARD.decode(alloc, text) {
        Ok(octets) => Ok(Some(octets)),
        Err(DecodeAllocError::OutOfMemory) => Err(AllocError),
        Err(DecodeAllocError::DecodeError(_)) => Ok(None),
    }
}

/// The charset, the encoding and the text of a run in the form of a word.
fn parts(run: &[u8]) -> Option<(&[u8], &[u8], &[u8])>
    ensures { MatchOption result (words.encoded_word_text run.now ≡ None)
        (λ p. words.encoded_word_text run.now ≡ words.meaning_of p.0.now p.1.now p.2.now) }
{
    let (front, after) = cut(run)?;
    let (set, after) = cut(after)?;
    let (encoding, after) = cut(after)?;
    let (text, back) = cut(after)?;
    if are_equals_signs(front, back) {
        Some((set, encoding, text))
    } else {
        None
    }
}

fn are_equals_signs(front: &[u8], back: &[u8]) -> bool
    ensures { result ≡ (bytes_eq front.now (codes "=") && bytes_eq back.now (codes "=")) }
{
    front == b"=".as_slice() && back == b"=".as_slice()
}

/// What comes before and after the first question mark of a text.
fn cut(text: &[u8]) -> Option<(&[u8], &[u8])>
    ensures { MatchOption result (words.between_questions text.now ≡ text.now ∷ [])
        (λ p. words.between_questions text.now ≡ p.0.now ∷ words.between_questions p.1.now) }
{
    let at = memchr(b'?', text)?;
    Some((text.split_at(at).0, text.split_at(at + 1).1))
}
