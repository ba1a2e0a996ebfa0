//! How a text is written in a header field.
ghost use Rattle.std.specs.Prelude.{◌≡◌, ◌<◌, ◌++◌, length, IfOk, OnOk, string_bytes};
ghost use Rattle.std.specs.List.{list_all};
ghost use Rattle.octets.specs.Ascii as ascii;
ghost use Rattle.mail_words.specs.Headers.{CutsPiece, IsHeaderText, IsWorded, between, word_for, has_mark, is_plain_value};

use base64::engine::general_purpose::STANDARD;
use memchr::memmem;
use octets::is_printable;
use std::alloc::{AllocError, Global};

/// The most octets of a plain text.
const MAX_PLAIN_LEN: usize = 200;

/// The most octets of text in a word, so that the word has at most 72 octets.
const MAX_PIECE_LEN: usize = 45;

/// Writes a text for a header field: as it is if it has at most 200 octets, all from 32 to 126, and no `=?` in it; otherwise as
/// encoded words on lines of their own (RFC 2047).
pub fn header_text(alloc: Global, text: &str) -> Result<Vec<u8>, AllocError>
    ensures { IfOk result (λ value. IsHeaderText text.now value.items) }
{
    if is_plain(text.as_bytes()) {
        Vec::from_slice(alloc, text.as_bytes())
    } else {
        words(alloc, text)
    }
}

fn is_plain(text: &[u8]) -> bool
    ensures { result ≡ is_plain_value text.now }
{
    text.len() <= MAX_PLAIN_LEN && (are_printable(text) && !has_mark(text))
}

/// Whether all octets of a text are from 32 to 126.
pub(crate) fn are_printable(text: &[u8]) -> bool
    ensures { result ≡ list_all ascii.is_printable text.now }
{
    text.iter().all(|octet| is_printable(*octet))
}

/// Whether a text contains `=?`.
pub(crate) fn has_mark(text: &[u8]) -> bool
    ensures { result ≡ has_mark text.now }
{
    memmem::find(text, b"=?").is_some()
}

fn words(alloc: Global, text: &str) -> Result<Vec<u8>, AllocError>
    ensures { IfOk result (λ value. IsWorded text.now value.items) }
{
    let mut value = String::with_capacity(alloc, text.len())?;
    let mut rest = text;
    while !rest.is_empty() {
        let (piece, after) = next_piece(rest);
        push_word(&mut value, piece)?;
        rest = after;
    }
    Ok(value.into_bytes())
}

/// The text of the next word, and what follows.
fn next_piece(text: &str) -> (&str, &str)
    requires { 0 < length text.now }
    ensures { CutsPiece text.now result.0.now result.1.now }
{
    text.split_at(text.floor_char_boundary(MAX_PIECE_LEN))
}

/// Appends a word; after other words, on a line of its own.
fn push_word(value: &mut String, piece: &str) -> Result<(), AllocError>
    ensures { OnOk result (string_bytes value.new
        ≡ string_bytes value.old ++ (between (string_bytes value.old) ++ word_for piece.now)) }
{
    value.push_str(if value.is_empty() { "" } else { "\r\n " })?;
    value.push_str("=?UTF-8?B?")?;
    STANDARD.encode_string(piece.as_bytes(), value)?;
    value.push_str("?=")
}
