//! The lexical form of structured field bodies (RFC 822, section 3.1.4; RFC 2045, section 5.1).
ghost use Rattle.std.specs.Prelude.{◌≡◌, ◌≤◌, ◌<◌, ◌^◌, length, IfOk};
ghost use Rattle.mail_parts.specs.Letters as letters;

use crate::limits::MAX_FIELD_BODY;
use std::alloc::{AllocError, Global};

/// An octet of a field body that counts: neither white space nor part of a comment.
#[derive(Clone, Copy)]
pub struct Letter {
    pub(crate) octet: u8,
    /// Whether it stands in a quoted string.
    pub(crate) quoted: bool,
}

/// Where a reader of a field body is.
#[derive(Clone, Copy)]
pub enum BodyMode {
    Open,
    /// In a comment, and in how many.
    Comment(usize),
    /// In so many comments, after a backslash.
    CommentPair(usize),
    Quoted,
    /// In a quoted string, after a backslash.
    QuotedPair,
}

fn is_line_end(octet: u8) -> bool
    ensures { result ≡ letters.is_line_end octet }
{
    octet == b'\r' || octet == b'\n'
}

fn is_gap(octet: u8) -> bool
    ensures { result ≡ letters.is_gap octet }
{
    octet == b' ' || octet == b'\t' || is_line_end(octet)
}

fn mode_after(mode: BodyMode, octet: u8) -> BodyMode
    requires { letters.mode_depth mode < 2 ^ 32 }
    ensures { result ≡ letters.mode_after mode octet }
{
    match mode {
        BodyMode::Open => match octet {
            b'(' => BodyMode::Comment(1),
            b'"' => BodyMode::Quoted,
            _ => BodyMode::Open,
        },
        BodyMode::Comment(depth) => match octet {
            b'\\' => BodyMode::CommentPair(depth),
            b'(' => BodyMode::Comment(depth + 1),
            b')' => mode_after_comment(depth),
            _ => BodyMode::Comment(depth),
        },
        BodyMode::CommentPair(depth) => BodyMode::Comment(depth),
        BodyMode::Quoted => match octet {
            b'\\' => BodyMode::QuotedPair,
            b'"' => BodyMode::Open,
            _ => BodyMode::Quoted,
        },
        BodyMode::QuotedPair => BodyMode::Quoted,
    }
}

// Behind the end of the innermost of so many comments.
fn mode_after_comment(depth: usize) -> BodyMode
    ensures { result ≡ letters.mode_after_comment depth }
{
    if depth <= 1 {
        BodyMode::Open
    } else {
        BodyMode::Comment(depth - 1)
    }
}

fn octet_letter(mode: BodyMode, octet: u8) -> Option<Letter>
    ensures { result ≡ letters.octet_letter mode octet }
{
    match mode {
        BodyMode::Open => {
            if is_gap(octet) || octet == b'(' || octet == b'"' {
                return None;
            }
            Some(Letter {
                octet,
                quoted: false,
            })
        }
        BodyMode::Quoted => {
            if is_line_end(octet) || octet == b'\\' || octet == b'"' {
                return None;
            }
            Some(Letter {
                octet,
                quoted: true,
            })
        }
        BodyMode::QuotedPair => Some(Letter {
            octet,
            quoted: true,
        }),
        _ => None,
    }
}

/// The letters of a field body: one pass, and at most two octets for each octet of it.
pub(crate) fn letters(alloc: Global, body: &[u8]) -> Result<Vec<Letter>, AllocError>
    requires { length body.now ≤ MAX_FIELD_BODY }
    ensures { IfOk result (λ found. found.items ≡ letters.letters_of body.now) }
{
    let mut found = Vec::new(alloc);
    let mut mode = BodyMode::Open;
    for octet in body {
        if let Some(letter) = octet_letter(mode, *octet) {
            found.push(letter)?;
        }
        mode = mode_after(mode, *octet);
    }
    Ok(found)
}
