//! The classes of octets: what an octet outside strings begins.
ghost use Rattle.std.specs.Prelude.{◌≡◌};
ghost use Rattle.sieve_lex.specs.Class.{octet_class_of, is_name_start, is_name_octet, is_white};

use crate::token::Mark;
use octets::is_blank;

/// What an octet begins where a token may stand.
#[derive(Clone, Copy)]
pub(crate) enum Class {
    /// An identifier: a letter or `_`.
    Letter,
    /// A number.
    Digit,
    /// White space.
    White,
    /// A tag.
    Colon,
    /// A quoted string.
    Quote,
    /// One of the eight marks, which the octet itself is.
    Mark(Mark),
    /// Nothing.
    Other,
}

/// A letter or `_`.
pub(crate) fn is_name_start(octet: u8) -> bool
    ensures { result ≡ is_name_start octet }
{
    octet.is_ascii_alphabetic() || octet == b'_'
}

/// A letter, a digit or `_`.
pub(crate) fn is_name_octet(octet: u8) -> bool
    ensures { result ≡ is_name_octet octet }
{
    is_name_start(octet) || octet.is_ascii_digit()
}

/// SP, TAB, CR or LF.
pub(crate) fn is_white(octet: u8) -> bool
    ensures { result ≡ is_white octet }
{
    is_blank(octet) || octet == b'\r' || octet == b'\n'
}

/// What an octet begins where a token may stand.
pub(crate) fn class_of(octet: u8) -> Class
    ensures { result ≡ octet_class_of octet }
{
    match octet {
        b'a'..=b'z' | b'A'..=b'Z' | b'_' => Class::Letter,
        b'0'..=b'9' => Class::Digit,
        b' ' | b'\t' | b'\r' | b'\n' => Class::White,
        b':' => Class::Colon,
        b'"' => Class::Quote,
        b';' => Class::Mark(Mark::Semicolon),
        b'{' => Class::Mark(Mark::OpenBrace),
        b'}' => Class::Mark(Mark::CloseBrace),
        b'[' => Class::Mark(Mark::OpenBracket),
        b']' => Class::Mark(Mark::CloseBracket),
        b'(' => Class::Mark(Mark::OpenParen),
        b')' => Class::Mark(Mark::CloseParen),
        b',' => Class::Mark(Mark::Comma),
        _ => Class::Other,
    }
}
