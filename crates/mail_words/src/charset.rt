//! Character sets.
ghost use Rattle.std.specs.Prelude.{◌≡◌, IfOk, encode_utf8_all, option_map};
ghost use Rattle.std.specs.List.{list_all};
ghost use Rattle.std.specs.Str as text;
ghost use Rattle.mail_words.specs.Charsets as charsets;

use std::alloc::{AllocError, Global};

/// A character set that encoded words may have.
#[derive(Clone, Copy)]
pub enum Charset {
    /// US-ASCII, and the ASCII half of ISO-8859-2 to ISO-8859-16: octets below 128.
    Ascii,
    /// ISO-8859-1: each octet is the character with its number.
    Latin1,
    Utf8,
}

/// The character set with this name, in any ASCII case.
pub(crate) fn charset_named(name: &[u8]) -> Option<Charset>
    ensures { result ≡ charsets.charset_of name.now }
{
    if name.eq_ignore_ascii_case(b"utf-8") {
        return Some(Charset::Utf8);
    }
    if name.eq_ignore_ascii_case(b"us-ascii") {
        return Some(Charset::Ascii);
    }
    if name.len() < 9 {
        return None;
    }
    let (front, part) = name.split_at(9);
    if front.eq_ignore_ascii_case(b"iso-8859-") {
        iso_part(part)
    } else {
        None
    }
}

/// The part of ISO-8859 with this number, 1 to 16.
fn iso_part(number: &[u8]) -> Option<Charset>
    ensures { result ≡ charsets.iso_part_of number.now }
{
    match number {
        [b'1'] => Some(Charset::Latin1),
        [b'2'..=b'9'] => Some(Charset::Ascii),
        [b'1', b'0'..=b'6'] => Some(Charset::Ascii),
        _ => None,
    }
}

/// Converts octets of a character set to UTF-8, if they are valid in it.
pub(crate) fn converted(
    alloc: Global,
    charset: Charset,
    octets: Vec<u8>,
) -> Result<Option<Vec<u8>>, AllocError>
    ensures { IfOk result (λ text. option_map (λ v. v.items) text ≡ charsets.converted charset octets.items) }
{
    match charset {
        Charset::Ascii => Ok(if are_ascii(octets.as_slice()) {
            Some(octets)
        } else {
            None
        }),
        Charset::Latin1 => Ok(Some(latin1(alloc, octets.as_slice())?)),
        Charset::Utf8 => Ok(if is_utf8(octets.as_slice()) {
            Some(octets)
        } else {
            None
        }),
    }
}

fn are_ascii(octets: &[u8]) -> bool
    ensures { result ≡ list_all charsets.is_ascii octets.now }
{
    octets.iter().all(|octet| *octet < 128)
}

fn is_utf8(octets: &[u8]) -> bool
    ensures { result ≡ text.is_utf8 octets.now }
{
    str::from_utf8(octets).is_ok()
}

fn latin1(alloc: Global, octets: &[u8]) -> Result<Vec<u8>, AllocError>
    ensures { IfOk result (λ v. v.items ≡ encode_utf8_all octets.now) }
{
    let mut text = String::with_capacity(alloc, octets.len())?;
    for octet in octets {
        text.push(char::from(*octet))?;
    }
    Ok(text.into_bytes())
}
