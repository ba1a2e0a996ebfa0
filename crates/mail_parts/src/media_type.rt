//! Content-Type (RFC 2045, section 5).
ghost use Rattle.std.specs.Prelude.{◌≡◌, ◌≤◌, ◌+◌, length, drop, take, map, IfOk, MatchOption, option_map, option_copied};
ghost use Rattle.std.specs.List.{prefix_len, list_all};
ghost use Rattle.mail_parts.specs.MediaTypes as types;

use crate::letter::{Letter, letters};
use crate::limits::MAX_FIELD_BODY;
use octets::{Octets, lowered};
use std::alloc::{AllocError, Global};

/// The octets that no token holds (RFC 2045, section 5.1).
const TSPECIALS: [u8; 15] = [
    b'(', b')', b'<', b'>', b'@', b',', b';', b':', b'\\', b'"', b'/', b'[', b']', b'?', b'=',
];

/// What a part is, as its Content-Type says.
#[derive(Drop)]
pub struct MediaType {
    /// `text`, `multipart`, .., in small letters.
    pub kind: Octets,
    /// `plain`, `mixed`, .., in small letters.
    pub subtype: Octets,
    /// The value of the first parameter `boundary`, as it is written, or else of `boundary*0`, `boundary*1`, .., joined.
    pub boundary: Option<Octets>,
    /// The value of the first parameter `charset`, as it is written.
    pub charset: Option<Octets>,
}

// Whether a letter is this octet outside of quoted strings.
fn is_plain_sign(sign: u8, letter: Letter) -> bool
    ensures { result ≡ types.is_plain_sign sign letter }
{
    !letter.quoted && letter.octet == sign
}

// Where the first such sign is; the length if there is none.
fn sign_place(letters: &[Letter], sign: u8) -> usize
    ensures place { result ≡ types.sign_place sign letters.now }
    ensures within { result ≤ length letters.now }
{
    letters
        .iter()
        .take_while(|letter| !is_plain_sign(sign, **letter))
        .count()
}

// What comes before the first such sign.
fn letters_before(letters: &[Letter], sign: u8) -> &[Letter]
    ensures { result.now ≡ types.letters_before sign letters.now }
{
    letters.split_at(sign_place(letters, sign)).0
}

// What comes behind the first such sign; nothing if there is none.
fn letters_behind(letters: &[Letter], sign: u8) -> &[Letter]
    ensures { result.now ≡ types.letters_behind sign letters.now }
{
    let place = sign_place(letters, sign);
    if place == letters.len() {
        return letters.split_at(place).1;
    }
    letters.split_at(place + 1).1
}

fn is_token_octet(octet: u8) -> bool
    ensures { result ≡ types.is_token_octet octet }
{
    32 < octet && octet < 127 && !TSPECIALS.contains(&octet)
}

fn is_token_letter(letter: Letter) -> bool
    ensures { result ≡ types.is_token_letter letter }
{
    !letter.quoted && is_token_octet(letter.octet)
}

fn are_token_letters(letters: &[Letter]) -> bool
    ensures { result ≡ list_all types.is_token_letter letters.now }
{
    letters.iter().all(|letter| is_token_letter(*letter))
}

// Whether letters are a token: one or more, none of them quoted.
fn is_mime_token(letters: &[Letter]) -> bool
    ensures { result ≡ types.is_mime_token letters.now }
{
    !letters.is_empty() && are_token_letters(letters)
}

/// The octets of letters.
pub(crate) fn text_of(alloc: Global, letters: &[Letter]) -> Result<Octets, AllocError>
    ensures { IfOk result (λ text. text ≡ types.text_of letters.now) }
{
    Ok(Octets::from_vec(letters.iter().map(|letter| letter.octet).collect(alloc)?))
}

// The kind and the subtype that letters begin with.
fn media(letters: &[Letter]) -> Option<(&[Letter], &[Letter])>
    ensures { option_map types.media_texts result ≡ types.media_of letters.now }
{
    let media = letters_before(letters, b';');
    let kind = letters_before(media, b'/');
    let subtype = letters_behind(media, b'/');
    if is_mime_token(kind) && is_mime_token(subtype) {
        Some((kind, subtype))
    } else {
        None
    }
}

// Whether such a sign is there.
fn has_sign(letters: &[Letter], sign: u8) -> bool
    ensures { result ≡ types.has_sign sign letters.now }
{
    sign_place(letters, sign) < letters.len()
}

// The value of a parameter, if it has this name.
fn value_named(
    alloc: Global,
    parameter: &[Letter],
    name: &[u8],
) -> Result<Option<Octets>, AllocError>
    ensures { IfOk result (λ value. value ≡ types.value_named name.now parameter.now) }
{
    if !has_sign(parameter, b'=') {
        return Ok(None);
    }
    let own = letters_before(parameter, b'=');
    if own.len() != name.len() {
        return Ok(None);
    }
    let own = text_of(alloc, own)?;
    if own.as_slice().eq_ignore_ascii_case(name) {
        Ok(Some(text_of(alloc, letters_behind(parameter, b'='))?))
    } else {
        Ok(None)
    }
}

// The value of the first parameter with a name. One pass over the letters, and one more over each parameter.
fn parameter(alloc: Global, letters: &[Letter], name: &[u8]) -> Result<Option<Octets>, AllocError>
    ensures { IfOk result (λ value. value ≡ types.parameter_of name.now letters.now) }
{
    let mut left = letters;
    while let Some((letter, rest)) = left.split_first() {
        if is_plain_sign(b';', *letter) {
            let value = value_named(alloc, letters_before(rest, b';'), name)?;
            if value.is_some() {
                return Ok(value);
            }
        }
        left = rest;
    }
    Ok(None)
}

// A section of a parameter's value: the value of the parameter with this name, an asterisk and a digit.
fn value_section(
    alloc: Global,
    letters: &[Letter],
    name: &[u8],
    digit: u8,
) -> Result<Option<Octets>, AllocError>
    ensures { IfOk result (λ value. value ≡ types.value_section name.now letters.now digit) }
{
    let mut section = Octets::from_slice(alloc, name)?;
    section.extend_from_slice(b"*")?;
    section.push(digit)?;
    parameter(alloc, letters, section.as_slice())
}

// A parameter's value in sections. One pass over the letters for each, and one more.
fn value_in_sections(
    alloc: Global,
    letters: &[Letter],
    name: &[u8],
) -> Result<Option<Octets>, AllocError>
    ensures { IfOk result (λ value. value ≡ types.value_in_sections name.now letters.now) }
{
    let Some(mut value) = value_section(alloc, letters, name, b'0')? else {
        return Ok(None);
    };
    let mut left: &[u8] = b"123456789";
    while let Some((digit, rest)) = left.split_first() {
        let Some(section) = value_section(alloc, letters, name, *digit)? else {
            return Ok(Some(value));
        };
        value.extend_from_slice(section.as_slice())?;
        left = rest;
    }
    Ok(Some(value))
}

// A parameter's value, as it stands or else in sections (RFC 2231, section 3).
fn parameter_value(
    alloc: Global,
    letters: &[Letter],
    name: &[u8],
) -> Result<Option<Octets>, AllocError>
    ensures { IfOk result (λ value. value ≡ types.parameter_value name.now letters.now) }
{
    match parameter(alloc, letters, name)? {
        Some(value) => Ok(Some(value)),
        None => value_in_sections(alloc, letters, name),
    }
}

// What letters say, if they are a Content-Type.
fn media_type_in(alloc: Global, letters: &[Letter]) -> Result<Option<MediaType>, AllocError>
    ensures { IfOk result (λ said. said ≡ types.media_type_in letters.now) }
{
    let Some((kind, subtype)) = media(letters) else {
        return Ok(None);
    };
    Ok(Some(MediaType {
        kind: lowered(alloc, text_of(alloc, kind)?.as_slice())?,
        subtype: lowered(alloc, text_of(alloc, subtype)?.as_slice())?,
        boundary: parameter_value(alloc, letters, b"boundary")?,
        charset: parameter(alloc, letters, b"charset")?,
    }))
}

// The type of a part that has no Content-Type.
fn default_type(alloc: Global, digest: bool) -> Result<MediaType, AllocError>
    ensures { IfOk result (λ said. said ≡ types.default_type digest) }
{
    let (kind, subtype): (&[u8], &[u8]) = if digest {
        (b"message", b"rfc822")
    } else {
        (b"text", b"plain")
    };
    Ok(MediaType {
        kind: Octets::from_slice(alloc, kind)?,
        subtype: Octets::from_slice(alloc, subtype)?,
        boundary: None,
        charset: None,
    })
}

// What the body of a Content-Type says.
fn said_type(alloc: Global, body: &[u8]) -> Result<MediaType, AllocError>
    ensures { IfOk result (λ said. said ≡ types.said_type body.now) }
{
    if body.len() > MAX_FIELD_BODY {
        return default_type(alloc, false);
    }
    let letters = letters(alloc, body)?;
    match media_type_in(alloc, letters.as_slice())? {
        Some(said) => Ok(said),
        None => default_type(alloc, false),
    }
}

/// What a part is, by the body of its Content-Type, if it has one, and by whether it stands in a multipart/digest.
pub(crate) fn media_type(
    alloc: Global,
    digest: bool,
    body: Option<&[u8]>,
) -> Result<MediaType, AllocError>
    ensures { IfOk result (λ said. said ≡ types.type_by digest (option_copied body.entry)) }
{
    match body {
        Some(body) => said_type(alloc, body),
        None => default_type(alloc, digest),
    }
}
