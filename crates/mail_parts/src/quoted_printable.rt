//! Quoted-printable bodies (RFC 2045, section 6.7).
ghost use Rattle.std.specs.Prelude.{◌≡◌, ◌++◌, ◌<◌, ◌≤◌, length, IfOk, IfSome, OnOk};
ghost use Rattle.mail_head.specs.Lines as lines;
ghost use Rattle.mail_parts.specs.QuotedPrintable as quoted;

use crate::blanks::trim_back;
use mail_head::{first_line, without_end};
use octets::Octets;
use std::alloc::{AllocError, Global};

// The value of a hexadecimal digit.
fn escape_digit(octet: u8) -> Option<u8>
    ensures value { result ≡ quoted.escape_digit octet }
    ensures small { IfSome result (λ digit. digit < 16) }
{
    if 48 <= octet && octet <= 57 {
        Some(octet - 48)
    } else if 65 <= octet && octet <= 70 {
        Some(octet - 55)
    } else if 97 <= octet && octet <= 102 {
        Some(octet - 87)
    } else {
        None
    }
}

// The octet that the two digits at the beginning of a text write.
fn digits_value(text: &[u8]) -> Option<u8>
    ensures value { result ≡ quoted.digits_value text.now }
    ensures there { IfSome result (λ _. 2 ≤ length text.now) }
{
    let (high, rest) = text.split_first()?;
    let (low, _) = rest.split_first()?;
    let high = escape_digit(*high)?;
    let low = escape_digit(*low)?;
    Some(high * 16 + low)
}

// The octet that an equals sign and the two digits behind it stand for.
fn escaped_value(octet: u8, rest: &[u8]) -> Option<u8>
    ensures value { result ≡ quoted.escaped_value octet rest.now }
    ensures there { IfSome result (λ _. 2 ≤ length rest.now) }
{
    if octet == b'=' {
        digits_value(rest)
    } else {
        None
    }
}

// Appends what stands in a line.
fn push_escapes(octets: &mut Vec<u8>, text: &[u8]) -> Result<(), AllocError>
    ensures { OnOk result (octets.new.items ≡ octets.old.items ++ quoted.escapes_from 0 text.now) }
{
    let mut left = text;
    while let Some((first, rest)) = left.split_first() {
        match escaped_value(*first, rest) {
            Some(value) => {
                octets.push(value)?;
                left = rest.split_at(2).1;
            }
            None => {
                octets.push(*first)?;
                left = rest;
            }
        }
    }
    Ok(())
}

// A line's end.
fn line_end(line: &[u8]) -> &[u8]
    ensures { result.now ≡ lines.end_of line.now }
{
    line.split_at(without_end(line).len()).1
}

// Appends a line's end.
fn push_end(octets: &mut Vec<u8>, line: &[u8]) -> Result<(), AllocError>
    ensures { OnOk result (octets.new.items ≡ octets.old.items ++ lines.end_of line.now) }
{
    let mut left = line_end(line);
    while let Some((first, rest)) = left.split_first() {
        octets.push(*first)?;
        left = rest;
    }
    Ok(())
}

// Appends what a line stands for.
fn push_line(octets: &mut Vec<u8>, line: &[u8]) -> Result<(), AllocError>
    ensures { OnOk result (octets.new.items ≡ octets.old.items ++ quoted.quoted_line line.now) }
{
    let text = trim_back(without_end(line));
    if let Some((last, front)) = text.split_last() {
        if *last == b'=' {
            return push_escapes(octets, front);
        }
    }
    push_escapes(octets, text)?;
    push_end(octets, line)
}

/// The octets that a body in quoted-printable stands for: one pass, and one reservation of as many octets as the body has.
pub(crate) fn decode_quoted(alloc: Global, body: &[u8]) -> Result<Octets, AllocError>
    ensures { IfOk result (λ octets. octets ≡ quoted.quoted_body body.now) }
{
    let mut octets = Vec::with_capacity(alloc, body.len())?;
    let mut rest = body;
    while !rest.is_empty() {
        let (line, after) = first_line(rest);
        push_line(&mut octets, line)?;
        rest = after;
    }
    Ok(Octets::from_vec(octets))
}
