//! The reason of a `vacation` (RFC 5230, 4.4).
ghost use Rattle.std.specs.Prelude.{◌≡◌, false, OnOk};
ghost use Rattle.std.specs.List.{list_all};
ghost use Rattle.sieve_syntax.specs.Parsing.{IfParseFault};
ghost use Rattle.sieve_syntax.specs.Extension.Vacation.Reasons as spec;
ghost use Rattle.mail_head.specs.Fields as fields;

use crate::error::ParseError;
use crate::extension::vacation::VacationArgs;
use crate::table::keyword::is_name;
use crate::table::utf8::is_utf8;
use mail_head::{after_empty_line, first_line, logical_line, read_field, without_end};
use sieve_lex::FaultKind;

/// The most octets of a line, without its line end (RFC 5322, 2.1.1).
const MAX_LINE: usize = 998;

/// Checks whether a reason is permitted.
pub(crate) fn check_reason(args: &VacationArgs) -> Result<(), ParseError>
    ensures found { OnOk result (spec.IsReason args.now) }
    ensures fault { IfParseFault result (spec.IsReason args.now → ⊥) }
{
    if !is_utf8(args.reason.as_slice()) {
        return Err(ParseError::Fault(FaultKind::NotUtf8));
    }
    if !has_whole_lines(args.reason.as_slice()) {
        return Err(ParseError::Fault(FaultKind::BadByte));
    }
    if !is_narrow_text(args.reason.as_slice()) {
        return Err(ParseError::Fault(FaultKind::LongReasonLine));
    }
    if args.mime && !is_entity(args.reason.as_slice()) {
        return Err(ParseError::Fault(FaultKind::BadMime));
    }
    Ok(())
}

/// Whether CR and LF occur only as line ends, and no octet is NUL.
fn has_whole_lines(text: &[u8]) -> bool
    ensures { result ≡ spec.has_whole_lines false text.now }
{
    let mut after_cr = false;
    for octet in text {
        if *octet == 0 || after_cr != (*octet == b'\n') {
            return false;
        }
        after_cr = *octet == b'\r';
    }
    !after_cr
}

/// Whether no line is too long.
fn is_narrow_text(text: &[u8]) -> bool
    ensures { result ≡ spec.is_narrow_text text.now }
{
    let mut rest = text;
    while !rest.is_empty() {
        let (line, after) = first_line(rest);
        if without_end(line).len() > MAX_LINE {
            return false;
        }
        rest = after;
    }
    true
}

/// Whether the text is a header of only MIME fields, an empty line, and anything.
fn is_entity(text: &[u8]) -> bool
    ensures { result ≡ spec.is_entity text.now }
{
    let mut rest = text;
    while !rest.is_empty() {
        if let Some(_body) = after_empty_line(rest) {
            return true;
        }
        let (line, after) = logical_line(rest);
        if !is_mime_line(line) {
            return false;
        }
        rest = after;
    }
    false
}

fn is_mime_line(line: &[u8]) -> bool
    ensures { result ≡ spec.is_mime_line line.now }
{
    has_header_octets(line) && has_mime_name(line)
}

fn has_header_octets(line: &[u8]) -> bool
    ensures { result ≡ list_all spec.is_header_octet line.now }
{
    line.iter().all(|octet| is_header_octet(*octet))
}

fn is_header_octet(octet: u8) -> bool
    ensures { result ≡ spec.is_header_octet octet }
{
    octet == b'\t' || octet == b'\n' || octet == b'\r' || (32 <= octet && octet <= 126)
}

fn has_mime_name(line: &[u8]) -> bool
    ensures { result ≡ spec.has_mime_name (fields.field_of line.now) }
{
    match read_field(line) {
        Some(field) => is_mime_name(field.name),
        None => false,
    }
}

fn is_mime_name(name: &[u8]) -> bool
    ensures { result ≡ spec.is_mime_name name.now }
{
    (8 <= name.len() && is_name(name.split_at(8).0, b"content-")) || is_name(name, b"mime-version")
}
