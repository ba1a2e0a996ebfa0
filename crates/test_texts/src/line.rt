//! Lines of a message, and the fields among them (RFC 5322, 2.1 and 2.2).
use mail_head::{
    after_empty_line, first_line, logical_line, read_field, unfold_value, without_end,
};
use octets::Octets;
use std::alloc::{AllocError, Global};
use test_files::LinePart::Text;
use test_files::{add_parts, text_in};

/// What a call makes of a text.
pub fn answer_about_line(
    alloc: Global,
    out: &mut Octets,
    call: &[u8],
    text: &[u8],
) -> Result<(), AllocError> {
    match text_in(call) {
        "first" => add_first(out, text),
        "logical" => add_logical(out, text),
        "end" => out.extend_from_slice(without_end(text)),
        "field" => add_field(out, text),
        "body" => add_body(out, text),
        "unfold" => out.extend_from_slice(unfold_value(alloc, text)?.as_slice()),
        _ => out.extend_from_slice(b"no such call"),
    }
}

fn add_first(out: &mut Octets, text: &[u8]) -> Result<(), AllocError> {
    if text.is_empty() {
        return Ok(());
    }
    add_text_pair(out, first_line(text))
}

fn add_logical(out: &mut Octets, text: &[u8]) -> Result<(), AllocError> {
    if text.is_empty() {
        return Ok(());
    }
    add_text_pair(out, logical_line(text))
}

fn add_field(out: &mut Octets, text: &[u8]) -> Result<(), AllocError> {
    match read_field(text) {
        Some(field) => add_text_pair(out, (field.name, field.raw)),
        None => out.extend_from_slice(b"none"),
    }
}

fn add_body(out: &mut Octets, text: &[u8]) -> Result<(), AllocError> {
    match after_empty_line(text) {
        Some(body) => out.extend_from_slice(body),
        None => out.extend_from_slice(b"none"),
    }
}

/// Appends two texts with `|` between them.
pub fn add_text_pair<'a>(out: &mut Octets, pair: (&'a [u8], &'a [u8])) -> Result<(), AllocError> {
    add_parts(out, &[Text(pair.0), Text(b"|"), Text(pair.1)])
}
