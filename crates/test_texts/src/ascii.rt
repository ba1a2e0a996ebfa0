//! Words on ASCII, and decimals.
use octets::{Octets, lowered, parse_decimal, trim_blanks, write_decimal};
use std::alloc::{AllocError, Global};
use test_files::text_in;

/// What a call makes of a text.
pub fn answer_ascii(
    alloc: Global,
    out: &mut Octets,
    call: &[u8],
    text: &[u8],
) -> Result<(), AllocError> {
    match text_in(call) {
        "trim" => out.extend_from_slice(trim_blanks(text)),
        "lowered" => out.extend_from_slice(lowered(alloc, text)?.as_slice()),
        "decimal" => add_decimal(out, text),
        _ => out.extend_from_slice(b"no such call"),
    }
}

fn add_decimal(out: &mut Octets, text: &[u8]) -> Result<(), AllocError> {
    match parse_decimal(text) {
        Some(number) => write_decimal(out, number),
        None => out.extend_from_slice(b"none"),
    }
}
