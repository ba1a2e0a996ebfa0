//! What an answer is made of.
use octets::{Octets, write_decimal};
use std::alloc::AllocError;

/// A part of an answer.
#[derive(Clone, Copy)]
pub enum LinePart<'a> {
    Text(&'a [u8]),
    /// A number, which is written in decimal.
    Number(u64),
}

/// Appends parts, one after the other.
pub fn add_parts(out: &mut Octets, parts: &[LinePart<'_>]) -> Result<(), AllocError> {
    for part in parts {
        add_part(out, part)?;
    }
    Ok(())
}

fn add_part(out: &mut Octets, part: &LinePart<'_>) -> Result<(), AllocError> {
    match part {
        LinePart::Text(text) => out.extend_from_slice(text),
        LinePart::Number(number) => write_decimal(out, *number),
    }
}
