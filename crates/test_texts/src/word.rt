//! Encoded words (RFC 2047).
use mail_words::{decoded, header_text};
use octets::Octets;
use std::alloc::{AllocError, Global};
use std::str;

/// What a value says.
pub fn add_decoded(alloc: Global, out: &mut Octets, value: &[u8]) -> Result<(), AllocError> {
    out.extend_from_slice(decoded(alloc, value)?.as_slice())
}

/// How a text is written in a field.
pub fn add_encoded(alloc: Global, out: &mut Octets, text: &[u8]) -> Result<(), AllocError> {
    match str::from_utf8(text) {
        Ok(text) => out.extend_from_slice(header_text(alloc, text)?.as_slice()),
        Err(_) => out.extend_from_slice(b"no UTF-8"),
    }
}
