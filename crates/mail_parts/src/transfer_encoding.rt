//! Content-Transfer-Encoding (RFC 2045, section 6).
ghost use Rattle.std.specs.Prelude.{◌≡◌, IfOk, option_copied};
ghost use Rattle.mail_parts.specs.Encodings as encodings;

use crate::letter::letters;
use crate::limits::MAX_FIELD_BODY;
use crate::media_type::text_of;
use std::alloc::{AllocError, Global};

/// How the body of a part is encoded.
#[derive(Clone, Copy)]
pub enum TransferEncoding {
    /// `7bit`, `8bit` or `binary`: it isn't.
    Identity,
    Base64,
    QuotedPrintable,
    /// Any other: what the body stands for isn't known (RFC 2045, section 6.4).
    Unknown,
}

fn encoding_named(name: &[u8]) -> TransferEncoding
    ensures { result ≡ encodings.encoding_named name.now }
{
    if name.eq_ignore_ascii_case(b"7bit") {
        return TransferEncoding::Identity;
    }
    if name.eq_ignore_ascii_case(b"8bit") {
        return TransferEncoding::Identity;
    }
    if name.eq_ignore_ascii_case(b"binary") {
        return TransferEncoding::Identity;
    }
    if name.eq_ignore_ascii_case(b"base64") {
        return TransferEncoding::Base64;
    }
    if name.eq_ignore_ascii_case(b"quoted-printable") {
        return TransferEncoding::QuotedPrintable;
    }
    TransferEncoding::Unknown
}

// What the body of a Content-Transfer-Encoding says.
fn said_encoding(alloc: Global, body: &[u8]) -> Result<TransferEncoding, AllocError>
    ensures { IfOk result (λ said. said ≡ encodings.said_encoding body.now) }
{
    if body.len() > MAX_FIELD_BODY {
        return Ok(TransferEncoding::Unknown);
    }
    let letters = letters(alloc, body)?;
    let name = text_of(alloc, letters.as_slice())?;
    Ok(encoding_named(name.as_slice()))
}

/// How a part is encoded, by the body of its Content-Transfer-Encoding, if it has one.
pub(crate) fn transfer_encoding(
    alloc: Global,
    body: Option<&[u8]>,
) -> Result<TransferEncoding, AllocError>
    ensures { IfOk result (λ said. said ≡ encodings.encoding_by (option_copied body.entry)) }
{
    match body {
        Some(body) => said_encoding(alloc, body),
        None => Ok(TransferEncoding::Identity),
    }
}
