//! What the body of a part stands for (RFC 2045, section 6).
ghost use Rattle.std.specs.Prelude.{◌≡◌, IfOk, option_map};
ghost use Rattle.mail_parts.specs.Decoding.{body_meaning, body_octets};

use crate::base64_body::decode_base64;
use crate::quoted_printable::decode_quoted;
use crate::transfer_encoding::TransferEncoding;
use octets::Octets;
use std::alloc::{AllocError, Global};

/// The octets that a body stands for.
#[derive(Drop)]
pub enum BodyOctets<'a> {
    AsItStands(&'a [u8]),
    Decoded(Octets),
}

impl<'a> BodyOctets<'a> {
    ghost use Rattle.std.specs.Prelude.{◌≡◌};
    ghost use Rattle.mail_parts.specs.Decoding.{body_octets};

    pub fn as_slice(&self) -> &[u8]
        ensures { result.now ≡ body_octets self.now }
    {
        match self {
            BodyOctets::AsItStands(body) => body,
            BodyOctets::Decoded(octets) => octets.as_slice(),
        }
    }
}

/// The octets that a body stands for; `None` if its encoding is unknown. Character sets aren't converted.
///
/// Time is linear in the body, and so is the memory, of which a body that isn't encoded takes none.
pub fn decode_body<'a>(
    alloc: Global,
    encoding: TransferEncoding,
    body: &'a [u8],
) -> Result<Option<BodyOctets<'a>>, AllocError>
    ensures { IfOk result (λ found. option_map body_octets found ≡ body_meaning encoding body.now) }
{
    match encoding {
        TransferEncoding::Identity => Ok(Some(BodyOctets::AsItStands(body))),
        TransferEncoding::Base64 => Ok(Some(BodyOctets::Decoded(decode_base64(alloc, body)?))),
        TransferEncoding::QuotedPrintable => {
            Ok(Some(BodyOctets::Decoded(decode_quoted(alloc, body)?)))
        }
        TransferEncoding::Unknown => Ok(None),
    }
}
