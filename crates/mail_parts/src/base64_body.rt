//! Bodies in base64 (RFC 2045, section 6.8).
ghost use Rattle.std.specs.Prelude.{◌≡◌, IfOk, option_map};
ghost use Rattle.base64.specs.Engines.{standard_no_pad};
ghost use Rattle.base64.specs.GeneralPurpose.{decoded_of};
ghost use Rattle.mail_parts.specs.Base64Bodies as bodies;

use base64::DecodeAllocError;
use base64::engine::general_purpose::STANDARD_NO_PAD;
use octets::Octets;
use std::alloc::{AllocError, Global};

fn is_base64_octet(octet: u8) -> bool
    ensures { result ≡ bodies.is_base64_octet octet }
{
    octet.is_ascii_alphanumeric() || octet == b'+' || octet == b'/'
}

// The octets of a body that are digits.
fn base64_digits(alloc: Global, body: &[u8]) -> Result<Vec<u8>, AllocError>
    ensures { IfOk result (λ digits. digits.items ≡ bodies.base64_digits body.now) }
{
    let mut digits = Vec::with_capacity(alloc, body.len())?;
    let mut left = body;
    while let Some((octet, rest)) = left.split_first() {
        if *octet == b'=' {
            return Ok(digits);
        }
        if is_base64_octet(*octet) {
            digits.push(*octet)?;
        }
        left = rest;
    }
    Ok(digits)
}

// The octets that digits encode; `None` if they are no encoding.
fn decoded(alloc: Global, digits: &[u8]) -> Result<Option<Vec<u8>>, AllocError>
    ensures { IfOk result (λ found. option_map (λ v. v.items) found ≡ decoded_of standard_no_pad digits.now) }
{
    match STANDARD_NO_PAD.decode(alloc, digits) {
        Ok(octets) => Ok(Some(octets)),
        Err(DecodeAllocError::OutOfMemory) => Err(AllocError),
        Err(DecodeAllocError::DecodeError(_)) => Ok(None),
    }
}

/// The octets that a body in base64 stands for: a pass over the body and at most two over its digits, and at most as many octets of
/// memory as the body has for the digits and three quarters of that for the result.
pub(crate) fn decode_base64(alloc: Global, body: &[u8]) -> Result<Octets, AllocError>
    ensures { IfOk result (λ octets. octets ≡ bodies.base64_body body.now) }
{
    let digits = base64_digits(alloc, body)?;
    if let Some(octets) = decoded(alloc, digits.as_slice())? {
        return Ok(Octets::from_vec(octets));
    }
    let whole = digits.as_slice().split_at(digits.len() / 4 * 4).0;
    match decoded(alloc, whole)? {
        Some(octets) => Ok(Octets::from_vec(octets)),
        None => Ok(Octets::new(alloc)),
    }
}
