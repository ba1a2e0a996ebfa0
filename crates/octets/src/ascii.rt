//! Words on octets and on texts of ASCII.
ghost use Rattle.std.specs.Prelude.{◌≡◌, IfOk};
ghost use Rattle.octets.specs.Ascii as ascii;

use crate::string::Octets;
use std::alloc::{AllocError, Global};

/// SP or TAB.
pub fn is_blank(octet: u8) -> bool
    ensures { result ≡ ascii.is_blank octet }
{
    octet == b' ' || octet == b'\t'
}

/// A letter of ASCII, of either case.
pub fn is_letter(octet: u8) -> bool
    ensures { result ≡ ascii.is_letter octet }
{
    octet.is_ascii_alphabetic()
}

/// An octet from 32 to 126.
pub fn is_printable(octet: u8) -> bool
    ensures { result ≡ ascii.is_printable octet }
{
    32 <= octet && octet <= 126
}

/// Returns the text with A to Z written as a to z, in one pass.
pub fn lowered(alloc: Global, text: &[u8]) -> Result<Octets, AllocError>
    ensures { IfOk result (λ folded. folded ≡ ascii.lowered text.now) }
{
    let mut folded = Vec::from_slice(alloc, text)?;
    folded.make_ascii_lowercase();
    Ok(Octets::from_vec(folded))
}

/// Returns the text without the blanks at its ends. Looks only at those blanks.
pub fn trim_blanks(text: &[u8]) -> &[u8]
    ensures { result.now ≡ ascii.trimmed text.now }
{
    trim_back(trim_front(text))
}

fn trim_front(text: &[u8]) -> &[u8]
    ensures { result.now ≡ ascii.trim_front text.now }
{
    let mut kept = text;
    while let Some((first, rest)) = kept.split_first() {
        if !is_blank(*first) {
            break;
        }
        kept = rest;
    }
    kept
}

fn trim_back(text: &[u8]) -> &[u8]
    ensures { result.now ≡ ascii.trim_back text.now }
{
    let mut kept = text;
    while let Some((last, front)) = kept.split_last() {
        if !is_blank(*last) {
            break;
        }
        kept = front;
    }
    kept
}
