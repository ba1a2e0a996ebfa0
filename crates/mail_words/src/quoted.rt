//! The Q encoding (RFC 2047, section 4.2).
ghost use Rattle.std.specs.Prelude.{◌≡◌, ◌<◌, ℕ, List, ◌∷◌, IfOk, IfSome, option_map};
ghost use Rattle.mail_words.specs.Quoted as quoted;

use std::alloc::{AllocError, Global};

/// The state of a reader of Q.
#[derive(Clone, Copy)]
pub enum Mode {
    InText,
    /// After `=`.
    AfterMark,
    /// After `=` and its first digit, with that digit's value.
    AfterDigit(u8),
}

/// The octets that a text in the Q encoding stands for; `None` if it isn't valid.
pub(crate) fn from_quoted(alloc: Global, text: &[u8]) -> Result<Option<Vec<u8>>, AllocError>
    ensures { IfOk result (λ octets. option_map (λ v. v.items) octets ≡ quoted.quoted_of text.now) }
{
    let mut octets = Vec::with_capacity(alloc, text.len())?;
    let mut mode = Mode::InText;
    for octet in text {
        let Some((next, read)) = step(mode, *octet) else {
            return Ok(None);
        };
        if let Some(read) = read {
            octets.push(read)?;
        }
        mode = next;
    }
    match mode {
        Mode::InText => Ok(Some(octets)),
        Mode::AfterMark => Ok(None),
        Mode::AfterDigit(_) => Ok(None),
    }
}

/// The state of a reader after one more octet, and the octet that it has read by then, if any.
fn step(mode: Mode, octet: u8) -> Option<(Mode, Option<u8>)>
    requires { quoted.IsMode mode }
    ensures reads { (rest : List ℕ) → quoted.quoted_from mode (octet ∷ rest) ≡ quoted.after_step result rest }
    ensures kept { IfSome result (λ p. quoted.IsMode p.0) }
{
    match mode {
        Mode::InText => Some(if octet == b'=' {
            (Mode::AfterMark, None)
        } else if octet == b'_' {
            (Mode::InText, Some(b' '))
        } else {
            (Mode::InText, Some(octet))
        }),
        Mode::AfterMark => Some((Mode::AfterDigit(digit(octet)?), None)),
        Mode::AfterDigit(high) => Some((Mode::InText, Some(high * 16 + digit(octet)?))),
    }
}

/// The value of a hexadecimal digit.
fn digit(octet: u8) -> Option<u8>
    ensures value { result ≡ quoted.hex_digit_of octet }
    ensures small { IfSome result (λ digit. digit < 16) }
{
    if 48 <= octet && octet <= 57 {
        Some(octet - 48)
    } else if 65 <= octet && octet <= 70 {
        Some(octet - 55)
    } else if 97 <= octet && octet <= 102 {
        Some(octet - 87)
    } else {
        None
    }
}
