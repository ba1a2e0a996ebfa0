//! Texts preceded by their lengths.
ghost use Rattle.std.specs.Prelude.{◌≡◌, ◌≤◌, ◌++◌, ◌∷◌, [], ℕ, List, length, decimal, OnOk, IfSome, IfNone};
ghost use Rattle.std.specs.List.{prefix_len};
ghost use Rattle.store_text.specs.Netstring.{netstring, decimal_in, other, CutsAtMark, IsNetstringField};

use itoa::Buffer;
use octets::{Octets, parse_decimal, write_decimal};
use std::alloc::AllocError;

/// The largest length of a field in octets: no memory holds more.
pub const MAX_FIELD: u64 = 9_223_372_036_854_775_807;

/// Appends what comes before a text of that many octets.
pub(crate) fn push_length(out: &mut Octets, count: usize) -> Result<(), AllocError>
    ensures { OnOk result (out.new ≡ out.old ++ (decimal count ++ 58 ∷ [])) }
{
    write_decimal(out, count as u64)?;
    out.push(b':')
}

/// Appends a text preceded by its length.
#[tactic(auto, unfolding(crate::specs::Netstring::netstring))]
pub(crate) fn push_netstring(out: &mut Octets, text: &[u8]) -> Result<(), AllocError>
    ensures { OnOk result (out.new ≡ out.old ++ netstring text.now) }
{
    push_length(out, text.len())?;
    out.extend_from_slice(text)?;
    out.push(b',')
}

/// Appends a number in decimal, preceded by its length.
pub(crate) fn push_number(out: &mut Octets, number: u64) -> Result<(), AllocError>
    ensures { OnOk result (out.new ≡ out.old ++ netstring (decimal number)) }
{
    let mut buffer = Buffer::new();
    push_netstring(out, buffer.format(number).as_bytes())
}

/// The number in decimal digits, without leading zeros; `None` if it isn't one, or if it is 2^63 or more.
#[tactic(auto, unfolding(crate::specs::Netstring::decimal_in))]
pub(crate) fn number_of(text: &[u8]) -> Option<u64>
    ensures { result ≡ decimal_in text.now }
{
    let Some(number) = parse_decimal(text) else {
        return None;
    };
    if number >= 1 << 63 {
        return None;
    }
    let mut buffer = Buffer::new();
    if text != buffer.format(number).as_bytes() {
        return None;
    }
    Some(number)
}

/// Reads a text preceded by its length, and returns it with the rest; `None` if there is none.
pub(crate) fn take_netstring(octets: &[u8]) -> Option<(&[u8], &[u8])>
    ensures found { IfSome result (λ taken. octets.now ≡ netstring taken.0.now ++ taken.1.now) }
    ensures field { IfSome result (λ taken. IsNetstringField taken.0.now) }
    ensures none { IfNone result ((text more : List ℕ) → IsNetstringField text → octets.now ≡ netstring text ++ more → ⊥) }
{
    let Some((digits, rest)) = cut_at_colon(octets) else {
        return None;
    };
    let Some(size) = number_of(digits) else {
        return None;
    };
    take_text(rest, size as usize)
}

/// The text of that many octets before a comma, and the rest after that; `None` if it isn't there.
fn take_text(octets: &[u8], count: usize) -> Option<(&[u8], &[u8])>
    ensures found { IfSome result (λ taken. (octets.now ≡ taken.0.now ++ 44 ∷ taken.1.now) × (length taken.0.now ≡ count)) }
    ensures none { IfNone result ((text more : List ℕ) → length text ≡ count → octets.now ≡ text ++ 44 ∷ more → ⊥) }
{
    if octets.len() <= count {
        return None;
    }
    let (text, behind) = octets.split_at(count);
    match behind.split_first() {
        Some((b',', rest)) => Some((text, rest)),
        _ => None,
    }
}

/// What comes before the first colon and after it; `None` if there is no colon.
fn cut_at_colon(text: &[u8]) -> Option<(&[u8], &[u8])>
    ensures found { IfSome result (λ cut. CutsAtMark 58 text.now cut.0.now cut.1.now) }
    ensures none { IfNone result ((front rest : List ℕ) → text.now ≡ front ++ 58 ∷ rest → ⊥) }
{
    let count = length_before_colon(text);
    let (front, behind) = text.split_at(count);
    match behind.split_first() {
        Some((_, rest)) => Some((front, rest)),
        None => None,
    }
}

/// How many octets come before the first colon.
fn length_before_colon(text: &[u8]) -> usize
    ensures value { result ≡ prefix_len (other 58) text.now }
    ensures within { result ≤ length text.now }
{
    text.iter().take_while(|octet| **octet != b':').count()
}
