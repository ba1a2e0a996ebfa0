//! Numbers as decimal digits.
ghost use Rattle.std.specs.Prelude.{◌≡◌, ℕ, ◌++◌, ◌<◌, ◌^◌, OnOk, OnErr, MatchOption, decimal};
ghost use Rattle.octets.specs.Decimal.{Writes};

use crate::string::Octets;
use itoa::Buffer;
use std::alloc::AllocError;

/// Appends the number in decimal, without leading zeros: at most 20 octets.
pub fn write_decimal(out: &mut Octets, number: u64) -> Result<(), AllocError>
    ensures ok { OnOk result (out.new ≡ out.old ++ decimal number) }
    ensures err { OnErr result (out.new ≡ out.old) }
{
    let mut buffer = Buffer::new();
    out.extend_from_slice(buffer.format(number).as_bytes())
}

/// Parses a text of decimal digits, without a sign; leading zeros are accepted. `None` if the text is anything else or the number
/// is 2^64 or more. One pass.
pub fn parse_decimal(text: &[u8]) -> Option<u64>
    ensures { MatchOption result ((n : ℕ) → n < 2 ^ 64 → Writes text.now n → ⊥) (λ n. Writes text.now n) }
{
    if text.is_empty() {
        return None;
    }
    let mut number: u64 = 0;
    for octet in text {
        if !octet.is_ascii_digit() {
            return None;
        }
        let digit = (*octet - b'0') as u64;
        if number > (u64::MAX - digit) / 10 {
            return None;
        }
        number = number * 10 + digit;
    }
    Some(number)
}
