//! Numbers.
ghost use Rattle.std.specs.Prelude.{◌≡◌, ◌*◌, ◌<◌, ◌≤◌, ◌^◌, length, take, MatchOption, Some};
ghost use Rattle.std.specs.List.{prefix_len};
ghost use Rattle.octets.specs.Ascii.{is_digit};
ghost use Rattle.octets.specs.Decimal.{number_of};
ghost use Rattle.sieve_lex.specs.Digits.{letter_len};
ghost use Rattle.sieve_lex.specs.Shape.{factor_of};

/// The greatest number of a script.
const MAX_NUMBER: u64 = 9_223_372_036_854_775_807;

/// How many digits the text begins with.
pub(crate) fn digit_count(octets: &[u8]) -> usize
    ensures { result ≡ prefix_len is_digit octets.now }
{
    octets
        .iter()
        .take_while(|octet| octet.is_ascii_digit())
        .count()
}

/// What the letter at the beginning multiplies a number by, and how many octets it is: one, or none.
pub(crate) fn multiplier(octets: &[u8]) -> (u64, usize)
    ensures len { result.1 ≡ letter_len octets.now }
    ensures within { result.1 ≤ length octets.now }
    ensures factor { factor_of (take result.1 octets.now) ≡ Some result.0 }
    ensures positive { 0 < result.0 }
{
    match octets.first() {
        Some(b'K' | b'k') => (1 << 10, 1),
        Some(b'M' | b'm') => (1 << 20, 1),
        Some(b'G' | b'g') => (1 << 30, 1),
        _ => (1, 0),
    }
}

/// The product of the digits' number and the multiplier, unless it is above the greatest number.
pub(crate) fn amount(digits: &[u8], factor: u64) -> Option<u64>
    requires { 0 < factor }
    ensures { MatchOption result (2 ^ 63 ≤ number_of digits.now * factor) (λ n. (n ≡ number_of digits.now * factor) × (n < 2 ^ 63)) }
{
    let value = decimal(digits)?;
    if value > MAX_NUMBER / factor {
        return None;
    }
    Some(value * factor)
}

/// The number that the digits write, unless it is above the greatest number.
fn decimal(digits: &[u8]) -> Option<u64>
    ensures { MatchOption result (2 ^ 63 ≤ number_of digits.now) (λ n. (n ≡ number_of digits.now) × (n < 2 ^ 63)) }
{
    let mut value: u64 = 0;
    for octet in digits {
        let digit = u64::from(octet.saturating_sub(b'0'));
        if value > (MAX_NUMBER - digit) / 10 {
            return None;
        }
        value = value * 10 + digit;
    }
    Some(value)
}
