//! `i;ascii-numeric` (RFC 4790, section 9.1): texts are compared by the numbers that they begin with.
ghost use Rattle.std.specs.Prelude.{◌≡◌, ◌<◌, ◌↔◌, None, Some, MatchOption, IsTrue};
ghost use Rattle.std.specs.List.{AllPass};
ghost use Rattle.std.specs.Ordering.{MatchOrdering};
ghost use Rattle.octets.specs.Ascii.{is_digit};
ghost use Rattle.octets.specs.Decimal.{number_of};
ghost use Rattle.sieve_match.specs.Numbers.{number_at, digits_of, ArePlainDigits, IsBelow, EqualNumbers};

use crate::Octet;
use crate::order::compare;
use std::cmp::Ordering;

/// Compares what two texts stand for: the number that all the digits at the beginning of a text write, however many
/// there are. A text that begins with no digit stands for positive infinity, so all such texts are equal. One pass over each.
pub fn compare_numbers(one: &[u8], other: &[u8]) -> Ordering
    ensures { MatchOrdering result (IsBelow one.now other.now) (EqualNumbers one.now other.now) (IsBelow other.now one.now) }
{
    match plain_digits(one) {
        Some(digits) => match plain_digits(other) {
            Some(others) => compare_digits(digits, others),
            None => Ordering::Less,
        },
        None => match plain_digits(other) {
            Some(_) => Ordering::Greater,
            None => Ordering::Equal,
        },
    }
}

/// Whether two texts stand for the same number or both for infinity (`compare_numbers`).
pub fn are_equal_numbers(one: &[u8], other: &[u8]) -> bool
    ensures { IsTrue result ↔ EqualNumbers one.now other.now }
{
    compare_numbers(one, other).is_eq()
}

// The digits that a text begins with, without leading zeros; `None` if it begins with no digit.
fn plain_digits(text: &[u8]) -> Option<&[u8]>
    ensures value { MatchOption result (number_at text.now ≡ None) (λ digits. number_at text.now ≡ Some (number_of digits.now)) }
    ensures plain { MatchOption result (Unit {0}) (λ digits. ArePlainDigits digits.now) }
{
    let digits = leading_digits(text);
    if digits.is_empty() {
        return None;
    }
    Some(without_zeros(digits))
}

// The digits that a text begins with.
fn leading_digits(text: &[u8]) -> &[u8]
    ensures { result.now ≡ digits_of text.now }
{
    let mut end = 0;
    while end < text.len() && text[end].is_ascii_digit() {
        end += 1;
    }
    text.split_at(end).0
}

// The digits without leading zeros.
fn without_zeros(digits: &[u8]) -> &[u8]
    requires { AllPass is_digit digits.now }
    ensures value { number_of result.now ≡ number_of digits.now }
    ensures plain { ArePlainDigits result.now }
{
    let mut start = 0;
    while start < digits.len() && digits[start] == b'0' {
        start += 1;
    }
    digits.split_at(start).1
}

// Compares the numbers of two texts of digits: the longer one is the greater, since there are no leading zeros.
fn compare_digits(one: &[u8], other: &[u8]) -> Ordering
    requires one { ArePlainDigits one.now }
    requires other { ArePlainDigits other.now }
    ensures { MatchOrdering result (number_of one.now < number_of other.now) (number_of one.now ≡ number_of other.now)
        (number_of other.now < number_of one.now) }
{
    if one.len() != other.len() {
        return one.len().cmp(&other.len());
    }
    compare::<Octet>(one, other)
}
