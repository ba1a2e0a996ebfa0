//! Splits the input: a line with the length of the script in decimal, the script, and the message.
ghost use Rattle.std.specs.Prelude.{◌≡◌, ℕ, List, MatchOption, IfSome, IfNone};
ghost use Rattle.std.specs.List.{prefix_len};
ghost use Rattle.octets.specs.Ascii.{is_digit};
ghost use Rattle.cli_run.specs.Framing.{HasCountLine, IsFramed};

use octets::parse_decimal;

/// A length with more digits than this isn't one.
const MAX_DIGITS: usize = 9;

/// A script and the message that it is tried on, as they are in the input.
#[derive(Clone, Copy)]
pub struct Framed<'a> {
    /// The script.
    pub script: &'a [u8],
    /// The message: all after the script.
    pub message: &'a [u8],
}

/// Splits an input into script and message: a line of one to nine digits with the script's length in octets,
/// the script of that length, and the message up to the end. `None` if the input isn't that. Takes no memory.
pub fn split(input: &[u8]) -> Option<Framed<'_>>
    ensures found { IfSome result (λ f. IsFramed input.now f.script.now f.message.now) }
    ensures only { IfSome result (λ f. (script message : List ℕ) → IsFramed input.now script message →
        (script ≡ f.script.now) × (message ≡ f.message.now)) }
    ensures none { IfNone result ((script message : List ℕ) → IsFramed input.now script message → ⊥) }
{
    let (count, rest) = split_count(input)?;
    if count > rest.len() as u64 {
        return None;
    }
    let (script, message) = rest.split_at(count as usize);
    Some(Framed { script, message })
}

/// The number in the first line, and what follows that line.
fn split_count(input: &[u8]) -> Option<(u64, &[u8])>
    ensures { MatchOption result ((number : ℕ) (rest : List ℕ) → HasCountLine input.now number rest → ⊥)
        (λ r. HasCountLine input.now r.0 r.1.now) }
{
    let len = digits_len(input);
    if len > MAX_DIGITS {
        return None;
    }
    let (digits, after) = input.split_at(len);
    let (mark, rest) = after.split_first()?;
    if *mark != b'\n' {
        return None;
    }
    let number = parse_decimal(digits)?;
    Some((number, rest))
}

/// How many digits the input begins with.
fn digits_len(input: &[u8]) -> usize
    ensures { result ≡ prefix_len is_digit input.now }
{
    input
        .iter()
        .take_while(|octet| octet.is_ascii_digit())
        .count()
}
