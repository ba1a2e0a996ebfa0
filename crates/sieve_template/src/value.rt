//! How much of a text a variable holds (RFC 5229, section 6).
ghost use Rattle.std.specs.Prelude.{◌≡◌, ℕ, ◌<◌, ◌≤◌, cond, false, length, ◌&&◌};
ghost use Rattle.sieve_template.specs.Values as values;
ghost use Rattle.sieve_template.specs.Values.{IsCutAt, IsKeptAs};

use crate::limits::{MAX_VALUE_CHARACTERS, MAX_VALUE_OCTETS};

/// `*`, `?` and the backslash.
pub(crate) fn is_wildcard(octet: u8) -> bool
    ensures { result ≡ values.is_wildcard octet }
{
    octet == b'*' || octet == b'?' || octet == b'\\'
}

// Whether an octet begins a character of UTF-8.
fn begins_character(octet: u8) -> bool
    ensures { result ≡ values.begins_character octet }
{
    octet < 0x80 || 0xC0 <= octet
}

/// The number of characters of a text: octets that begin one, as in UTF-8 all but 0x80 to 0xBF do. One pass.
pub fn count_characters(text: &[u8]) -> usize
    ensures { result ≡ values.character_count text.now }
{
    text.iter()
        .filter(|octet| begins_character(**octet))
        .count()
}

// How many octets are written for one.
fn width(octet: u8, quote: bool) -> usize
    ensures { result ≡ cond (quote && values.is_wildcard octet) 2 1 }
{
    if quote && is_wildcard(octet) { 2 } else { 1 }
}

/// The place up to which a variable holds a text, with its wildcards quoted or as it is: at most 4,000 characters and 16,384
/// octets as written, and no part of a character. Looks at 16,385 octets at most.
pub fn end_of_value(text: &[u8], quote: bool) -> usize
    ensures { IsCutAt quote text.now result }
{
    let (mut octets, mut characters, mut end) = (0, 0, 0);
    for (i, octet) in text.iter().enumerate() {
        let more = width(*octet, quote);
        octets += more;
        if begins_character(*octet) {
            end = i;
            characters += more;
        }
        if octets > MAX_VALUE_OCTETS || characters > MAX_VALUE_CHARACTERS {
            return end;
        }
    }
    text.len()
}

/// What a variable holds of a text: the text itself, unless it is longer than the limits.
pub fn cut_value(text: &[u8]) -> &[u8]
    ensures { IsKeptAs false text.now result.now }
{
    &text[..end_of_value(text, false)]
}
