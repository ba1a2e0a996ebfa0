//! How the word at a fault is shown.
ghost use Rattle.std.specs.Prelude.{◌≡◌, ◌++◌, IfOk, OnOk, codes, cond, map, take};
ghost use Rattle.sieve_places.specs.Places.{mark_octet, place_shown, shown_octet, shown_word, word_of_content};

use crate::find::FaultPlace;
use octets::{Octets, write_decimal};
use sieve_lex::{Content, Mark};
use std::alloc::{AllocError, Global};

/// At most this many octets of a word are shown.
const MAX_SHOWN: usize = 64;

/// The word of a token: a name, a tag with its colon, a number's value, what a string stands for, a mark.
pub(crate) fn word_of(alloc: Global, content: &Content<'_>) -> Result<Octets, AllocError>
    ensures { IfOk result (λ word. word ≡ word_of_content content.now) }
{
    match content {
        Content::Identifier(name) => name.to_octets(alloc),
        Content::Text(value) => value.to_octets(alloc),
        Content::Tag(name) => {
            let mut word = Octets::from_slice(alloc, b":")?;
            word.extend_from_slice(name.as_slice())?;
            Ok(word)
        }
        Content::Number(number) => {
            let mut word = Octets::new(alloc);
            write_decimal(&mut word, *number)?;
            Ok(word)
        }
        Content::Mark(mark) => {
            let mut word = Octets::new(alloc);
            word.push(octet_of(*mark))?;
            Ok(word)
        }
    }
}

/// The octet of a mark.
fn octet_of(mark: Mark) -> u8
    ensures { result ≡ mark_octet mark }
{
    match mark {
        Mark::Semicolon => b';',
        Mark::OpenBrace => b'{',
        Mark::CloseBrace => b'}',
        Mark::OpenBracket => b'[',
        Mark::CloseBracket => b']',
        Mark::OpenParen => b'(',
        Mark::CloseParen => b')',
        Mark::Comma => b',',
    }
}

/// What follows the words on a fault: ` "WORD"` if the fault is the word itself, else ` at "WORD"`. It is one line whatever the
/// script has: other octets than printable ASCII are shown as `?`, and so is a quote, and at most 64 octets of the word.
#[tactic(auto, unfolding(crate::specs::Places::place_shown))]
pub fn place_words(alloc: Global, place: &FaultPlace) -> Result<Octets, AllocError>
    ensures { IfOk result (λ text. text ≡ place_shown place.now) }
{
    let mut text = Octets::from_slice(alloc, opening(place.is_exact))?;
    push_shown(&mut text, place.word.as_slice())?;
    text.extend_from_slice(b"\"")?;
    Ok(text)
}

/// What comes before the word.
fn opening(is_exact: bool) -> &'static [u8]
    ensures { result.now ≡ cond is_exact (codes " \"") (codes " at \"") }
{
    if is_exact { b" \"" } else { b" at \"" }
}

/// Appends the word as it is shown.
#[tactic(auto, unfolding(crate::specs::Places::shown_word))]
pub fn push_shown(out: &mut Octets, word: &[u8]) -> Result<(), AllocError>
    ensures { OnOk result (out.new ≡ out.old ++ shown_word word.now) }
{
    if word.len() <= MAX_SHOWN {
        return push_visible(out, word);
    }
    let (front, _) = word.split_at(MAX_SHOWN);
    push_visible(out, front)?;
    out.extend_from_slice(b"..")
}

/// Appends each octet as it is shown.
fn push_visible(out: &mut Octets, octets: &[u8]) -> Result<(), AllocError>
    ensures { OnOk result (out.new ≡ out.old ++ map shown_octet octets.now) }
{
    for octet in octets {
        out.push(visible(*octet))?;
    }
    Ok(())
}

/// The octet as it is shown.
fn visible(octet: u8) -> u8
    ensures { result ≡ shown_octet octet }
{
    if 32 <= octet && octet <= 126 && octet != b'"' {
        octet
    } else {
        b'?'
    }
}
