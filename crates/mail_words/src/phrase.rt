//! Words in a phrase.
ghost use Rattle.std.specs.Prelude.{◌≡◌};
ghost use Rattle.std.specs.List.{list_all};
ghost use Rattle.mail_words.specs.Written as written;

use crate::encoding::has_mark;
use crate::run::{blank_run, nonblank_run};

/// Whether each run that contains `=?` is written as a word in a phrase must be: with letters, digits, `! * + - / = _` and question
/// marks (RFC 2047, section 5 (3)). Time is linear in the text; takes no memory.
pub fn has_phrase_words(text: &[u8]) -> bool
    ensures { result ≡ written.has_phrase_words text.now }
{
    let mut rest = text;
    while !rest.is_empty() {
        let (_, tail) = blank_run(rest);
        let (run, after) = nonblank_run(tail);
        if !is_phrase_run(run) {
            return false;
        }
        rest = after;
    }
    true
}

fn is_phrase_run(run: &[u8]) -> bool
    ensures { result ≡ written.is_phrase_run run.now }
{
    !has_mark(run) || are_phrase_marks(run)
}

fn are_phrase_marks(run: &[u8]) -> bool
    ensures { result ≡ list_all written.is_phrase_mark run.now }
{
    run.iter().all(|octet| is_phrase_mark(*octet))
}

fn is_phrase_mark(octet: u8) -> bool
    ensures { result ≡ written.is_phrase_mark octet }
{
    octet.is_ascii_alphabetic()
        || octet.is_ascii_digit()
        || matches!(octet, b'!' | b'*' | b'+' | b'-' | b'/' | b'=' | b'_' | b'?')
}
