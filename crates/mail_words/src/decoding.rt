//! The text of a header value.
ghost use Rattle.std.specs.Prelude.{◌≡◌, ◌&&◌, [], if◌then◌else◌, IfOk, option_map, unwrap_or};
ghost use Rattle.mail_words.specs.Values.{decoded_text};

use crate::run::{blank_run, nonblank_run};
use crate::word::word_text;
use std::alloc::{AllocError, Global};

/// Decodes a header value: each recognised encoded word is replaced by its text (RFC 2047). What isn't recognised stays as
/// written.
///
/// Time is linear in the length of the value.
pub fn decoded(alloc: Global, value: &[u8]) -> Result<Vec<u8>, AllocError>
    ensures { IfOk result (λ text. text.items ≡ decoded_text value.now) }
{
    let mut text = Vec::with_capacity(alloc, value.len())?;
    let mut rest = value;
    let mut after_word = false;
    while !rest.is_empty() {
        let (blanks, tail) = blank_run(rest);
        let (run, after) = nonblank_run(tail);
        let word = word_text(alloc, run)?;
        text.extend_from_slice(kept_blanks(after_word, word.is_some(), blanks))?;
        text.extend_from_slice(shown(&word, run))?;
        after_word = word.is_some();
        rest = after;
    }
    Ok(text)
}

/// The blanks of a run; between two recognised words nothing.
fn kept_blanks(after_word: bool, before_word: bool, blanks: &[u8]) -> &[u8]
    ensures { result.now ≡ (if after_word && before_word then [] else blanks.now) }
{
    if after_word && before_word {
        blanks.split_at(0).0
    } else {
        blanks
    }
}

/// The text of a run if it is a recognised word, otherwise the run.
fn shown<'a>(word: &'a Option<Vec<u8>>, run: &'a [u8]) -> &'a [u8]
    ensures { result.now ≡ unwrap_or (option_map (λ v. v.items) word.now) run.now }
{
    match word {
        Some(text) => text.as_slice(),
        None => run,
    }
}
