//! Folding of long texts.
ghost use Rattle.std.specs.Prelude.{◌≡◌, ◌==◌, ◌||◌, [], ◌∷◌, length, if◌then◌else◌, IfOk};
ghost use Rattle.mail_words.specs.Written.{folded};

use crate::run::{blank_run, nonblank_run};
use std::alloc::{AllocError, Global};

/// Folds a text: inserts CRLF before each run of blanks between other octets (RFC 5322, section 2.2.3).
///
/// Time is linear in the text; memory is at most three times the text. Lack of memory is the only error.
pub(crate) fn fold(alloc: Global, text: &[u8]) -> Result<Vec<u8>, AllocError>
    ensures { IfOk result (λ value. value.items ≡ folded text.now) }
{
    let mut value = Vec::with_capacity(alloc, text.len())?;
    let mut rest = text;
    while !rest.is_empty() {
        let (blanks, tail) = blank_run(rest);
        let (run, after) = nonblank_run(tail);
        value.extend_from_slice(line_end(value.as_slice(), blanks, run))?;
        value.extend_from_slice(blanks)?;
        value.extend_from_slice(run)?;
        rest = after;
    }
    Ok(value)
}

/// CRLF before blanks and a run, if both are nonempty and something precedes them.
fn line_end(before: &[u8], blanks: &[u8], run: &[u8]) -> &'static [u8]
    ensures { result.now ≡ (if length before.now == 0 || (length blanks.now == 0 || length run.now == 0) then [] else 13 ∷ 10 ∷ []) }
{
    if before.is_empty() || (blanks.is_empty() || run.is_empty()) {
        b""
    } else {
        b"\r\n"
    }
}
