//! Texts whose writer encoded words in them.
ghost use Rattle.std.specs.Prelude.{◌≡◌, ◌&&◌, IfOk};
ghost use Rattle.std.specs.List.{list_all};
ghost use Rattle.mail_words.specs.Runs.{runs_of};
ghost use Rattle.mail_words.specs.Written as written;

use crate::encoding::{are_printable, has_mark, header_text};
use crate::folding::fold;
use crate::run::{blank_run, nonblank_run};
use crate::word::word_text;
use std::alloc::{AllocError, Global};

/// The most octets of an encoded word (RFC 2047, section 2).
const MAX_WORD_LEN: usize = 75;

/// The most octets of a run, so that no line of a text has more than 998 (RFC 5322, section 2.1.1).
const MAX_RUN_LEN: usize = 200;

/// The most octets of a text that is written on one line.
const MAX_LINE_LEN: usize = 200;

/// Writes a text for a header field, with the words that its writer encoded: if it [has such words](has_written_words), as
/// [`written_lines`] does, otherwise as [`header_text`] does.
///
/// Time is linear in the text; lack of memory is the only error.
pub fn written_text(alloc: Global, text: &str) -> Result<Vec<u8>, AllocError>
    ensures { IfOk result (λ value. written.IsWrittenText text.now value.items) }
{
    if has_written_words(alloc, text.as_bytes())? {
        written_lines(alloc, text.as_bytes())
    } else {
        header_text(alloc, text)
    }
}

/// Writes a text with such words as it is: on one line if it has at most 200 octets, otherwise with a line end before each run of
/// blanks between other octets.
///
/// Time is linear in the text; lack of memory is the only error.
pub fn written_lines(alloc: Global, text: &[u8]) -> Result<Vec<u8>, AllocError>
    ensures { IfOk result (λ value. value.items ≡ written.lines_for text.now) }
{
    if text.len() <= MAX_LINE_LEN {
        Vec::from_slice(alloc, text)
    } else {
        fold(alloc, text)
    }
}

/// Whether a text contains `=?`, all its octets are from 32 to 126, each run has at most 200 of them, and each run that contains `=?`
/// is a recognised word of at most 75.
///
/// Time is linear in the text; lack of memory is the only error.
pub fn has_written_words(alloc: Global, text: &[u8]) -> Result<bool, AllocError>
    ensures { IfOk result (λ has. has ≡ written.has_written_words text.now) }
{
    if has_mark(text) && are_printable(text) {
        are_written_runs(alloc, text)
    } else {
        Ok(false)
    }
}

fn are_written_runs(alloc: Global, text: &[u8]) -> Result<bool, AllocError>
    ensures { IfOk result (λ are. are ≡ list_all written.is_written_run (runs_of text.now)) }
{
    let mut rest = text;
    while !rest.is_empty() {
        let (blanks, tail) = blank_run(rest);
        let (run, after) = nonblank_run(tail);
        if !are_written(alloc, blanks, run)? {
            return Ok(false);
        }
        rest = after;
    }
    Ok(true)
}

fn are_written(alloc: Global, blanks: &[u8], run: &[u8]) -> Result<bool, AllocError>
    ensures { IfOk result (λ are. are ≡ (written.is_written_run blanks.now && written.is_written_run run.now)) }
{
    if is_written_run(alloc, blanks)? {
        is_written_run(alloc, run)
    } else {
        Ok(false)
    }
}

/// Whether a run has at most 200 octets, and either contains no `=?` or is a recognised word of at most 75 octets.
fn is_written_run(alloc: Global, run: &[u8]) -> Result<bool, AllocError>
    ensures { IfOk result (λ is. is ≡ written.is_written_run run.now) }
{
    if run.len() > MAX_RUN_LEN {
        return Ok(false);
    }
    if !has_mark(run) {
        return Ok(true);
    }
    if run.len() > MAX_WORD_LEN {
        return Ok(false);
    }
    Ok(word_text(alloc, run)?.is_some())
}
