//! The line on what is wrong with a script.
ghost use Rattle.std.specs.Prelude.{◌≡◌, ◌++◌, Some, codes, decimal, IfOk, OnOk, option_copied};
ghost use Rattle.cli_run.specs.Checks.{IsFindingLine, fault_in_file, fault_placed, position_words};
ghost use Rattle.sieve_lex.specs.Faults.{fault_text};
ghost use Rattle.sieve_places.specs.Places.{place_shown};

use cli_reports::report_fault;
use octets::{Octets, write_decimal};
use sieve_lex::{FaultKind, ScriptFault};
use sieve_places::{FaultPlace, find_place, place_words};
use std::alloc::{AllocError, Global};

/// The line on a fault of a text, with the place of the word at it and the word, if it has one: `line N, column M: TEXT "WORD"`, or
/// `FILE:N:M: TEXT "WORD"` for a file. If the text isn't a list of tokens, there is no word: `line N: TEXT`, or `FILE:N: TEXT`.
pub(crate) fn finding_line(
    alloc: Global,
    file: Option<&[u8]>,
    text: &[u8],
    fault: ScriptFault,
) -> Result<Octets, AllocError>
    ensures { IfOk result (IsFindingLine (option_copied file.entry) text.now fault) }
{
    match find_place(alloc, text, fault.kind)? {
        Some(place) => line_at_place(alloc, file, &place, fault.kind),
        None => line_in(alloc, file, fault),
    }
}

/// The line with the place of the word.
fn line_at_place(
    alloc: Global,
    file: Option<&[u8]>,
    place: &FaultPlace,
    kind: FaultKind,
) -> Result<Octets, AllocError>
    ensures { IfOk result (λ text. text ≡ fault_placed (option_copied file.entry) place.now kind) }
{
    let mut line = Octets::new(alloc);
    push_position(&mut line, file, place)?;
    push_fault(alloc, &mut line, place, kind)?;
    Ok(line)
}

/// Appends where the word is.
fn push_position(
    text: &mut Octets,
    file: Option<&[u8]>,
    place: &FaultPlace,
) -> Result<(), AllocError>
    ensures { OnOk result (text.new ≡ text.old ++ position_words (option_copied file.entry) place.now) }
{
    match file {
        None => {
            text.extend_from_slice(b"line ")?;
            push_numbers(text, place, b", column ")
        }
        Some(file) => {
            text.extend_from_slice(file)?;
            text.extend_from_slice(b":")?;
            push_numbers(text, place, b":")
        }
    }
}

/// Appends the line and the column, with this between them.
fn push_numbers(text: &mut Octets, place: &FaultPlace, between: &[u8]) -> Result<(), AllocError>
    ensures { OnOk result (text.new ≡ text.old ++ (decimal place.now.line ++ (between.now ++ decimal place.now.column))) }
{
    write_decimal(text, place.line)?;
    text.extend_from_slice(between)?;
    write_decimal(text, place.column)
}

/// Appends what is wrong, the word, and the line's end.
fn push_fault(
    alloc: Global,
    text: &mut Octets,
    place: &FaultPlace,
    kind: FaultKind,
) -> Result<(), AllocError>
    ensures { OnOk result (text.new ≡ text.old ++ (codes ": " ++ (fault_text kind ++ (place_shown place.now ++ codes "\n")))) }
{
    let words = place_words(alloc, place)?;
    text.extend_from_slice(b": ")?;
    text.extend_from_slice(kind.text().as_bytes())?;
    text.extend_from_slice(words.as_slice())?;
    text.extend_from_slice(b"\n")
}

/// The line on a fault of a script, without the place of a word.
fn line_in(alloc: Global, file: Option<&[u8]>, fault: ScriptFault) -> Result<Octets, AllocError>
    ensures { IfOk result (λ text. text ≡ fault_in_file (option_copied file.entry) fault) }
{
    match file {
        None => report_fault(alloc, fault),
        Some(file) => line_in_file(alloc, file, fault),
    }
}

/// The line on a fault of the script in a file.
fn line_in_file(alloc: Global, file: &[u8], fault: ScriptFault) -> Result<Octets, AllocError>
    ensures { IfOk result (λ text. text ≡ fault_in_file (Some file.now) fault) }
{
    let mut text = Octets::from_slice(alloc, file)?;
    text.extend_from_slice(b":")?;
    write_decimal(&mut text, fault.line)?;
    text.extend_from_slice(b": ")?;
    text.extend_from_slice(fault.kind.text().as_bytes())?;
    text.push(b'\n')?;
    Ok(text)
}
