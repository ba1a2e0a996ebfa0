//! Checks texts as scripts, without a store.
ghost use Rattle.std.specs.Prelude.{◌≡◌, ◌≢◌, false, IsTrue, option_copied};
ghost use Rattle.cli_run.specs.Checks.{ChecksInput, IsChecked, PrintsFinding, script_too_large, check_fault_line};
ghost use Rattle.cli_run.specs.Faults.{status_of};
ghost use Rattle.cli_run.specs.Streams.{IsWritten, ReadsToEnd};

use crate::fault::{RunFault, refuse};
use crate::finding::finding_line;
use crate::stream::{read_all, write_all, write_line};
use managesieve_sessions::scripts::{MAX_SCRIPT, fault_in};
use sieve_lex::ScriptFault;
use std::alloc::Global;
use std::io::{Read, Write};
use store_accounts::Refusal;

/// Checks the input as a script. For a valid one nothing is printed, for another one the line that tells why it isn't valid. What
/// goes wrong is reported on the errors. Returns the exit status.
pub fn check_input<R: Read, W: Write, E: Write>(
    alloc: Global,
    input: &mut R,
    output: &mut W,
    errors: &mut E,
) -> u8
    ensures reads { result ≡ 0 → ReadsToEnd R.remaining input.old input.new }
    ensures checks { ChecksInput (R.remaining input.old) (W.contents output.old) (W.contents output.new) (E.contents errors.old)
        (E.contents errors.new) result }
{
    match read_all(alloc, input) {
        Ok(text) => check_text(alloc, None, text.as_slice(), output, errors),
        Err(fault) => refuse(errors, fault),
    }
}

/// Checks a text as a script, and if it isn't valid prints the line that tells why: `line N, column M: TEXT "WORD"`, or
/// `FILE:N:M: TEXT "WORD"` for a file; `line N: TEXT` or `FILE:N: TEXT` if the text isn't a list of tokens. A text that is longer than a script may be is no script. Returns the exit status: 0, 65, or 75 if memory or a write
/// failed. Time and memory are those of `sieve_syntax::check`.
pub fn check_text<W: Write, E: Write>(
    alloc: Global,
    file: Option<&str>,
    text: &[u8],
    output: &mut W,
    errors: &mut E,
) -> u8
    ensures { IsChecked (option_copied file.entry) text.now (W.contents output.old) (W.contents output.new)
        (E.contents errors.old) (E.contents errors.new) result }
{
    match print_finding(alloc, file, text, output) {
        Ok(None) => 0,
        Ok(Some(_)) => 65,
        Err(fault) => refuse_in(errors, file, fault),
    }
}

/// Prints why a text is no valid script; nothing if it is one.
fn print_finding<W: Write>(
    alloc: Global,
    file: Option<&str>,
    text: &[u8],
    output: &mut W,
) -> Result<Option<ScriptFault>, RunFault>
    ensures { PrintsFinding (option_copied file.entry) text.now (W.contents output.old) (W.contents output.new) result }
{
    if text.len() > MAX_SCRIPT {
        return Err(RunFault::Refused(Refusal::ScriptTooLarge));
    }
    let Some(fault) = fault_in(alloc, text)? else {
        return Ok(None);
    };
    let line = finding_line(alloc, name_of(file), text, fault)?;
    write_all(output, line.as_slice())?;
    Ok(Some(fault))
}

/// The octets of a file's name.
fn name_of(file: Option<&str>) -> Option<&[u8]>
    ensures { option_copied result ≡ option_copied file.entry }
{
    match file {
        Some(file) => Some(file.as_bytes()),
        None => None,
    }
}

/// Reports a fault, after the file's name if the file is too large, and returns its exit status.
fn refuse_in<E: Write>(errors: &mut E, file: Option<&str>, fault: RunFault) -> u8
    ensures status { result ≡ status_of fault }
    ensures line { IsWritten (E.contents errors.old) (E.contents errors.new) (check_fault_line (option_copied file.entry) fault) }
{
    let Some(file) = file else {
        return refuse(errors, fault);
    };
    if is_too_large(fault) {
        let _ = write_line(errors, file.as_bytes(), b": script too large");
        return fault.status();
    }
    refuse(errors, fault)
}

/// Whether the fault is that a text is longer than a script may be.
fn is_too_large(fault: RunFault) -> bool
    ensures yes { IsTrue result → fault ≡ script_too_large }
    ensures other { result ≡ false → fault ≢ script_too_large }
{
    matches!(fault, RunFault::Refused(Refusal::ScriptTooLarge))
}
