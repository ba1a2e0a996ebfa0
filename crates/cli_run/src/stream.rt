//! Reads an input to its end, and writes texts; says how far a write came if it fails.
ghost use Rattle.std.specs.Prelude.{◌≡◌, ◌≢◌, ◌+◌, ◌<◌, ◌≤◌, ◌++◌, [], Some, None, take, drop, decimal, length, vec_len, unwrap_or, IfOk, IfErr, IfSome, OnOk, OnErr};
ghost use Rattle.std.specs.Io.KnownBytes.{Appends, Consumes, IsAtEnd, Keeps};
ghost use Rattle.std.specs.IoError.{error_kind};
ghost use Rattle.cli_reports.specs.Reports.{ended_line};
ghost use Rattle.cli_run.specs.Faults.{IsFailure, IsPrinted, IsTextPut};
ghost use Rattle.cli_run.specs.Streams.{ReadGoesOn, InputFailed, ReadFailed, ReadsAll, ReadsToEnd, WriteTakes, TellsEnd, WasInterrupted, WriteFailed};

use crate::fault::RunFault;
use itoa::Buffer;
use std::alloc::{AllocError, Global};
use std::io;
use std::io::{ErrorKind, Read, Write};

/// An input that needs more reads than this is given up, and so is a session.
pub(crate) const MAX_READS: u32 = 40_000_000;

/// How much room is made for a read, in octets, once the last one is full.
pub(crate) const PIECE: usize = 262_144;

/// Reads to the end, in place and in large pieces, and copies nothing except when the vector grows.
pub fn read_all<R: Read>(alloc: Global, input: &mut R) -> Result<Vec<u8>, RunFault>
    ensures ok { IfOk result (λ octets. ReadsAll (R.remaining input.old) octets.items) }
    ensures end { OnOk result (IsAtEnd (R.remaining input.new)) }
    ensures reads { OnOk result (ReadsToEnd R.remaining input.old input.new) }
    ensures err { IfErr result IsFailure }
    ensures failed { IfErr result (λ fault. fault ≡ RunFault.Stream → InputFailed) }
{
    let mut octets = Vec::new(alloc);
    let mut filled = 0;
    for _ in 0..MAX_READS {
        make_room(&mut octets, filled)?;
        match read_at(input, octets.as_mut_slice(), filled)? {
            Some(more) => filled += more,
            None => {
                octets.truncate(filled);
                return Ok(octets);
            }
        }
    }
    Err(RunFault::Stream)
}

/// Room after the filled octets, which stay.
pub(crate) fn make_room(octets: &mut Vec<u8>, filled: usize) -> Result<(), AllocError>
    requires { filled ≤ vec_len octets.old }
    ensures room { OnOk result (filled < vec_len octets.new) }
    ensures most { vec_len octets.old ≤ filled + PIECE → OnOk result (vec_len octets.new ≤ filled + PIECE) }
    ensures front { take filled octets.new.items ≡ take filled octets.old.items }
{
    if filled < octets.len() {
        return Ok(());
    }
    octets.resize(filled + PIECE, 0)
}

/// One read into the room from `at` on: how many octets came, 0 if a signal came first,
/// or `None` at the end of the input.
pub fn read_at<R: Read>(
    input: &mut R,
    room: &mut [u8],
    at: usize,
) -> Result<Option<usize>, RunFault>
    requires { at < length room.old }
    ensures front { take at room.new ≡ take at room.old }
    ensures fits { IfOk result (λ more. at + unwrap_or more 0 ≤ length room.new) }
    ensures read { IfOk result (λ more. Consumes (R.remaining input.old) (R.remaining input.new)
        (take (unwrap_or more 0) (drop at room.new))) }
    ensures goes { IfOk result (λ more. IfSome more (λ count. ReadGoesOn R.remaining input.old input.new)) }
    ensures interrupted { result ≡ Ok (Some 0) → WasInterrupted input.old input.new }
    ensures end { result ≡ Ok None → IsAtEnd (R.remaining input.new) }
    ensures tells { result ≡ Ok None → TellsEnd input.old input.new }
    ensures fault { IfErr result (λ fault. fault ≡ RunFault.Stream) }
    ensures failed { OnErr result (ReadFailed (R.remaining input.new)) }
{
    match input.read(&mut room[at..]) {
        Ok(0) => Ok(None),
        Ok(more) => Ok(Some(more)),
        Err(error) => {
            allow_retry(&error)?;
            Ok(Some(0))
        }
    }
}

/// Refuses every failure except a signal before the call, which is made again then.
fn allow_retry(error: &io::Error) -> Result<(), RunFault>
    ensures retried { OnOk result (error_kind error.now ≡ ErrorKind.Interrupted) }
    ensures refused { OnErr result (error_kind error.now ≢ ErrorKind.Interrupted) }
    ensures fault { IfErr result (λ fault. fault ≡ RunFault.Stream) }
{
    match error.kind() {
        ErrorKind::Interrupted => Ok(()),
        _ => Err(RunFault::Stream),
    }
}

/// Writes the whole text, and flushes. If that fails, a prefix of it is written.
pub fn write_all<W: Write>(output: &mut W, text: &[u8]) -> Result<(), RunFault>
    ensures { IsPrinted result (W.contents output.old) (W.contents output.new) text.now }
{
    put(output, text)?;
    flush(output)
}

/// Writes a word and its object as a line, and flushes. Takes no memory.
pub fn write_line<W: Write>(output: &mut W, word: &[u8], what: &[u8]) -> Result<(), RunFault>
    ensures { IsPrinted result (W.contents output.old) (W.contents output.new) (ended_line (word.now ++ what.now)) }
{
    put_line(output, word, what)?;
    flush(output)
}

/// Writes a word and a number in decimal as a line, and flushes. Takes no memory.
pub fn write_number<W: Write>(output: &mut W, word: &[u8], number: u64) -> Result<(), RunFault>
    ensures { IsPrinted result (W.contents output.old) (W.contents output.new) (ended_line (word.now ++ decimal number)) }
{
    let mut buffer = Buffer::new();
    write_line(output, word, buffer.format(number).as_bytes())
}

/// Writes a word and its object as a line, without flushing. Takes no memory.
pub fn put_line<W: Write>(output: &mut W, word: &[u8], what: &[u8]) -> Result<(), RunFault>
    ensures { IsTextPut result (W.contents output.old) (W.contents output.new) (ended_line (word.now ++ what.now)) }
{
    put(output, word)?;
    put(output, what)?;
    put(output, b"\n")
}

/// Writes the whole text, without flushing.
pub fn put<W: Write>(output: &mut W, text: &[u8]) -> Result<(), RunFault>
    ensures { IsTextPut result (W.contents output.old) (W.contents output.new) text.now }
{
    let mut rest = text;
    for _ in 0..u64::MAX {
        if rest.is_empty() {
            return Ok(());
        }
        let written = write_some(output, rest)?;
        rest = rest.split_at(written).1;
    }
    Err(RunFault::Stream)
}

/// One write: how many octets of the text are written, 0 if a signal came first.
fn write_some<W: Write>(output: &mut W, text: &[u8]) -> Result<usize, RunFault>
    requires { text.now ≢ [] }
    ensures bound { IfOk result (λ n. n ≤ length text.now) }
    ensures ok { IfOk result (λ n. Appends (W.contents output.old) (W.contents output.new) (take n text.now)) }
    ensures takes { OnOk result (WriteTakes W.contents output.old output.new) }
    ensures interrupted { result ≡ Ok 0 → WasInterrupted output.old output.new }
    ensures err { OnErr result (Keeps (W.contents output.old) (W.contents output.new)) }
    ensures failed { OnErr result (WriteFailed (W.contents output.new)) }
    ensures fault { IfErr result (λ fault. fault ≡ RunFault.Stream) }
{
    match output.write(text) {
        Ok(0) => Err(RunFault::Stream),
        Ok(written) => Ok(written),
        Err(error) => {
            allow_retry(&error)?;
            Ok(0)
        }
    }
}

/// Flushes what was written.
pub fn flush<W: Write>(output: &mut W) -> Result<(), RunFault>
    ensures { IsPrinted result (W.contents output.old) (W.contents output.new) [] }
{
    match output.flush() {
        Ok(()) => Ok(()),
        Err(_) => Err(RunFault::Stream),
    }
}
