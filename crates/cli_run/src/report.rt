//! The report on a delivery, printed without taking memory, since the delivery was made already.
ghost use Rattle.std.specs.Prelude.{◌≡◌, ◌≢◌, ◌++◌, [], false, map, IsTrue};
ghost use Rattle.std.specs.List.{flat_map};
ghost use Rattle.cli_reports.specs.Reports.{delivery_lines, delivery_report, notice_lines, vacation_lines, ended_line};
ghost use Rattle.cli_run.specs.Faults.{IsPrinted, IsTextPut};

use crate::fault::RunFault;
use crate::stream::{flush, put, put_line, write_all};
use itoa::Buffer;
use octets::Octets;
use std::io::Write;
use store_accounts::{Report, VacationReport};

/// Prints the report on a delivery: a line for each folder that the message joined, for each address that it is
/// sent on to, for a vacation reply and for a notice, in this order, or `discard` if there is none of these.
pub fn print_report<W: Write>(report: &Report, output: &mut W) -> Result<(), RunFault>
    ensures { IsPrinted result (W.contents output.old) (W.contents output.new) (delivery_report report.now) }
{
    if is_discarded(report) {
        return write_all(output, b"discard\n");
    }
    put_report(report, output)?;
    flush(output)
}

/// The lines on what a delivery did.
fn put_report<W: Write>(report: &Report, output: &mut W) -> Result<(), RunFault>
    ensures { IsTextPut result (W.contents output.old) (W.contents output.new) (flat_map ended_line (delivery_lines report.now)) }
{
    put_lines(output, b"file ", report.filed.as_slice())?;
    put_lines(output, b"send ", report.sent.as_slice())?;
    put_vacation(output, report.vacation)?;
    put_notice(output, &report.notice)
}

/// Whether a delivery did nothing that its report shows.
fn is_discarded(report: &Report) -> bool
    ensures yes { IsTrue result → delivery_lines report.now ≡ [] }
    ensures no { result ≡ false → delivery_lines report.now ≢ [] }
{
    if !report.filed.is_empty() {
        return false;
    }
    if !report.sent.is_empty() {
        return false;
    }
    match (report.vacation, &report.notice) {
        (VacationReport::None, None) => true,
        _ => false,
    }
}

/// A line for each text.
fn put_lines<W: Write>(output: &mut W, word: &[u8], texts: &[Octets]) -> Result<(), RunFault>
    ensures { IsTextPut result (W.contents output.old) (W.contents output.new)
        (flat_map ended_line (map (λ text. word.now ++ text) texts.now)) }
{
    for text in texts {
        put_line(output, word, text.as_slice())?;
    }
    Ok(())
}

/// The line on a vacation reply, if the script asked for one.
fn put_vacation<W: Write>(output: &mut W, vacation: VacationReport) -> Result<(), RunFault>
    ensures { IsTextPut result (W.contents output.old) (W.contents output.new) (flat_map ended_line (vacation_lines vacation)) }
{
    match vacation {
        VacationReport::None => Ok(()),
        VacationReport::Sent => put(output, b"vacation sent\n"),
        VacationReport::Quiet(reason) => {
            let mut buffer = Buffer::new();
            put_line(output, b"vacation quiet ", buffer.format(reason).as_bytes())
        }
    }
}

/// The line of a notice, if the user was left one.
fn put_notice<W: Write>(output: &mut W, notice: &Option<Octets>) -> Result<(), RunFault>
    ensures { IsTextPut result (W.contents output.old) (W.contents output.new) (flat_map ended_line (notice_lines notice.now)) }
{
    match notice {
        Some(notice) => put_line(output, b"notice ", notice.as_slice()),
        None => Ok(()),
    }
}
