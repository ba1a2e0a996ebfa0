//! The report on a delivery, in one line.
ghost use Rattle.std.specs.Prelude.{◌≡◌, ◌⊎◌, ◌-◌, [], ◌++◌, codes, decimal, length, map, take, IfOk, OnOk};
ghost use Rattle.std.specs.List.{flat_map};
ghost use Rattle.cli_reports.specs.Reports.{delivery_lines, delivery_report, file_line, send_line, notice_lines, vacation_lines, ended_line};
ghost use Rattle.daemon_core.specs.LmtpSteps as lmtp_steps;

use octets::{Octets, write_decimal};
use std::alloc::{AllocError, Global};
use store_engine::{Report, VacationReport};

/// What is told of a delivery: its report, or nothing if memory is lacking for that. Linear in the report.
pub fn line_of_report(alloc: Global, report: &Report) -> Octets
    ensures { (result ≡ lmtp_steps.one_line (delivery_report report.now)) ⊎ (result ≡ []) }
{
    match of_report(alloc, report) {
        Ok(lines) => match one_line(alloc, lines.as_slice()) {
            Ok(line) => line,
            Err(AllocError) => Octets::new(alloc),
        },
        Err(AllocError) => Octets::new(alloc),
    }
}

// The lines of a report as one line, with a comma between two.
fn one_line(alloc: Global, lines: &[u8]) -> Result<Octets, AllocError>
    ensures { IfOk result (λ line. line ≡ lmtp_steps.one_line lines.now) }
{
    let mut line = Octets::new(alloc);
    let rest = without_last(lines);
    for octet in rest {
        add_joined(&mut line, *octet)?;
    }
    Ok(line)
}

fn without_last(lines: &[u8]) -> &[u8]
    ensures { result.now ≡ take (length lines.now - 1) lines.now }
{
    match lines.split_last() {
        Some((_, rest)) => rest,
        None => lines,
    }
}

fn add_joined(line: &mut Octets, octet: u8) -> Result<(), AllocError>
    ensures { OnOk result (line.new ≡ line.old ++ lmtp_steps.joined_octet octet) }
{
    if octet == b'\n' {
        line.extend_from_slice(b", ")
    } else {
        line.push(octet)
    }
}

// The report: a line for each folder that the message joined, for each address that it goes on to, on a vacation reply and of a
// notice, in this order, or `discard` if there is none.
fn of_report(alloc: Global, report: &Report) -> Result<Octets, AllocError>
    ensures { IfOk result (λ text. text ≡ delivery_report report.now) }
{
    let text = of_delivery(alloc, report)?;
    if text.is_empty() {
        return Octets::from_slice(alloc, b"discard\n");
    }
    Ok(text)
}

fn of_delivery(alloc: Global, report: &Report) -> Result<Octets, AllocError>
    ensures { IfOk result (λ text. text ≡ flat_map ended_line (delivery_lines report.now)) }
{
    let mut text = Octets::new(alloc);
    add_mailboxes(&mut text, report.filed.as_slice())?;
    add_addresses(&mut text, report.sent.as_slice())?;
    add_vacation(&mut text, report.vacation)?;
    add_notice(&mut text, &report.notice)?;
    Ok(text)
}

fn add_mailboxes(text: &mut Octets, filed: &[Octets]) -> Result<(), AllocError>
    ensures { OnOk result (text.new ≡ text.old ++ flat_map ended_line (map file_line filed.now)) }
{
    for mailbox in filed {
        add_line(text, b"file ", mailbox.as_slice())?;
    }
    Ok(())
}

fn add_addresses(text: &mut Octets, sent: &[Octets]) -> Result<(), AllocError>
    ensures { OnOk result (text.new ≡ text.old ++ flat_map ended_line (map send_line sent.now)) }
{
    for target in sent {
        add_line(text, b"send ", target.as_slice())?;
    }
    Ok(())
}

fn add_vacation(text: &mut Octets, vacation: VacationReport) -> Result<(), AllocError>
    ensures { OnOk result (text.new ≡ text.old ++ flat_map ended_line (vacation_lines vacation)) }
{
    match vacation {
        VacationReport::None => Ok(()),
        VacationReport::Sent => text.extend_from_slice(b"vacation sent\n"),
        VacationReport::Quiet(reason) => add_reason(text, reason),
    }
}

// The line on the rule that forbade a vacation reply.
fn add_reason(text: &mut Octets, reason: u8) -> Result<(), AllocError>
    ensures { OnOk result (text.new ≡ text.old ++ ended_line (codes "vacation quiet " ++ decimal reason)) }
{
    text.extend_from_slice(b"vacation quiet ")?;
    write_decimal(text, reason as u64)?;
    text.push(b'\n')
}

fn add_notice(text: &mut Octets, notice: &Option<Octets>) -> Result<(), AllocError>
    ensures { OnOk result (text.new ≡ text.old ++ flat_map ended_line (notice_lines notice.now)) }
{
    match notice {
        Some(notice) => add_line(text, b"notice ", notice.as_slice()),
        None => Ok(()),
    }
}

// A word and what it is about, as a line.
fn add_line(text: &mut Octets, word: &[u8], what: &[u8]) -> Result<(), AllocError>
    ensures { OnOk result (text.new ≡ text.old ++ ended_line (word.now ++ what.now)) }
{
    text.extend_from_slice(word)?;
    text.extend_from_slice(what)?;
    text.push(b'\n')
}
