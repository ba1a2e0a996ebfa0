//! The lines of what scripts come to, or of a fault of the script.
ghost use Rattle.std.specs.Prelude.{◌≡◌, ◌++◌, [], cond, nat_eq, IfOk, OnOk};
ghost use Rattle.std.specs.List.{flat_map};
ghost use Rattle.std.specs.Cmp.Lexicographic.{pointwise};
ghost use Rattle.sieve_lex.specs.Faults.{fault_line};
ghost use Rattle.sieve_syntax.specs.RunState.{inbox, is_filed};
ghost use Rattle.sieve_plan.specs.Plans.{deeds_in};
ghost use Rattle.sieve_plan.specs.SequencePlans.{notice_of, settled_of};
ghost use Rattle.cli_reports.specs.Reports.{action_lines, ended_line, failure_lines, is_inbox_alone, mailbox_lines, reply_lines, settled_lines};
ghost use Rattle.cli_reports.specs.Reports.{settled_report, target_lines};

use crate::line::add_line;
use mail_address::{Addr, spell_address};
use mail_flags::Placement;
use octets::Octets;
use sieve_exec::INBOX;
use sieve_lex::ScriptFault;
use sieve_plan::{Deeds, FailureNotice, Settlement};
use std::alloc::{AllocError, Global};

/// The report on what scripts come to: a line for each mailbox, each address and the reply, in this order, and behind them one on
/// why a script failed, if one did; that line stands alone where nothing is done but that INBOX gets the message. `discard` if
/// there is none of these.
pub fn report_settlement(alloc: Global, settlement: &Settlement) -> Result<Octets, AllocError>
    ensures { IfOk result (λ text. text ≡ settled_report (settled_of settlement.now)) }
{
    let text = of_lines(alloc, settlement)?;
    if text.is_empty() {
        return Octets::from_slice(alloc, b"discard\n");
    }
    Ok(text)
}

/// The lines of what scripts come to.
fn of_lines(alloc: Global, settlement: &Settlement) -> Result<Octets, AllocError>
    ensures { IfOk result (λ text. text ≡ flat_map ended_line (settled_lines (settled_of settlement.now))) }
{
    let is_shown = settlement.notice.is_none() || !is_inbox_alone(&settlement.deeds);
    let mut text = of_deeds(alloc, &settlement.deeds, is_shown)?;
    add_failure(alloc, &mut text, settlement.notice)?;
    Ok(text)
}

/// Whether nothing is done but that INBOX gets the message.
fn is_inbox_alone(deeds: &Deeds) -> bool
    ensures { result ≡ is_inbox_alone (deeds_in deeds.now) }
{
    deeds.filed.len() == 1
        && is_filed_in_inbox(deeds.filed.as_slice())
        && deeds.sent.len() == 0
        && deeds.reply.is_none()
}

/// Whether INBOX is among the mailboxes.
fn is_filed_in_inbox(filed: &[Placement]) -> bool
    ensures { result ≡ is_filed filed.now inbox }
{
    filed.iter().any(|copy| is_in_inbox(copy))
}

fn is_in_inbox(copy: &Placement) -> bool
    ensures { result ≡ pointwise nat_eq copy.now.mailbox inbox }
{
    copy.mailbox.as_slice() == INBOX
}

/// The lines of what is done, if it is shown.
fn of_deeds(alloc: Global, deeds: &Deeds, is_shown: bool) -> Result<Octets, AllocError>
    ensures { IfOk result (λ text. text ≡ flat_map ended_line (cond is_shown (action_lines (deeds_in deeds.now)) [])) }
{
    let mut text = Octets::new(alloc);
    if is_shown {
        add_mailboxes(&mut text, deeds.filed.as_slice())?;
        add_targets(alloc, &mut text, deeds.sent.as_slice())?;
        add_answer(&mut text, deeds.reply.is_some())?;
    }
    Ok(text)
}

/// Appends the line of a vacation reply to the sender, if there is one.
fn add_answer(text: &mut Octets, answers: bool) -> Result<(), AllocError>
    ensures { OnOk result (text.new ≡ text.old ++ flat_map ended_line (reply_lines answers)) }
{
    if answers {
        text.extend_from_slice(b"vacation wanted\n")?;
    }
    Ok(())
}

/// Appends a line for each mailbox.
fn add_mailboxes(text: &mut Octets, filed: &[Placement]) -> Result<(), AllocError>
    ensures { OnOk result (text.new ≡ text.old ++ flat_map ended_line (mailbox_lines filed.now)) }
{
    for copy in filed {
        add_line(text, b"file ", copy.mailbox.as_slice())?;
    }
    Ok(())
}

/// Appends a line for each address that the message is sent to.
fn add_targets(alloc: Global, text: &mut Octets, sent: &[Addr]) -> Result<(), AllocError>
    ensures { OnOk result (text.new ≡ text.old ++ flat_map ended_line (target_lines sent.now)) }
{
    for target in sent {
        add_line(text, b"send ", spell_address(alloc, target)?.as_slice())?;
    }
    Ok(())
}

/// Appends the line on why a script failed, if one did: `failed: more than 16 redirects`.
fn add_failure(
    alloc: Global,
    text: &mut Octets,
    notice: Option<FailureNotice>,
) -> Result<(), AllocError>
    ensures { OnOk result (text.new ≡ text.old ++ flat_map ended_line (failure_lines (notice_of notice))) }
{
    match notice {
        Some(why) => add_line(text, b"failed: ", why.text(alloc)?.as_slice()),
        None => Ok(()),
    }
}

/// The line on a fault of the script: `line 3: unknown test`.
pub fn report_fault(alloc: Global, fault: ScriptFault) -> Result<Octets, AllocError>
    ensures { IfOk result (λ text. text ≡ ended_line (fault_line fault.line fault.kind)) }
{
    let mut text = fault.told(alloc)?;
    text.push(b'\n')?;
    Ok(text)
}
