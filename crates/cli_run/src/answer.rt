//! The answer to an input.
ghost use Rattle.std.specs.Prelude.{◌≡◌, ◌≤◌, ◌+◌, ℕ, List, IfOk, IfErr};
ghost use Rattle.sieve_lex.specs.Finding.{IfFault, IfFaultLine};
ghost use Rattle.sieve_lex.specs.Text.{line_ends};
ghost use Rattle.sieve_syntax.specs.Tree.{Commands};
ghost use Rattle.sieve_syntax.specs.Means.{Means};
ghost use Rattle.sieve_plan.specs.SequencePlans.{settled_of};
ghost use Rattle.store_accounts.specs.Cells.{borrowed_octets};
ghost use Rattle.store_engine.specs.Attempts.{IsValidOrNone, SettlesUnderTerms};
ghost use Rattle.store_engine.specs.Terms.{terms_of};
ghost use Rattle.cli_reports.specs.Reports.{settled_report};
ghost use Rattle.cli_run.specs.declared.answer.TryAnswer.TheVariants.{Report};
ghost use Rattle.cli_run.specs.Faults.{memory};
ghost use Rattle.cli_run.specs.Framing.{IsFramed};
ghost use Rattle.cli_run.specs.KeptInputs.{IsMessagePrefix};
ghost use Rattle.cli_run.specs.TryScript.{AnswersInput, AnswersKept, LeavesUnanswered, answer_text, own_script};

use crate::fault::RunFault;
use crate::framing::split;
use crate::kept_input::KeptInput;
use cli_reports::{report_fault, report_settlement};
use mail_head::SizeCount;
use octets::Octets;
use sieve_lex::ScriptError;
use std::alloc::Global;
use store_accounts::Refusal;
use store_engine::{Envelope, LentTerms, Settlement, attempt, attempt_on_prefix};

/// The answer to an input that is a script and a message.
#[derive(Drop)]
pub enum TryAnswer {
    /// The report on what the script does.
    Report(Octets),
    /// The line on why the script is not valid.
    Refusal(Octets),
}

impl TryAnswer {
    /// The text that is printed.
    pub fn text(&self) -> &[u8]
        ensures { result.now ≡ answer_text self.now }
    {
        match self {
            TryAnswer::Report(text) | TryAnswer::Refusal(text) => text.as_slice(),
        }
    }
}

/// Tries the script of an input on its message, received with the envelope and delivered under these terms.
pub fn answer_to(
    alloc: Global,
    envelope: Envelope,
    terms: LentTerms<'_>,
    input: &KeptInput,
) -> Result<TryAnswer, RunFault>
    ensures answer { IfOk result (AnswersKept envelope (terms_of terms.entry) input.now.octets.items input.now.count) }
    ensures none { IfErr result (LeavesUnanswered input.now.octets.items input.now.count) }
{
    match split(input.kept()) {
        Some(framed) => answer_on(
            alloc,
            envelope,
            terms,
            framed.script,
            framed.message,
            input.count(),
        ),
        None => Err(RunFault::BadInput),
    }
}

/// Tries a script on a message, of which this is a prefix that decides, received with the envelope and delivered under these
/// terms.
fn answer_on(
    alloc: Global,
    envelope: Envelope,
    terms: LentTerms<'_>,
    script: &[u8],
    front: &[u8],
    count: Option<SizeCount>,
) -> Result<TryAnswer, RunFault>
    ensures answer { IfOk result (λ answer. (input message : List ℕ) → IsFramed input script.now message
        → IsMessagePrefix front.now count message → AnswersInput envelope (terms_of terms.entry) input answer) }
    ensures memory { IfErr result (λ fault. fault ≡ memory) }
{
    match settle_on(alloc, script, envelope, front, count, terms) {
        Ok(settlement) => report(alloc, &settlement),
        Err(ScriptError::Fault(fault)) => Ok(TryAnswer::Refusal(report_fault(alloc, fault)?)),
        Err(ScriptError::Memory) => Err(RunFault::Refused(Refusal::Memory)),
    }
}

/// What a script and the host's come to on a message, of which this is a prefix that decides, or why it is no valid script.
fn settle_on(
    alloc: Global,
    script: &[u8],
    envelope: Envelope,
    front: &[u8],
    count: Option<SizeCount>,
    terms: LentTerms<'_>,
) -> Result<Settlement, ScriptError>
    ensures valid { IfOk result (λ done. IsValidOrNone (own_script script.now)) }
    ensures done { IfOk result (λ done. (message : List ℕ) → IsMessagePrefix front.now count message
        → SettlesUnderTerms (terms_of terms.entry) envelope (own_script script.now) message (settled_of done)) }
    ensures fault { IfFault result ((tree : Commands) → Means script.now tree → ⊥) }
    ensures line { IfFaultLine result (λ line. (1 ≤ line) × (line ≤ 1 + line_ends script.now)) }
{
    let own = own_of(script);
    match count {
        Some(count) => attempt_on_prefix(alloc, own, envelope, front, count.size(), terms),
        None => attempt(alloc, own, envelope, front, terms),
    }
}

/// The user's script: none if its length is 0.
fn own_of(script: &[u8]) -> Option<&[u8]>
    ensures { borrowed_octets result ≡ own_script script.now }
{
    if script.is_empty() {
        return None;
    }
    Some(script)
}

/// The report on what scripts come to.
fn report(alloc: Global, settlement: &Settlement) -> Result<TryAnswer, RunFault>
    ensures report { IfOk result (λ answer. answer ≡ Report (settled_report (settled_of settlement.now))) }
    ensures memory { IfErr result (λ fault. fault ≡ memory) }
{
    Ok(TryAnswer::Report(report_settlement(alloc, settlement)?))
}
