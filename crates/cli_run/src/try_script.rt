//! Tries one script on one message.
ghost use Rattle.std.specs.Prelude.{◌≡◌, IfErr, IfOk, OnOk};
ghost use Rattle.store_engine.specs.Terms.{terms_of};
ghost use Rattle.cli_run.specs.Streams.{ReadsToEnd};
ghost use Rattle.cli_run.specs.TryScript.{AnswersInput, HasNoAnswer, LeavesOutput, OfInput, RunsTry};
ghost use Rattle.cli_run.specs.Transitions.{across};

use crate::answer::{TryAnswer, answer_to};
use crate::fault::{RunFault, refuse};
use crate::kept_input::KeptInput;
use crate::stream::write_all;
use std::alloc::Global;
use std::io::{Read, Write};
use store_engine::{Envelope, LentTerms};

/// Reads a script and a message from the input, and prints on the output what the script and the host's do with the message under
/// the envelope, if it is delivered under these terms. A script of the length 0 says that the user has no active one. What goes
/// wrong is reported on the errors. Returns the exit status.
///
/// The body of a large message is counted and not kept. Reads at most 40,000,000 times.
pub fn try_run<R: Read, W: Write, E: Write>(
    alloc: Global,
    envelope: Envelope,
    terms: LentTerms<'_>,
    input: &mut R,
    output: &mut W,
    errors: &mut E,
) -> u8
    ensures reads { result ≡ 0 → ReadsToEnd R.remaining input.old input.new }
    ensures runs { RunsTry envelope (terms_of terms.entry) (R.remaining input.old) (across W.contents output.old output.new)
        (across E.contents errors.old errors.new) result }
{
    match print_answer(alloc, envelope, terms, input, output) {
        Ok(TryAnswer::Report(_)) => 0,
        Ok(TryAnswer::Refusal(_)) => 65,
        Err(fault) => refuse(errors, fault),
    }
}

fn print_answer<R: Read, W: Write>(
    alloc: Global,
    envelope: Envelope,
    terms: LentTerms<'_>,
    input: &mut R,
    output: &mut W,
) -> Result<TryAnswer, RunFault>
    ensures reads { OnOk result (ReadsToEnd R.remaining input.old input.new) }
    ensures leaves { LeavesOutput envelope (terms_of terms.entry) (R.remaining input.old) (W.contents output.old)
        (W.contents output.new) result }
{
    let answer = answer_of(alloc, envelope, terms, input)?;
    write_all(output, answer.text())?;
    Ok(answer)
}

/// The answer to an input.
fn answer_of<R: Read>(
    alloc: Global,
    envelope: Envelope,
    terms: LentTerms<'_>,
    input: &mut R,
) -> Result<TryAnswer, RunFault>
    ensures answer { IfOk result
        (λ answer. OfInput (R.remaining input.old) (λ came. AnswersInput envelope (terms_of terms.entry) came answer)) }
    ensures none { IfErr result (HasNoAnswer (R.remaining input.old)) }
    ensures reads { OnOk result (ReadsToEnd R.remaining input.old input.new) }
{
    let front = KeptInput::read(alloc, input)?;
    answer_to(alloc, envelope, terms, &front)
}
