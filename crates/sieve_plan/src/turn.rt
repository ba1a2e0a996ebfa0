//! A script of a sequence, in its turn.
ghost use Rattle.std.specs.Prelude.{◌≡◌, ◌<◌, ◌^◌, ℕ, List, IfOk};
ghost use Rattle.sieve_syntax.specs.Means.{Means};
ghost use Rattle.sieve_syntax.specs.View.{script_tree};
ghost use Rattle.sieve_plan.specs.Sequences.{at_beginning, host_work_behind as host_work_behind_of, work_limit as work_limit_of};
ghost use Rattle.sieve_plan.specs.Turns.{TakesScriptTurn, script_in, sequence_state_of};

use crate::deeds::Deeds;
use crate::handover::{Handover, ScriptEnd};
use crate::kept::{FoundScript, KeptScripts};
use crate::notice::NoticeCause;
use crate::scripts::{SequenceScript, Whose};
use sieve_code::compile;
use sieve_exec::{MAX_WORK, Mail, RunEnd, run_from};
use sieve_lex::ScriptError;
use sieve_syntax::Script;
use std::alloc::{AllocError, Global};

/// How much work the host's scripts may take among them all: a quarter of what a run may, so that a delivery takes little longer with them.
const MAX_HOST_WORK: u64 = 50_000_000;

/// How far a sequence has come.
#[derive(Drop)]
pub struct SequenceState {
    pub left: Handover,
    /// How much work the host's scripts took.
    pub host_work: u64,
}

/// What a script's turn comes to.
#[derive(Drop)]
pub enum TurnEnd {
    /// It ran to its end, and the sequence has come so far.
    Ended(SequenceState),
    /// It failed: this is done by those before it.
    Failed(Deeds, NoticeCause),
}

impl SequenceState {
    /// Before the first script.
    pub(crate) fn first(alloc: Global) -> Result<SequenceState, AllocError>
        ensures { IfOk result (λ state. sequence_state_of state ≡ at_beginning) }
    {
        Ok(SequenceState {
            left: Handover::first(alloc)?,
            host_work: 0,
        })
    }
}

/// Compiles and runs a script where a sequence has come so far. It is checked first, unless it is kept.
pub(crate) fn take_turn(
    alloc: Global,
    kept: &mut KeptScripts,
    script: &SequenceScript<'_>,
    mail: &Mail<'_>,
    state: SequenceState,
) -> Result<TurnEnd, AllocError>
    ensures { IfOk result (TakesScriptTurn mail.now (script_in script.now) (sequence_state_of state)) }
{
    match kept.find_or_check(alloc, script.text) {
        Ok(FoundScript::Kept(place)) => {
            run_script(alloc, script.whose, kept.script_at(place), mail, state)
        }
        Ok(FoundScript::Checked(checked)) => {
            run_script(alloc, script.whose, &checked, mail, state)
        }
        Err(ScriptError::Fault(_)) => {
            let SequenceState { left, .. } = state;
            let Handover { stands, .. } = left;
            Ok(TurnEnd::Failed(stands.done, NoticeCause::Invalid))
        }
        Err(ScriptError::Memory) => Err(AllocError),
    }
}

/// Compiles and runs a script where a sequence has come so far.
fn run_script(
    alloc: Global,
    whose: Whose,
    script: &Script,
    mail: &Mail<'_>,
    state: SequenceState,
) -> Result<TurnEnd, AllocError>
    ensures { IfOk result (λ turn. (text : List ℕ) → Means text (script_tree script.now) → TakesScriptTurn mail.now (record { whose = whose; text = text }) (sequence_state_of state) turn) }
{
    let code = compile(alloc, script)?;
    let SequenceState { left, host_work } = state;
    let most = work_limit(whose, host_work);
    let Handover { stands, flags, .. } = left;
    let begun = stands.begin(alloc, flags)?;
    match run_from(alloc, &code, mail, begun, most)? {
        RunEnd::Failed(failure) => Ok(TurnEnd::Failed(stands.done, NoticeCause::Failed(failure))),
        RunEnd::Ended {
            state: at_end,
            work,
        } => match stands.end(alloc, at_end)? {
            ScriptEnd::Failed(done, failure) => Ok(TurnEnd::Failed(
                done,
                NoticeCause::Failed(failure),
            )),
            ScriptEnd::Ended(left) => Ok(TurnEnd::Ended(SequenceState {
                left,
                host_work: host_work_behind(whose, work, host_work),
            })),
        },
    }
}

/// How much work a script may take where the host's took so much: the user's has a run's limit for itself.
fn work_limit(whose: Whose, host_work: u64) -> u64
    ensures { result ≡ work_limit_of whose host_work }
{
    match whose {
        Whose::Own => MAX_WORK,
        Whose::Before | Whose::After => MAX_HOST_WORK.saturating_sub(host_work),
    }
}

/// How much work the host's scripts took behind one that took so much.
fn host_work_behind(whose: Whose, work: u64, host_work: u64) -> u64
    requires { host_work_behind_of whose work host_work < 2 ^ 64 }
    ensures { result ≡ host_work_behind_of whose work host_work }
{
    match whose {
        Whose::Own => host_work,
        Whose::Before | Whose::After => host_work + work,
    }
}
