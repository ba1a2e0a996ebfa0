//! The run of flat code.
ghost use Rattle.std.specs.Prelude.{◌≡◌, ℕ, ◌<◌, ◌+◌, ◌-◌, ◌^◌, Option, Some, length, IfOk, OnOk};
ghost use Rattle.sieve_exec.specs.Truth.{truth_at};
ghost use Rattle.sieve_exec.specs.Sizes.{IsPaid};
ghost use Rattle.sieve_exec.specs.Work.{work_at};
ghost use Rattle.sieve_exec.specs.Runs.{run_state_of, failure_view, outcome_view, run_end_view, after_turn, MovesOn};
ghost use Rattle.sieve_syntax.specs.Meaning.{asking_at};
ghost use Rattle.sieve_code.specs.Instructions.{instr_view};
ghost use Rattle.sieve_code.specs.Jumps.{Ended, Broken, LeadsForward, Run, ends_within, instr_work, jumps, turn as turn_of};

use crate::cached_mail::CachedMail;
use crate::mail::Mail;
use crate::outcome::{Failure, Outcome};
use crate::run_state::RunState;
use crate::work::MAX_WORK;
use sieve_code::{Code, Instr};
use std::alloc::{AllocError, Global};

/// What an instruction leads to.
pub enum InstrOutcome {
    /// The run goes on at this place.
    Next(usize),
    /// The run is over.
    Stopped,
    /// The run failed.
    Failed(Failure),
}

/// What a run has looked at and done so far, with the flag that tests set.
#[derive(Drop)]
pub struct ScriptRun<'m, 'a> {
    cached: CachedMail<'m, 'a>,
    flag: bool,
    state: RunState,
    /// How much work the tests to come may take.
    left: u64,
}

/// How a run ends.
#[derive(Drop)]
pub enum RunEnd {
    /// At its last instruction or at a `stop`, before its implicit keep.
    Ended {
        /// What it and the runs before it have done.
        state: RunState,
        /// The work that it took.
        work: u64,
    },
    /// It failed (RFC 5228, 2.10.6).
    Failed(Failure),
}

/// Runs the code of a script on a mail (RFC 5228, 2.10 and 3): what [`run_from`] does where nothing has been done yet and the work is at
/// most [`MAX_WORK`], and the implicit keep.
///
/// # Errors
///
/// [`AllocError`] if an allocation failed.
pub fn run_code(alloc: Global, code: &Code<'_>, mail: &Mail<'_>) -> Result<Outcome, AllocError>
    ensures { IfOk result (λ done. Some (outcome_view done) ≡ jumps (asking_at (truth_at mail.now)) (work_at mail.now) code.now (length code.now)) }
{
    match run_from(alloc, code, mail, RunState::new(alloc), MAX_WORK)? {
        RunEnd::Ended { state, .. } => state.finish(alloc),
        RunEnd::Failed(why) => Ok(Outcome::Failed(why)),
    }
}

/// Runs the code of a script on a mail, up to its implicit keep (RFC 5228, 2.10 and 3); it begins with what has been done so far.
///
/// It takes at most as many steps as the code is long. A field's values are looked up and decoded once for each
/// name, however many tests ask for them. The work of a test is known before its values are compared; if the tests that are evaluated
/// would take more than `most` together, the run fails, and the test that would exceed it isn't evaluated.
///
/// # Errors
///
/// [`AllocError`] if an allocation failed.
pub fn run_from(
    alloc: Global,
    code: &Code<'_>,
    mail: &Mail<'_>,
    state: RunState,
    most: u64,
) -> Result<RunEnd, AllocError>
    ensures { IfOk result (λ end. Some (run_end_view end) ≡ ends_within (asking_at (truth_at mail.now)) (work_at mail.now) most code.now (run_state_of state)) }
{
    let instrs = code.instrs();
    let mut machine = ScriptRun {
        cached: CachedMail::new(alloc, mail),
        flag: false,
        state,
        left: most,
    };
    let mut place = 0;
    while place < instrs.len() {
        let instr = &instrs[place];
        let enough = machine.pay(alloc, instr)?;
        if !enough {
            return Ok(machine.fail(Failure::TooMuchWork));
        }
        match machine.turn(alloc, instr, place)? {
            InstrOutcome::Next(next) => place = next,
            InstrOutcome::Stopped => return Ok(machine.end(most)),
            InstrOutcome::Failed(failure) => return Ok(machine.fail(failure)),
        }
    }
    Ok(machine.end(most))
}

impl<'m, 'a> ScriptRun<'m, 'a> {
    /// A run is over; its tests could take so much work at most.
    fn end(self, most: u64) -> RunEnd
        ensures { run_end_view result ≡ Ended (run_state_of self.entry.state) (most - self.entry.left) }
    {
        RunEnd::Ended {
            state: self.state,
            work: most.saturating_sub(self.left),
        }
    }

    /// A run failed: nothing of what it did so far is carried out (RFC 5228, 2.10.6).
    fn fail(self, failure: Failure) -> RunEnd
        ensures { run_end_view result ≡ Broken (failure_view failure) }
    {
        RunEnd::Failed(failure)
    }

    /// Takes the work of an instruction from what is left, and returns whether there was enough.
    fn pay(&mut self, alloc: Global, instr: &Instr<'_>) -> Result<bool, AllocError>
        ensures paid { IfOk result (λ enough. IsPaid enough self.old.left (instr_work (work_at self.old.cached) (instr_view instr.now) (run_state_of self.old.state)) self.new.left) }
        ensures cached { OnOk result (self.new.cached ≡ self.old.cached) }
        ensures flag { OnOk result (self.new.flag ≡ self.old.flag) }
        ensures state { OnOk result (self.new.state ≡ self.old.state) }
    {
        if let Instr::Look(check) = instr {
            match self
                .cached
                .spend(alloc, check, &self.state.flags, self.left)?
            {
                Some(left) => self.left = left,
                None => return Ok(false),
            }
        }
        Ok(true)
    }

    /// One step: carries out the instruction at this place.
    fn turn(
        &mut self,
        alloc: Global,
        instr: &Instr<'_>,
        place: usize,
    ) -> Result<InstrOutcome, AllocError>
        requires { place + 1 < 2 ^ 64 }
        ensures turn { IfOk result (λ turn. (next : Run) →
            turn_of (asking_at (truth_at self.old.cached)) next (instr_view instr.now) place self.old.flag (run_state_of self.old.state)
            ≡ after_turn turn next self.new.flag (run_state_of self.new.state)) }
        ensures forward { IfOk result (λ turn. (len : ℕ) → LeadsForward place len (instr_view instr.now) → MovesOn place turn) }
        ensures kept { OnOk result (self.new.cached ≡ self.old.cached) }
        ensures left { OnOk result (self.new.left ≡ self.old.left) }
    {
        let next = place + 1;
        match instr {
            Instr::Set(value) => self.flag = *value,
            Instr::Look(check) => self.flag = self
                .cached
                .evaluate(alloc, check, &self.state.flags)?,
            Instr::Flip => self.flag = !self.flag,
            Instr::Jump(target) => return Ok(InstrOutcome::Next(*target)),
            Instr::JumpIf(target) => return Ok(InstrOutcome::Next(if self.flag {
                *target
            } else {
                next
            })),
            Instr::JumpUnless(target) => {
                return Ok(InstrOutcome::Next(if self.flag { next } else { *target }));
            }
            Instr::Act(action) => {
                if let Some(failure) = self.state.act(alloc, action)? {
                    return Ok(InstrOutcome::Failed(failure));
                }
            }
            Instr::Stop => return Ok(InstrOutcome::Stopped),
        }
        Ok(InstrOutcome::Next(next))
    }
}
