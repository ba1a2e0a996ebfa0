//! Trouble with a store, or in taking one, as it is reported on standard error.
ghost use Rattle.std.specs.Prelude.{◌≡◌, ◌≢◌, ◌++◌, false, Some, None, IsTrue, IfSome, option_copied};
ghost use Rattle.cli_run.specs.Faults.{cause_line, run_fault_line, status_of, store_failed};
ghost use Rattle.cli_run.specs.Streams.{IsWritten};

use crate::fault::RunFault;
use crate::stream::{write_all, write_line};
use std::alloc::AllocError;
use std::io::Write;
use store_accounts::Refusal;
use store_lock::Keeper;

/// A fault, and its cause as far as it is known.
#[derive(Clone, Copy)]
pub struct FaultWithCause {
    pub fault: RunFault,
    /// A text for a person, without a line end.
    pub cause: Option<&'static str>,
}

impl FaultWithCause {
    /// A fault of the store, with what its keeper knows of the cause.
    pub fn of_store<K: Keeper>(fault: RunFault, keeper: &K) -> FaultWithCause
        ensures fault { result.fault ≡ fault }
        ensures cause { fault ≡ store_failed → option_copied result.cause ≡ K.said keeper.now }
        ensures quiet { fault ≢ store_failed → option_copied result.cause ≡ None }
    {
        let cause = match fault {
            RunFault::Refused(Refusal::Store) => keeper.cause(),
            _ => None,
        };
        FaultWithCause { fault, cause }
    }

    /// Reports it on a line, and its cause, if known, on a second one. If a write fails, nothing more is written.
    pub fn tell<E: Write>(self, errors: &mut E)
        ensures { IsWritten (E.contents errors.old) (E.contents errors.new)
            (run_fault_line self.fault ++ cause_line (option_copied self.cause)) }
    {
        if write_all(errors, self.fault.line()).is_ok() {
            tell_cause(errors, self.cause);
        }
    }

    /// Reports it as [`FaultWithCause::tell`] does, and returns its exit status.
    pub fn refuse<E: Write>(self, errors: &mut E) -> u8
        ensures status { result ≡ status_of self.fault }
        ensures lines { IsWritten (E.contents errors.old) (E.contents errors.new)
            (run_fault_line self.fault ++ cause_line (option_copied self.cause)) }
    {
        self.tell(errors);
        self.fault.status()
    }
}

/// A fault of which no cause is known.
impl From<RunFault> for FaultWithCause {
    ghost use Rattle.std.specs.Prelude.{◌≡◌, None};

    ghost from_gives = { λ fault given. (given.fault ≡ fault) × (given.cause ≡ None) };

    fn from(fault: RunFault) -> FaultWithCause {
        FaultWithCause { fault, cause: None }
    }
}

/// Lack of memory.
impl From<AllocError> for FaultWithCause {
    ghost use Rattle.std.specs.Prelude.{◌≡◌, None};
    ghost use Rattle.cli_run.specs.Faults.{memory};

    ghost from_gives = { λ _ given. (given.fault ≡ memory) × (given.cause ≡ None) };

    fn from(refused: AllocError) -> FaultWithCause {
        FaultWithCause::from(RunFault::from(refused))
    }
}

/// The line on a cause.
fn tell_cause<E: Write>(errors: &mut E, cause: Option<&'static str>)
    ensures { IsWritten (E.contents errors.old) (E.contents errors.new) (cause_line (option_copied cause.entry)) }
{
    if let Some(text) = cause {
        let _ = write_line(errors, b"sieved: ", text.as_bytes());
    }
}

/// The first fault that a connection has with the store, which is reported once; later ones aren't.
#[derive(Clone, Copy)]
pub struct FirstFault {
    fault: Option<FaultWithCause>,
    is_told: bool,
}

impl FirstFault {
    /// None yet.
    pub fn none() -> FirstFault
        ensures none { result.fault ≡ None }
        ensures untold { result.is_told ≡ false }
    {
        FirstFault {
            fault: None,
            is_told: false,
        }
    }

    /// Keeps a fault if it is the first one.
    pub fn note(&mut self, fault: FaultWithCause)
        ensures first { self.old.fault ≡ None → self.new.fault ≡ Some fault }
        ensures later { IfSome self.old.fault (λ first. self.new.fault ≡ Some first) }
        ensures told { self.new.is_told ≡ self.old.is_told }
    {
        if self.fault.is_none() {
            self.fault = Some(fault);
        }
    }

    /// Reports it, if there is one that wasn't reported yet.
    pub fn tell<E: Write>(&mut self, errors: &mut E)
        ensures once { IsTrue self.old.is_told → E.contents errors.new ≡ E.contents errors.old }
        ensures none { self.old.fault ≡ None → E.contents errors.new ≡ E.contents errors.old }
        ensures tells { self.old.is_told ≡ false
            → IfSome self.old.fault (λ fault. IsWritten (E.contents errors.old) (E.contents errors.new)
            (run_fault_line fault.fault ++ cause_line (option_copied fault.cause))) }
        ensures same { self.new.fault ≡ self.old.fault }
        ensures told { IfSome self.old.fault (λ fault. IsTrue self.new.is_told) }
        ensures untold { self.old.fault ≡ None → self.new.is_told ≡ self.old.is_told }
    {
        if self.is_told {
            return;
        }
        if let Some(fault) = self.fault {
            fault.tell(errors);
            self.is_told = true;
        }
    }
}
