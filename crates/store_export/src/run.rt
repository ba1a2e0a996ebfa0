//! Runs of copies of one message.
ghost use Rattle.std.specs.Prelude.{◌≡◌};

/// Consecutive copies of one message, in the order of their numbers.
#[derive(Clone, Copy)]
pub(crate) struct Run {
    /// The number of their message.
    pub(crate) id: u64,
    /// The number of the first of them.
    pub(crate) first: u64,
}

impl Run {
    ghost use Rattle.store_export.specs.Parts.{continues_run, run_with};

    /// Whether a copy of the message with this number continues the run.
    pub(crate) fn goes_on(run: Option<Run>, id: u64) -> bool
        ensures { result ≡ continues_run run id }
    {
        match run {
            Some(run) => id == run.id,
            None => false,
        }
    }

    /// The run after one more copy, given the copy's number and its message's.
    pub(crate) fn with(run: Option<Run>, n: u64, id: u64) -> Run
        ensures { result ≡ run_with run n id }
    {
        match run {
            Some(run) if id == run.id => run,
            _ => Run { id, first: n },
        }
    }
}
