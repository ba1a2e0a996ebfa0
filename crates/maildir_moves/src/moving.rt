//! What became of mail that is to move on.
ghost use Rattle.std.specs.Prelude.{◌≡◌};
ghost use Rattle.maildir_moves.specs.Moving as moving;

use crate::batch::MailBatch;
use maildir_files::SinkError;
use octets::Octets;
use store_accounts::Refusal;
use store_engine::Answer;

/// What became of mail that was to move on.
#[derive(Drop)]
pub enum Moving {
    /// Every folder that has a message rests.
    Nothing,
    /// A folder is passed over, the round over all folders begins anew, or messages that the sink keeps are no longer in their
    /// folder.
    Passed,
    /// Nothing was tried: it couldn't be found out which folder is next, or there is no memory for taking messages out.
    Failed(Refusal),
    /// The first messages of a folder stay there, and it rests now.
    Stays(Stay),
    /// A batch was begun, or one of its messages was put: no account changed, and the next step is due.
    Went,
    /// The sink keeps these messages, and then the events that take them out of their folder, one for each, were answered so, all
    /// in one act.
    Kept(MailBatch, Answer),
}

/// A folder whose first messages stay where they are.
#[derive(Drop)]
pub struct Stay {
    pub user: Octets,
    pub folder: Octets,
    pub why: StayReason,
    /// Its folder hadn't failed since its last success.
    pub is_first: bool,
}

/// Why messages stay in their folder.
#[derive(Clone, Copy, Debug, PartialEq, Eq)]
pub enum StayReason {
    /// No directory can have the user's name.
    Name,
    /// The folder has no message any more.
    Gone,
    /// They couldn't be read.
    Store(Refusal),
    /// The sink doesn't keep them for sure.
    Sink(SinkError),
}

/// When the next call is due.
#[derive(Clone, Copy, Debug, PartialEq, Eq)]
pub struct MovePause {
    /// For how many milliseconds nothing else is to move.
    pub span: u64,
    /// A batch is on its way: the next step is due as soon as others had their turns.
    pub goes_on: bool,
}

/// When the next call is due after one. After a failure some time passes, so that nothing spins even if a rest couldn't be noted.
pub fn pause_behind(outcome: &Moving) -> MovePause
    ensures { result ≡ moving.pause_behind outcome.now }
{
    let span = match outcome {
        Moving::Nothing => 60000,
        Moving::Passed => 0,
        Moving::Failed(_) => 1000,
        Moving::Stays(_) => 100,
        Moving::Went => 0,
        Moving::Kept(_, Answer::Refused(_)) => 100,
        Moving::Kept(_, _) => 0,
    };
    MovePause {
        span,
        goes_on: matches!(outcome, Moving::Went),
    }
}
