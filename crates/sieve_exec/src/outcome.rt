//! The outcome of a script.
use mail_address::Addr;
use mail_flags::Placement;
use octets::List;
use sieve_syntax::VacationArgs;

/// The outcome of a script on a message.
#[derive(Drop)]
pub enum Outcome {
    /// The script was run to its end or to a `stop`.
    Done {
        /// The mailboxes that the message goes into, each once, in the order of the first command that says so, with the
        /// flags that the last one gives the copy; the implicit keep comes last (RFC 5228, 2.10.2 and 2.10.3; RFC 5232, 5).
        filed: List<Placement>,
        /// The addresses that the message is sent to, each once, in the order of the first command that says so.
        sent: List<Addr>,
        /// The arguments of the `vacation` that was executed, if one was (RFC 5230).
        reply: Option<VacationArgs>,
    },
    /// A run-time error: no action of the script is carried out (RFC 5228, 2.10.6).
    Failed(Failure),
}

/// Why a run fails.
#[derive(Clone, Copy, Debug, PartialEq, Eq)]
pub enum Failure {
    /// A second `vacation` was executed (RFC 5230, 4.7).
    TwoVacations,
    /// The message was to be sent to a seventeenth address.
    TooManyRedirects,
    /// The message was to go into a hundred and first mailbox, perhaps by the implicit keep.
    TooManyMailboxes,
    /// The tests that were evaluated take more work than a run may.
    TooMuchWork,
}
