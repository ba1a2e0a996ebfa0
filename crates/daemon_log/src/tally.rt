//! What happened since the last line `status`, which is logged each minute.
ghost use Rattle.std.specs.Prelude.{IfOk, OnOk, ◌≡◌, true, codes};
ghost use Rattle.daemon_log.specs.Lines.{with_pairs, log_line_of};
ghost use Rattle.daemon_log.specs.Tallies.{mail_pairs, client_pairs, time_pairs, pairs_of, is_no_count};

use crate::log_line::{add_number, begin, end};
use crate::times::Times;
use octets::Octets;
use std::alloc::{AllocError, Global};

/// How often each event happened.
#[derive(Clone, Copy, Debug, PartialEq, Eq)]
pub struct EventCounts {
    /// Messages that were delivered, one for each recipient.
    pub delivered: u64,
    /// Messages that were refused, one for each recipient.
    pub refused: u64,
    /// Messages that were moved on.
    pub moved: u64,
    /// Logins that failed.
    pub logins_failed: u64,
    /// Commands of ManageSieve that were answered.
    pub commands: u64,
}

impl EventCounts {
    /// Nothing happened.
    pub fn none() -> EventCounts
        ensures { is_no_count result ≡ true }
    {
        EventCounts {
            delivered: 0,
            refused: 0,
            moved: 0,
            logins_failed: 0,
            commands: 0,
        }
    }

    /// Whether nothing happened.
    pub fn is_none(&self) -> bool
        ensures { result ≡ is_no_count self.now }
    {
        self.delivered == 0
            && self.refused == 0
            && self.moved == 0
            && self.logins_failed == 0
            && self.commands == 0
    }
}

/// What happened, and how long it took. Its size is constant, whatever happens.
#[derive(Drop)]
pub struct StatusTally {
    pub counts: EventCounts,
    pub times: Times,
}

impl StatusTally {
    /// Nothing happened.
    pub fn none() -> StatusTally
        ensures { is_no_count result.counts ≡ true }
    {
        StatusTally {
            counts: EventCounts::none(),
            times: Times::none(),
        }
    }
}

/// The line `status`: each count, and within how many microseconds half of the events that asked the store, and 99 of a hundred, were done.
///
/// # Errors
///
/// Lack of memory.
pub fn status_line(
    alloc: Global,
    counts: &EventCounts,
    half: u64,
    most: u64,
) -> Result<Octets, AllocError>
    ensures { IfOk result (λ line. line ≡ log_line_of (codes "status") (pairs_of counts.now half most)) }
{
    let mut line = begin(alloc, b"status")?;
    add_mail(&mut line, alloc, counts)?;
    add_clients(&mut line, alloc, counts)?;
    add_times(&mut line, alloc, half, most)?;
    end(line)
}

fn add_mail(line: &mut Octets, alloc: Global, counts: &EventCounts) -> Result<(), AllocError>
    ensures { OnOk result (line.new ≡ with_pairs line.old (mail_pairs counts.now)) }
{
    add_number(line, alloc, b"delivered", counts.delivered)?;
    add_number(line, alloc, b"refused", counts.refused)?;
    add_number(line, alloc, b"moved", counts.moved)
}

fn add_clients(line: &mut Octets, alloc: Global, counts: &EventCounts) -> Result<(), AllocError>
    ensures { OnOk result (line.new ≡ with_pairs line.old (client_pairs counts.now)) }
{
    add_number(line, alloc, b"logins_failed", counts.logins_failed)?;
    add_number(line, alloc, b"commands", counts.commands)
}

fn add_times(line: &mut Octets, alloc: Global, half: u64, most: u64) -> Result<(), AllocError>
    ensures { OnOk result (line.new ≡ with_pairs line.old (time_pairs half most)) }
{
    add_number(line, alloc, b"p50_us", half)?;
    add_number(line, alloc, b"p99_us", most)
}
