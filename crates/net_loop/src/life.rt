//! A life of the loop.
ghost use Rattle.std.specs.Prelude.{IsTrue, OnOk, OnErr};
ghost use Rattle.net_loop.specs.Life.{AddsIf, LivesIf};
ghost use Rattle.net_loop.specs.Moves.{loop_state};
ghost use Rattle.net_loop.specs.Told.{ToldBefore};

use crate::machine::Machine;
use crate::outcome::WaitError;
use crate::outside::{Clock, Sockets};
use crate::service::{Service, act};

/// Serves connections for exactly this many acts.
///
/// # Errors
///
/// If a wait failed.
pub fn serve<O: Sockets + Clock, M: Machine<O>>(
    outside: &mut O,
    machine: &mut M,
    service: &mut Service,
    acts: u64,
) -> Result<(), WaitError>
    ensures kept { ToldBefore O.told outside.old outside.new }
    ensures passed { OnOk result (AddsIf O.told outside.old acts outside.new) }
    ensures lives { LivesIf O.told M.rules (loop_state outside.old machine.old service.old) (loop_state outside.new machine.new service.new) }
    ensures broke { OnErr result (IsTrue (O.broken outside.new)) }
{
    for round in 0..acts {
        act(outside, machine, service)?;
    }
    Ok(())
}
