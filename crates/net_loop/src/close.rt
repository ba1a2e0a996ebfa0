//! How connections end.
ghost use Rattle.std.specs.Prelude.{◌≡◌, ◌==◌, ◌<◌, not, filter, IsTrue};
ghost use Rattle.net_loop.specs.Moves.{LoopActs, loop_state};
ghost use Rattle.net_loop.specs.Turns.{Yields, MayEnd};
ghost use Rattle.net_loop.specs.declared.turn.Turn.TheVariants.{Free, Accepting, OutOfMemory};

use crate::act::Act;
use crate::machine::Machine;
use crate::outside::{Clock, Sockets};
use crate::service::Service;
use crate::turn::Turn;

/// It no longer waits.
pub fn forget(waiting: &mut Vec<u32>, id: u32)
    ensures { waiting.new.items ≡ filter (λ n. not (n == id)) waiting.old.items }
{
    waiting.retain(|other| *other != id);
}

/// Has a wait tell of it again.
pub fn again_once<O: Sockets + Clock, M: Machine<O>>(
    outside: &mut O,
    machine: &mut M,
    service: &mut Service,
    id: u32,
)
    requires { Yields M.rules machine.old service.old id }
    ensures { LoopActs O.told M.rules (loop_state outside.old machine.old service.old) (loop_state outside.new machine.new service.new) }
{
    outside.again(id);
    service.turn = Turn::Free;
}

/// Notes that memory was lacking for it.
pub fn full_once<O: Sockets + Clock, M: Machine<O>>(
    outside: &mut O,
    machine: &mut M,
    service: &mut Service,
    id: u32,
    kind: u32,
)
    requires { service.old.turn ≡ OutOfMemory id kind }
    ensures { LoopActs O.told M.rules (loop_state outside.old machine.old service.old) (loop_state outside.new machine.new service.new) }
{
    outside.note(Act::Full(id));
    service.turn = Turn::Leaving(id, kind);
}

/// Closes it, and offers its place.
pub fn end_once<O: Sockets + Clock, M: Machine<O>>(
    outside: &mut O,
    machine: &mut M,
    service: &mut Service,
    id: u32,
    kind: u32,
)
    requires { MayEnd M.rules machine.old service.old id kind }
    ensures { LoopActs O.told M.rules (loop_state outside.old machine.old service.old) (loop_state outside.new machine.new service.new) }
{
    outside.close(id);
    machine.close(service.moment, id);
    let _ = service.clients.remove(&id);
    forget(&mut service.waiting, id);
    service.turn = Turn::Accepting(kind, false);
}
