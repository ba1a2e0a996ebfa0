//! What the daemon does by itself: it looks whether somebody waits for the store, and has mail move on.
ghost use Rattle.std.specs.Prelude.{◌≡◌, true, IsTrue};
ghost use Rattle.net_loop.specs.Rules.{WorksIf, machine_state};
ghost use Rattle.net_loop.specs.Told.{ToldBefore};
ghost use Rattle.daemon_core.specs.DaemonRules.{daemon_rules};
ghost use Rattle.daemon_core.specs.Holds as rules;

use crate::daemon::{Daemon, Holding};
use crate::store_access::StoreAccess;
use maildir_moves::MovePause;

/// How many milliseconds pass from one look whether somebody waits for the store to the next.
const LOOK_SPAN: u64 = 20;

/// After how many milliseconds without an event that asked it the store is given back.
const MAX_REST: u64 = 10000;

/// How many milliseconds without an event that asked it, from the look behind the last one, are a rest in which messages move on. Whoever
/// sends one message behind the other sends the next one sooner.
const LULL_SPAN: u64 = 2;

/// After how many events that asked the store a batch of messages moves on, even if there are more of them.
pub(crate) const MAX_EVENTS: u64 = 10;

/// How many milliseconds later it is looked for mail again, if somebody waited for the store, or it wasn't available.
const AGAIN_SPAN: u64 = 50;

/// And how many if it was given back since nobody asked it.
const LONG_SPAN: u64 = 60000;

/// Whether the daemon has something to do by itself.
pub fn has_work(daemon: &Daemon, now: u64) -> bool
    ensures { result ≡ rules.has_work daemon.now.holding now }
{
    is_look_due(&daemon.holding, now) || is_move_due(&daemon.holding, now)
}

/// Whether it is to be looked whether somebody waits for the store.
fn is_look_due(holding: &Holding, now: u64) -> bool
    ensures { result ≡ rules.is_look_due holding.now now }
{
    holding.is_held && holding.look <= now
}

/// Whether a message is to move on: after ten events, after the last message if no event came since, and if nobody asked the
/// store for a while.
pub fn is_move_due(holding: &Holding, now: u64) -> bool
    ensures { result ≡ rules.is_move_due holding.now now }
{
    holding.moves && holding.next <= now && is_turn(holding, now)
}

/// Whether the store isn't held, or since its last event the daemon looked whether another process waits for it, which then comes first.
fn is_looked(holding: &Holding) -> bool {
    !holding.is_held || holding.asked < holding.look
}

fn is_turn(holding: &Holding, now: u64) -> bool
    ensures { result ≡ rules.is_turn holding.now now }
{
    holding.events == 0 || MAX_EVENTS <= holding.events || is_lull(holding, now)
}

/// Whether the store isn't held, or nobody asked it for a while since it was looked, behind the last event, whether somebody waits.
fn is_lull(holding: &Holding, now: u64) -> bool
    ensures { result ≡ rules.is_lull holding.now now }
{
    !holding.is_held
        || (holding.asked < holding.look
            && holding.look.wrapping_add(LULL_SPAN) <= now.wrapping_add(LOOK_SPAN))
}

/// Does something by itself.
pub fn work_by<O: StoreAccess>(daemon: &mut Daemon, outside: &mut O, now: u64)
    ensures kept { ToldBefore O.told outside.old outside.new }
    ensures works { WorksIf O.told (daemon_rules O.store.view) (machine_state outside.old daemon.old) now (machine_state outside.new daemon.new) }
{
    if is_move_due(&daemon.holding, now) && is_looked(&daemon.holding) {
        move_next(daemon, outside, now)
    } else {
        look_for_others(daemon, outside, now)
    }
}

/// Looks whether somebody waits for the store.
fn look_for_others<O: StoreAccess>(daemon: &mut Daemon, outside: &mut O, now: u64)
    ensures kept { ToldBefore O.told outside.old outside.new }
    ensures works { WorksIf O.told (daemon_rules O.store.view) (machine_state outside.old daemon.old) now (machine_state outside.new daemon.new) }
{
    let rests = daemon.holding.asked.wrapping_add(MAX_REST) <= now;
    let gives = outside.look(rests);
    daemon.holding = looked(daemon.holding, now, rests, gives);
}

/// What is known of the store after a look.
fn looked(holding: Holding, now: u64, rests: bool, gives: bool) -> Holding
    ensures { result ≡ rules.holding_looked holding now rests gives }
{
    if !gives {
        return Holding {
            is_held: holding.is_held,
            look: now.wrapping_add(LOOK_SPAN),
            asked: holding.asked,
            moves: holding.moves,
            next: holding.next,
            soon: holding.soon,
            events: holding.events,
        };
    }
    Holding {
        is_held: false,
        look: holding.look,
        asked: holding.asked,
        moves: holding.moves,
        next: now.wrapping_add(span_behind(rests)),
        soon: !rests,
        events: holding.events,
    }
}

fn span_behind(rests: bool) -> u64
    ensures { result ≡ rules.look_span_by rests }
{
    if rests { LONG_SPAN } else { AGAIN_SPAN }
}

/// How many events are counted behind a step of a move: as many as let the next step of its batch follow, whatever comes between.
fn events_behind(goes_on: bool) -> u64
    ensures { result ≡ rules.events_behind goes_on }
{
    if goes_on { MAX_EVENTS } else { 0 }
}

/// Has messages move on, by one step.
fn move_next<O: StoreAccess>(daemon: &mut Daemon, outside: &mut O, now: u64)
    requires { rules.is_move_due daemon.old.holding now ≡ true }
    ensures kept { ToldBefore O.told outside.old outside.new }
    ensures works { WorksIf O.told (daemon_rules O.store.view) (machine_state outside.old daemon.old) now (machine_state outside.new daemon.new) }
{
    let fresh = daemon.holding.events != 0;
    let pause = outside.move_next(&mut daemon.clients, now, fresh);
    daemon.holding = moved(daemon.holding, now, pause);
}

/// What is known of the store after a message was to move on: for how long none is to; none if the store wasn't available.
fn moved(holding: Holding, now: u64, pause: Option<MovePause>) -> Holding
    ensures { result ≡ rules.holding_moved holding now pause }
{
    match pause {
        Some(pause) => Holding {
            is_held: true,
            look: now,
            asked: now,
            moves: holding.moves,
            next: now.wrapping_add(pause.span),
            soon: false,
            events: events_behind(pause.goes_on),
        },
        None => Holding {
            is_held: holding.is_held,
            look: holding.look,
            asked: holding.asked,
            moves: holding.moves,
            next: now.wrapping_add(AGAIN_SPAN),
            soon: true,
            events: holding.events,
        },
    }
}
