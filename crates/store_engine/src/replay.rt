//! Events in order.
ghost use Rattle.std.specs.Prelude.{◌≡◌, ◌↔◌, IsTrue, length};
ghost use Rattle.sqlite.specs.Held.{state};
ghost use Rattle.store_engine.specs.Hosts.{answered_events, host_of, IsHostRun, IsRunAlone, IsRunSpaced, SurvivesRun};
ghost use Rattle.store_engine.specs.Sound.{KeepsSound};

use crate::answer::Answer;
use crate::event::Event;
use crate::machine::{World, apply};
use sqlite::Alter;

/// The result of a list of events.
#[derive(Drop)]
pub struct RunAnswers {
    /// The answers to the first events, in their order: one for each event that was carried out or refused.
    pub answers: Vec<Answer>,
    /// Whether all events were answered. If not, there was no memory for the next answer.
    pub whole: bool,
}

/// Carries out the events one after the other.
///
/// The place of an answer is reserved before its event, and so is the text of an answer whose event may not be refused for
/// memory: if there is no memory for it, the run ends before that event, and `whole` is false. An event that is refused
/// changes nothing that is seen, and the next one follows. Events are borrowed, and a message is not copied. Memory besides
/// that of the events themselves is in proportion to their number and to what the sessions hold.
pub fn run<S: Alter>(world: &mut World<S>, events: &[Event]) -> RunAnswers
    ensures runs { IsHostRun (answered_events events.now result.answers.items) result.answers.items (host_of S.Store world.old) (host_of S.Store world.new) }
    ensures whole { IsTrue result.whole ↔ (length result.answers.items ≡ length events.now) }
    ensures sound { KeepsSound (state S.Store world.old.store) (state S.Store world.new.store) }
    ensures alone { IsRunAlone (answered_events events.now result.answers.items) result.answers.items (host_of S.Store world.old) (host_of S.Store world.new) }
    ensures spaced { IsRunSpaced (answered_events events.now result.answers.items) result.answers.items (host_of S.Store world.old) (host_of S.Store world.new) }
    ensures crash { SurvivesRun events.now (host_of S.Store world.old) (host_of S.Store world.new) }
{
    run_events(world, events)
}

/// Carries out the events in order. What else `run` promises is true of every run.
fn run_events<S: Alter>(world: &mut World<S>, events: &[Event]) -> RunAnswers
    ensures runs { IsHostRun (answered_events events.now result.answers.items) result.answers.items (host_of S.Store world.old) (host_of S.Store world.new) }
    ensures whole { IsTrue result.whole ↔ (length result.answers.items ≡ length events.now) }
    ensures crash { SurvivesRun events.now (host_of S.Store world.old) (host_of S.Store world.new) }
{
    let mut answers = Vec::new(world.clients.alloc);
    for event in events {
        if answers.reserve(1).is_err() {
            return RunAnswers {
                answers,
                whole: false,
            };
        }
        let Ok(answer) = apply(&mut world.clients, &mut world.store, event) else {
            return RunAnswers {
                answers,
                whole: false,
            };
        };
        answers.push_reserved(answer);
    }
    RunAnswers {
        answers,
        whole: true,
    }
}
