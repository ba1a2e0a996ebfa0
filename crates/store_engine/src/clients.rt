//! Sessions by their numbers, and the events of one.
ghost use Rattle.std.specs.Prelude.{◌≡◌, [], IfOk, IfSome, IfNone, IsTrue};
ghost use Rattle.std.specs.BTreeMap as tree;
ghost use Rattle.std.specs.Option.{option_copied};
ghost use Rattle.std.specs.Ordering.{nat_cmp};
ghost use Rattle.sqlite.specs.Held.{state};
ghost use Rattle.sqlite.specs.State.{HasCleanDisk};
ghost use Rattle.store_engine.specs.declared.event.Event.TheVariants.{Open, Give, Step, GiveUp, Close};
ghost use Rattle.store_engine.specs.Hosts.{host, EventAsksStore, IsSessionEvent, IsEvent, KeepsClients, SurvivesEvent, IsPrepared, answer_of};

use crate::answer::Answer;
use managesieve_sessions::{FreeStep, Progress, Session};
use octets::Octets;
use sqlite::Alter;
use std::alloc::{AllocError, Global};
use std::collections::BTreeMap;
use store_accounts::{Refusal, Store};

/// The sessions of clients, by their numbers. Dropping them closes nothing but these sessions.
#[derive(Drop)]
pub struct Clients {
    pub(crate) sessions: BTreeMap<u32, Session>,
    pub(crate) alloc: Global,
}

impl Clients {
    /// No sessions. Takes no memory.
    pub fn new(alloc: Global) -> Clients
        ensures { result.sessions.entries ≡ [] }
    {
        Clients {
            sessions: BTreeMap::new(alloc),
            alloc,
        }
    }

    /// The session under a number, if one is open. Takes no memory.
    pub fn session(&self, number: u32) -> Option<&Session>
        ensures { option_copied result ≡ tree.get nat_cmp self.now.sessions number }
    {
        self.sessions.get(&number)
    }

    /// Octets come from a client: the event [`Event::Give`](crate::Event::Give), without a copy of the piece.
    pub fn give(&mut self, number: u32, piece: &[u8]) -> Answer
        ensures { IsSessionEvent (Give number piece.now) result self.old.sessions self.new.sessions }
    {
        match give(self.alloc, &mut self.sessions, number, piece) {
            Ok(answer) => answer,
            Err(refusal) => Answer::Refused(refusal),
        }
    }
}

/// A client connects: it is greeted, and its session begins. A session that is open under the number stays.
pub fn open(
    alloc: Global,
    sessions: &mut BTreeMap<u32, Session>,
    number: u32,
) -> Result<Answer, Refusal>
    ensures { IsSessionEvent (Open number) (answer_of result) sessions.old sessions.new }
{
    if sessions.contains_key(&number) {
        return Ok(Answer::Ignored);
    }
    let mut greeting = Octets::new(alloc);
    let session = Session::new(alloc, &mut greeting)?;
    if let Err(_) = sessions.insert(number, session) {
        return Err(Refusal::Memory);
    }
    Ok(Answer::Out(Progress::Done, greeting))
}

/// Octets come from a client.
pub fn give(
    alloc: Global,
    sessions: &mut BTreeMap<u32, Session>,
    number: u32,
    piece: &[u8],
) -> Result<Answer, Refusal>
    ensures { IsSessionEvent (Give number piece.now) (answer_of result) sessions.old sessions.new }
{
    let Some(session) = sessions.get_mut(&number) else {
        return Ok(Answer::Ignored);
    };
    session.give(piece)?;
    Ok(Answer::Out(session.progress(), Octets::new(alloc)))
}

/// Takes off the first item that a client sent, and answers it.
pub fn step<S: Alter>(
    alloc: Global,
    sessions: &mut BTreeMap<u32, Session>,
    store: &mut Store<S>,
    number: u32,
) -> Result<Answer, Refusal>
    ensures event { IsEvent (Step number) (answer_of result) (host (state S.Store store.old) sessions.old) (host (state S.Store store.new) sessions.new) }
    ensures crash { SurvivesEvent (Step number) (host (state S.Store store.old) sessions.old) (host (state S.Store store.new) sessions.new) }
    ensures shut { HasCleanDisk (state S.Store store.new) → IsTrue (state S.Store store.new).is_open → IsTrue (state S.Store store.old).is_open }
{
    let Some(session) = sessions.get_mut(&number) else {
        return Ok(Answer::Ignored);
    };
    let mut out = Octets::new(alloc);
    let progress = session.step(store, &mut out)?;
    Ok(Answer::Out(progress, out))
}

/// Takes off the first item that a client sent, and answers it, if it asks nothing of the accounts. `None` if it does,
/// and no session changes then.
pub fn step_free(
    alloc: Global,
    sessions: &mut BTreeMap<u32, Session>,
    number: u32,
) -> Option<Answer>
    ensures made { IfSome result (λ answer. IsSessionEvent (Step number) answer sessions.old sessions.new) }
    ensures asks { IfNone result (EventAsksStore (Step number) sessions.old) }
    ensures kept { IfNone result (KeepsClients sessions.old sessions.new) }
{
    let Some(session) = sessions.get_mut(&number) else {
        return Some(Answer::Ignored);
    };
    let mut out = Octets::new(alloc);
    match session.step_free(&mut out) {
        Ok(FreeStep::Made(progress)) => Some(Answer::Out(progress, out)),
        Ok(FreeStep::Asks(_)) => None,
        Err(AllocError) => Some(Answer::Refused(Refusal::Memory)),
    }
}

/// The answer that giving up on a client's first item would have.
pub fn text_given_up(
    alloc: Global,
    sessions: &BTreeMap<u32, Session>,
    number: u32,
) -> Result<Octets, AllocError>
    ensures { IfOk result (IsPrepared (GiveUp number) sessions.now) }
{
    let Some(session) = sessions.get(&number) else {
        return Ok(Octets::new(alloc));
    };
    Octets::from_slice(alloc, session.text_given_up())
}

/// Drops the first item that a client sent, which can't be answered now. Takes no memory: the caller passes the text
/// of the answer.
pub fn give_up(sessions: &mut BTreeMap<u32, Session>, number: u32, text: Octets) -> Answer
    requires { IsPrepared (GiveUp number) sessions.old text }
    ensures { IsSessionEvent (GiveUp number) result sessions.old sessions.new }
{
    let Some(session) = sessions.get_mut(&number) else {
        return Answer::Ignored;
    };
    let progress = session.progress_given_up();
    session.give_up();
    Answer::Out(progress, text)
}

/// A client disconnects. Takes no memory.
pub fn close(alloc: Global, sessions: &mut BTreeMap<u32, Session>, number: u32) -> Answer
    ensures { IsSessionEvent (Close number) result sessions.old sessions.new }
{
    let Some(_) = sessions.remove(&number) else {
        return Answer::Ignored;
    };
    Answer::Out(Progress::Close, Octets::new(alloc))
}
