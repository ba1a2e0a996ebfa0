//! The machine: the accounts of a store and the sessions of its clients.
ghost use Rattle.std.specs.Prelude.{◌≡◌, [], IsTrue, IfOk, IfSome, IfNone, OnErr};
ghost use Rattle.sqlite.specs.Held.{state};
ghost use Rattle.sqlite.specs.State.{HasCleanDisk};
ghost use Rattle.store_engine.specs.declared.event.Event.TheVariants.{Deliver};
ghost use Rattle.store_engine.specs.Hosts as hosts;
ghost use Rattle.store_engine.specs.Hosts.{host, host_with, EventAsksStore, IsEvent, IsGivenUp, IsSessionEvent, KeepsClients, SurvivesEvent, IsPrepared, ActsDelivery};

use crate::answer::Answer;
use crate::clients::{Clients, close, give, give_up, open, step, step_free, text_given_up};
use crate::delivery::deliver;
use crate::event::Event;
use crate::importing::import;
use crate::limits::limit_refusal;
use crate::taking::{take_mail, take_out};
use crate::terms::Terms;
use crate::upkeep::do_upkeep;
use crate::user::add_user;
use managesieve_sessions::Session;
use octets::Octets;
use sieve_exec::Envelope;
use sieve_plan::KeptScripts;
use sqlite::Alter;
use std::alloc::{AllocError, Global};
use std::collections::BTreeMap;
use store_accounts::{QueuedMessage, Refusal, Report, Store};

/// The accounts of a store and the sessions of its clients, which events change one after the other. Dropping it closes
/// the store.
pub struct World<S: Alter> {
    /// The store of the accounts.
    pub store: Store<S>,
    pub clients: Clients,
}

impl<S: Alter + Drop> Drop for World<S> {
    fn drop(self) {
        let World {
            store: _,
            clients: _,
        } = self;
    }
}

impl<S: Alter> World<S> {
    /// The world with the store's accounts and without sessions. Takes no memory.
    pub fn new(alloc: Global, store: Store<S>) -> World<S>
        ensures store { result.store ≡ store }
        ensures sessions { result.clients.sessions.entries ≡ [] }
    {
        World {
            store,
            clients: Clients::new(alloc),
        }
    }

    /// The store, with its accounts as they are; the sessions are dropped. Takes no memory.
    pub fn into_store(self) -> Store<S>
        ensures { result ≡ self.store }
    {
        let World { store, clients: _ } = self;
        store
    }
}

/// Applies one event to a store and the sessions beside it, in at most one transaction, and answers it. A refused event changes
/// nothing that is seen. Between two calls the store may be another one, and others may have changed it.
///
/// # Errors
///
/// Lack of memory for the text of giving up ([`Event::GiveUp`]), which may not be refused: nothing has changed then. Any other lack
/// of memory is an answer, [`Refusal::Memory`].
pub fn apply<S: Alter>(
    clients: &mut Clients,
    store: &mut Store<S>,
    event: &Event,
) -> Result<Answer, AllocError>
    ensures event { IfOk result (λ answer. IsEvent event.now answer (host_with S.Store store.old clients.old) (host_with S.Store store.new clients.new)) }
    ensures lacks { OnErr result (IsGivenUp event.now) }
    ensures err { OnErr result ((store.new ≡ store.old) × (clients.new ≡ clients.old)) }
    ensures crash { SurvivesEvent event.now (host_with S.Store store.old clients.old) (host_with S.Store store.new clients.new) }
    ensures shut { HasCleanDisk (state S.Store store.new) → IsTrue (state S.Store store.new).is_open → IsTrue (state S.Store store.old).is_open }
{
    let text = prepare(clients.alloc, &clients.sessions, event)?;
    Ok(carry_out(clients.alloc, store, &mut clients.sessions, event, text))
}

/// Applies an event that asks no store: a client connects, sends octets, disconnects, its first item is given up, or its
/// first item asks nothing of the accounts. `None` if the event asks a store, and no session changes then.
///
/// # Errors
///
/// Those of [`apply`].
pub fn apply_free(clients: &mut Clients, event: &Event) -> Result<Option<Answer>, AllocError>
    ensures made { IfOk result (λ told. IfSome told (λ answer. IsSessionEvent event.now answer clients.old.sessions clients.new.sessions)) }
    ensures asks { IfOk result (λ told. IfNone told (EventAsksStore event.now clients.old.sessions)) }
    ensures kept { IfOk result (λ told. IfNone told (KeepsClients clients.old.sessions clients.new.sessions)) }
    ensures lacks { OnErr result (IsGivenUp event.now) }
    ensures err { OnErr result (clients.new ≡ clients.old) }
{
    let text = prepare(clients.alloc, &clients.sessions, event)?;
    Ok(carry_out_free(clients.alloc, &mut clients.sessions, event, text))
}

/// Prepares the answer before the event, if the event may not be refused for memory: the text of giving up.
fn prepare(
    alloc: Global,
    sessions: &BTreeMap<u32, Session>,
    event: &Event,
) -> Result<Octets, AllocError>
    ensures ready { IfOk result (IsPrepared event.now sessions.now) }
    ensures lacks { OnErr result (IsGivenUp event.now) }
{
    match event {
        Event::GiveUp(number) => text_given_up(alloc, sessions, *number),
        _ => Ok(Octets::new(alloc)),
    }
}

/// Carries out one event, in at most one transaction, and answers it. A refused event changes nothing.
fn carry_out<S: Alter>(
    alloc: Global,
    store: &mut Store<S>,
    sessions: &mut BTreeMap<u32, Session>,
    event: &Event,
    text: Octets,
) -> Answer
    requires { IsPrepared event.now sessions.old text }
    ensures event { IsEvent event.now result (host (state S.Store store.old) sessions.old) (host (state S.Store store.new) sessions.new) }
    ensures crash { SurvivesEvent event.now (host (state S.Store store.old) sessions.old) (host (state S.Store store.new) sessions.new) }
    ensures shut { HasCleanDisk (state S.Store store.new) → IsTrue (state S.Store store.new).is_open → IsTrue (state S.Store store.old).is_open }
{
    match event {
        Event::Open(number) => answer_of(open(alloc, sessions, *number)),
        Event::Give(number, piece) => {
            answer_of(give(alloc, sessions, *number, piece.as_slice()))
        }
        Event::Step(number) => answer_of(step(alloc, sessions, store, *number)),
        Event::GiveUp(number) => give_up(sessions, *number, text),
        Event::Close(number) => close(alloc, sessions, *number),
        Event::Deliver {
            user,
            envelope,
            message,
            terms,
        } => {
            let report = carry_out_delivery(
                alloc,
                store,
                user.as_slice(),
                envelope,
                message.as_slice(),
                terms,
            );
            answer_of(report.map(Answer::Delivered))
        }
        Event::AddUser {
            name,
            address,
            salt,
            password,
        } => {
            let added = add_user(
                alloc,
                store,
                name.as_slice(),
                address.as_slice(),
                *salt,
                password.as_slice(),
            );
            answer_of(added.and(Ok(Answer::Added)))
        }
        Event::Import(file) => {
            let imported = import(alloc, store, file);
            answer_of(imported.and(Ok(Answer::Imported)))
        }
        Event::TakeOut { user, id } => {
            let row = take_out(store, user.as_slice(), *id);
            answer_of(row.map(Answer::Taken))
        }
        Event::TakeMail { user, folder } => {
            let taken = take_mail(store, user.as_slice(), folder.as_slice());
            answer_of(taken.and(Ok(Answer::MailTaken)))
        }
        Event::DoUpkeep { user, upkeep } => {
            answer_of(do_upkeep(alloc, store, user.as_slice(), upkeep))
        }
    }
}

/// Carries out an event that asks no store, and answers it; `None` if it asks one.
fn carry_out_free(
    alloc: Global,
    sessions: &mut BTreeMap<u32, Session>,
    event: &Event,
    text: Octets,
) -> Option<Answer>
    requires { IsPrepared event.now sessions.old text }
    ensures made { IfSome result (λ answer. IsSessionEvent event.now answer sessions.old sessions.new) }
    ensures asks { IfNone result (EventAsksStore event.now sessions.old) }
    ensures kept { IfNone result (KeepsClients sessions.old sessions.new) }
{
    match event {
        Event::Open(number) => Some(answer_of(open(alloc, sessions, *number))),
        Event::Give(number, piece) => {
            Some(answer_of(give(alloc, sessions, *number, piece.as_slice())))
        }
        Event::Step(number) => step_free(alloc, sessions, *number),
        Event::GiveUp(number) => Some(give_up(sessions, *number, text)),
        Event::Close(number) => Some(close(alloc, sessions, *number)),
        Event::Deliver { .. }
        | Event::AddUser { .. }
        | Event::Import(_)
        | Event::TakeOut { .. }
        | Event::TakeMail { .. }
        | Event::DoUpkeep { .. } => None,
    }
}

/// A delivery with a borrowed envelope. It is copied only if no limit forbids the delivery, so those causes are reported
/// without memory. No script is kept for the next one.
fn carry_out_delivery<S: Alter>(
    alloc: Global,
    store: &mut Store<S>,
    user: &[u8],
    envelope: &Envelope,
    message: &[u8],
    terms: &Terms,
) -> Result<Report, Refusal>
    ensures { ActsDelivery user.now envelope.now message.now terms.now (state S.Store store.old) (state S.Store store.new) result }
{
    if let Some(refusal) = limit_refusal(envelope, message, terms.when.moment) {
        return Err(refusal);
    }
    let envelope = envelope.try_clone(alloc)?;
    let mut kept = KeptScripts::new(alloc);
    deliver(
        alloc,
        store,
        &mut kept,
        user,
        envelope,
        message,
        terms.lend(),
    )
}

fn answer_of(done: Result<Answer, Refusal>) -> Answer
    ensures { result ≡ hosts.answer_of done }
{
    match done {
        Ok(answer) => answer,
        Err(refusal) => Answer::Refused(refusal),
    }
}
