//! Accounts in a store in memory.
ghost use Rattle.std.specs.Prelude.{◌≡◌};
ghost use Rattle.store_engine.specs.declared.event.Event.TheVariants.{Deliver};
ghost use Rattle.test_daemon.specs.Shelves.{IsLet};
ghost use Rattle.test_daemon.specs.Memory.{memory_view_of};

use crate::shelf::Shelf;
use daemon_core::gathered::GatheredRequest;
use daemon_core::recipient_account::find_account;
use daemon_core::store_deliveries::deliver_requests;
use lmtp_dialogue::Lookup;
use maildir_files::MemorySink;
use maildir_moves::{Moving, Route, move_next};
use octets::List;
use sqlite::MemStore;
use std::alloc::{AllocError, Global};
use store_accounts::Store;
use store_engine::{
    Answer, Clients, Envelope, Event, KeptScripts, Refusal, Terms, add_user, apply, deliver,
    do_upkeep, import, take_mail, take_out,
};

/// A store of store_engine, in memory, and where its mail moves on to.
#[derive(Drop)]
pub struct MemShelf {
    pub store: Store<MemStore>,
    pub sink: MemorySink,
    pub route: Route,
    /// The scripts that were checked for a delivery.
    pub kept: KeptScripts,
}

impl Shelf for MemShelf {
    ghost use Rattle.test_daemon.specs.Memory.{HasMailOn, MailLeftThere, shelf_view};

    ghost view = { shelf_view };

    ghost has = { HasMailOn };

    ghost there = { MailLeftThere };

    fn apply_event(&mut self, clients: &mut Clients, event: &Event) -> Answer {
        match apply(clients, &mut self.store, event) {
            Ok(answer) => answer,
            Err(AllocError) => Answer::Refused(Refusal::Memory),
        }
    }

    fn let_other(&mut self, alloc: Global, event: &Event) -> bool {
        match event {
            Event::Deliver {
                user,
                envelope,
                message,
                terms,
            } => {
                let (user, message) = (user.as_slice(), message.as_slice());
                let_delivery(alloc, &mut self.store, user, envelope, message, terms)
            }
            Event::AddUser {
                name,
                address,
                salt,
                password,
            } => {
                let (name, address) = (name.as_slice(), address.as_slice());
                add_user(
                    alloc,
                    &mut self.store,
                    name,
                    address,
                    *salt,
                    password.as_slice(),
                )
                .is_ok()
            }
            Event::Import(file) => import(alloc, &mut self.store, file).is_ok(),
            Event::TakeOut { user, id } => {
                take_out(&mut self.store, user.as_slice(), *id).is_ok()
            }
            Event::TakeMail { user, folder } => {
                take_mail(&mut self.store, user.as_slice(), folder.as_slice()).is_ok()
            }
            Event::DoUpkeep { user, upkeep } => {
                do_upkeep(alloc, &mut self.store, user.as_slice(), upkeep).is_ok()
            }
            _ => false,
        }
    }

    fn deliver_all(
        &mut self,
        alloc: Global,
        requests: &[GatheredRequest],
        terms: &Terms,
    ) -> Result<List<Answer>, Refusal> {
        deliver_requests(
            alloc,
            &mut self.store,
            &mut self.kept,
            requests,
            terms.lend(),
        )
    }

    fn find_account(&mut self, user: &[u8]) -> Lookup {
        find_account(&mut self.store, user)
    }

    fn move_next(&mut self, now: u64, fresh: bool) -> Moving {
        move_next(&mut self.store, &mut self.sink, &mut self.route, now, fresh)
    }
}

/// Delivers a message of others, for which the envelope is copied. Returns whether it was.
fn let_delivery(
    alloc: Global,
    store: &mut Store<MemStore>,
    user: &[u8],
    envelope: &Envelope,
    message: &[u8],
    terms: &Terms,
) -> bool
    ensures { IsLet memory_view_of (Deliver user.now envelope.now message.now terms.now) result store.old store.new }
{
    let Ok(envelope) = envelope.try_clone(alloc) else {
        return false;
    };
    let mut kept = KeptScripts::new(alloc);
    deliver(
        alloc,
        store,
        &mut kept,
        user,
        envelope,
        message,
        terms.lend(),
    )
    .is_ok()
}
