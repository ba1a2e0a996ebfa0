//! A store that is held now and then, and who keeps the mail that moves on from it.
ghost use Rattle.std.specs.Prelude.{◌≡◌, false, IfOk};
ghost use Rattle.store_lock.specs.Taken.{DeniesStore, GivesStore};
ghost use Rattle.daemon_host.specs.Held.{host_view, is_held, IsClean, MailIsThere, SinkHasMail};

use crate::mail_store::MailStore;
use daemon_core::gathered::GatheredRequest;
use daemon_core::recipient_account::find_account;
use daemon_core::store_deliveries::deliver_requests;
use lmtp_connections::DeliveryRequest;
use lmtp_dialogue::Lookup;
use maildir_files::MailSink;
use maildir_moves::{Moving, Route, move_next};
use octets::List;
use sqlite::ErrorCode;
use std::alloc::{AllocError, Global};
use std::io::ErrorKind;
use store_engine::{
    Answer, Clients, Envelope, Event, KeptScripts, LentTerms, Refusal, apply, deliver,
};
use store_lock::{HeldStore, Keeper, StoreUnavailable};

/// A store that is held now and then, and who keeps the mail that moves on from it.
#[derive(Drop)]
pub struct HostStore<K: Keeper + Drop, T: MailSink + Drop> {
    held: HeldStore<K>,
    /// Who keeps the mail that moves on.
    sink: T,
    /// Where it moves on to, if it does.
    route: Option<Route>,
    /// The scripts that were checked for a delivery.
    kept: KeptScripts,
}

impl<K: Keeper + Drop, T: MailSink + Drop> HostStore<K, T> {
    /// The store isn't held yet.
    pub fn new(alloc: Global, keeper: K, sink: T, route: Option<Route>) -> HostStore<K, T>
        ensures held { is_held result ≡ false }
        ensures keeper { result.held.keeper ≡ keeper }
        ensures sink { result.sink ≡ sink }
        ensures route { result.route ≡ route }
    {
        HostStore {
            held: HeldStore::new(keeper),
            sink,
            route,
            kept: KeptScripts::new(alloc),
        }
    }
}

impl<K: Keeper + Drop, T: MailSink + Drop> MailStore for HostStore<K, T> {
    ghost view = { host_view K.S.Store K.tells K.holds };

    ghost clean = { IsClean K.S.Store K.tells };

    ghost tells = { K.tells };

    ghost is_held = { is_held };

    ghost has = { SinkHasMail T.tells T.kept T.is_at T.has_put T.keeps_at };

    ghost there = { MailIsThere T.keeps_at };

    ghost gives = { λ path. GivesStore K.gives K.will_wait path false };

    ghost denies = { λ path denial. DeniesStore K.refuses K.will_wait path false denial };

    fn has_store(&self) -> bool {
        self.held.store.is_some()
    }

    fn sink_cause(&self) -> Option<ErrorKind> {
        self.sink.cause()
    }

    fn cause(&self) -> Option<&'static str> {
        self.held.keeper.cause()
    }

    fn code(&self) -> Option<ErrorCode> {
        self.held.store.as_ref()?.cause()
    }

    fn is_there(&self, path: &str) -> bool {
        self.held.keeper.is_there(path)
    }

    fn is_awaited(&mut self, path: &str) -> bool {
        self.held.keeper.is_awaited(path)
    }

    fn take(&mut self, path: &str) -> Result<(), StoreUnavailable> {
        self.held.take(path, false)
    }

    fn give_back(&mut self) -> Option<Refusal> {
        self.held.give_back();
        self.held.keeper.take_close_error()
    }

    fn apply_event(&mut self, clients: &mut Clients, event: &Event) -> Option<Answer> {
        let Some(store) = &mut self.held.store else {
            return None;
        };
        match apply(clients, store, event) {
            Ok(answer) => Some(answer),
            Err(AllocError) => Some(Answer::Refused(Refusal::Memory)),
        }
    }

    fn find_account(&mut self, user: &[u8]) -> Option<Lookup> {
        let Some(store) = &mut self.held.store else {
            return None;
        };
        Some(find_account(store, user))
    }

    fn deliver(
        &mut self,
        alloc: Global,
        request: &DeliveryRequest,
        terms: LentTerms<'_>,
    ) -> Option<Answer> {
        let Ok(envelope) = envelope_of(alloc, request) else {
            return None;
        };
        let Some(store) = &mut self.held.store else {
            return None;
        };
        let (user, message) = (request.user.as_slice(), request.message.as_slice());
        match deliver(alloc, store, &mut self.kept, user, envelope, message, terms) {
            Ok(report) => Some(Answer::Delivered(report)),
            Err(refusal) => Some(Answer::Refused(refusal)),
        }
    }

    fn deliver_all(
        &mut self,
        alloc: Global,
        requests: &[GatheredRequest],
        terms: LentTerms<'_>,
    ) -> Option<Result<List<Answer>, Refusal>> {
        let Some(store) = &mut self.held.store else {
            return None;
        };
        let kept = &mut self.kept;
        Some(deliver_requests(alloc, store, kept, requests, terms))
    }

    /// As [`maildir_moves::move_next`] does.
    fn move_next(&mut self, now: u64, fresh: bool) -> Option<Moving> {
        let Some(route) = &mut self.route else {
            return None;
        };
        let Some(store) = &mut self.held.store else {
            return None;
        };
        Some(move_next(store, &mut self.sink, route, now, fresh))
    }
}

fn envelope_of(alloc: Global, request: &DeliveryRequest) -> Result<Envelope, AllocError>
    ensures { IfOk result (λ envelope. envelope ≡ record { from = request.now.sender; to = request.now.recipient }) }
{
    Ok(Envelope {
        from: request.sender.try_clone(alloc)?,
        to: request.recipient.try_clone(alloc)?,
    })
}
