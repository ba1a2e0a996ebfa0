//! A daemon's life.
ghost use Rattle.std.specs.Prelude.{IsTrue, OnOk, OnErr};
ghost use Rattle.net_loop.specs.Life.{AddsIf, LivesIf};
ghost use Rattle.net_loop.specs.Moves.{loop_state};
ghost use Rattle.net_loop.specs.Told.{ToldBefore};
ghost use Rattle.daemon_core.specs.MailRules.{mail_rules};
ghost use Rattle.daemon_core.specs.Headline.{DaemonServes};

use crate::mail::MailDaemon;
use crate::store_access::StoreAccess;
use net_loop::life;
use net_loop::outcome::WaitError;
use net_loop::outside::{Clock, Sockets};
use net_loop::service::Service;

/// Serves clients of ManageSieve and of LMTP, for exactly this many acts.
///
/// # Errors
///
/// If a wait failed.
pub fn serve_clients<O: Sockets + Clock + StoreAccess>(
    outside: &mut O,
    daemon: &mut MailDaemon,
    service: &mut Service,
    acts: u64,
) -> Result<(), WaitError>
    ensures kept { ToldBefore O.told outside.old outside.new }
    ensures passed { OnOk result (AddsIf O.told outside.old acts outside.new) }
    ensures lives { LivesIf O.told (mail_rules O.store.view) (loop_state outside.old daemon.old service.old) (loop_state outside.new daemon.new service.new) }
    ensures headline { DaemonServes O.told O.store.view (loop_state outside.old daemon.old service.old) (loop_state outside.new daemon.new service.new) }
    ensures broke { OnErr result (IsTrue (O.broken outside.new)) }
{
    life::serve(outside, daemon, service, acts)
}
