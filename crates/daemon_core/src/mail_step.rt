//! One step of a client of LMTP.
ghost use Rattle.std.specs.Prelude.{◌≡◌, ℕ, [], IsTrue, IfOk, OnOk, OnErr};
ghost use Rattle.net_loop.specs.Rules.{StepsIf, IdlesIf, machine_state, step_at};
ghost use Rattle.net_loop.specs.Told.{ToldBefore, TellsIf};
ghost use Rattle.net_loop.specs.declared.act.Act.TheVariants.{Noted};
ghost use Rattle.daemon_core.specs.StoreAccess.{StillShowsIf};
ghost use Rattle.daemon_core.specs.declared.note.Note.TheVariants as notes;
ghost use Rattle.daemon_core.specs.LmtpSteps as lmtp_steps;
ghost use Rattle.daemon_core.specs.declared.daemon.Daemon.{Daemon as DaemonOf};
ghost use Rattle.daemon_core.specs.MailRules.{mail_rules, LacksBy};
ghost use Rattle.lmtp_connections.specs.Stands.{Demands, HasSlot, IsRequested};
ghost use Rattle.lmtp_connections.specs.declared.demand.Demand.TheVariants as demands;

use crate::daemon::Daemon;
use crate::delivery_reply::reply_for_delivery;
use crate::gathered::Gathered;
use crate::mail::MailDaemon;
use crate::mail_connections::lack_by;
use crate::memory_room::room;
use crate::store_access::StoreAccess;
use lmtp_connections::{DeliveryRequest, Demand, LmtpConnection, Question};
use lmtp_dialogue::ReplyBuffer;
use octets::Octets;
use std::alloc::{AllocError, Global};
use std::mem::take;

/// One step of a client of LMTP.
pub fn step_lmtp<O: StoreAccess>(
    mail: &mut MailDaemon,
    outside: &mut O,
    now: u64,
    id: u32,
    out: &mut Octets,
) -> Result<(), AllocError>
    requires { out.old ≡ [] }
    ensures kept { ToldBefore O.told outside.old outside.new }
    ensures ok { OnOk result (StepsIf O.told (mail_rules O.store.view) (machine_state outside.old mail.old) (step_at now id out.new) (machine_state outside.new mail.new)) }
    ensures err { OnErr result (IdlesIf O.told outside.old outside.new) }
    ensures lacks { OnErr result (LacksBy mail.old id mail.new) }
{
    let alloc = mail.daemon.alloc;
    let spare = room(mail);
    let Some(connection) = mail.lmtp_connections.get_mut(&id) else {
        return lack_by(mail, id);
    };
    match do_next(
        alloc,
        spare,
        &mut mail.daemon,
        &mut mail.gathered,
        connection,
        outside,
        now,
        id,
        out,
    ) {
        Ok(()) => Ok(()),
        Err(AllocError) => lack_by(mail, id),
    }
}

/// Does what is to be done next. There is room for this many octets that may be announced.
fn do_next<O: StoreAccess>(
    alloc: Global,
    spare: usize,
    daemon: &mut Daemon,
    gathered: &mut Gathered,
    connection: &mut LmtpConnection,
    outside: &mut O,
    now: u64,
    id: u32,
    out: &mut Octets,
) -> Result<(), AllocError>
    requires { out.old ≡ [] }
    ensures kept { ToldBefore O.told outside.old outside.new }
    ensures ok { OnOk result (lmtp_steps.DoesOneIf O.told O.store.view spare (lmtp_steps.lmtp_moment outside.old daemon.old connection.old) (step_at now id out.new) (lmtp_steps.lmtp_moment outside.new daemon.new connection.new)) }
    ensures err { OnErr result (IdlesIf O.told outside.old outside.new) }
    ensures lacks { OnErr result (daemon.new ≡ daemon.old) }
{
    match connection.demand(now)? {
        Demand::Nothing => Err(AllocError),
        Demand::Line => answer_line(spare, connection, outside, now, id, out),
        Demand::PutOff => {
            let line = connection.put_off(now)?;
            *out = line;
            outside.tell_answered(id);
            Ok(())
        }
        Demand::Reply(became) => {
            let line = connection.reply(now, became)?;
            *out = line;
            outside.tell_answered(id);
            Ok(())
        }
        Demand::Noted => {
            let line = connection.reply_noted(now)?;
            *out = line;
            outside.tell_answered(id);
            Ok(())
        }
        Demand::Account(question) => {
            let room = ReplyBuffer::new(alloc)?;
            *out = find_account_for(alloc, daemon, connection, outside, now, id, question, room);
            Ok(())
        }
        Demand::Delivery => {
            connection.reserve_reply()?;
            if goes_together(gathered, outside, now, id, connection.held()) {
                return gather(gathered, outside, id);
            }
            let request = request_of(connection, now)?;
            deliver(alloc, daemon, connection, outside, now, id, request);
            Ok(())
        }
    }
}

/// Answers the line that comes next; a MAIL that announces more than there is room for is refused.
fn answer_line<O: StoreAccess>(
    spare: usize,
    connection: &mut LmtpConnection,
    outside: &mut O,
    now: u64,
    id: u32,
    out: &mut Octets,
) -> Result<(), AllocError>
    requires line { Demands now connection.old demands.Line }
    requires out { out.old ≡ [] }
    ensures kept { ToldBefore O.told outside.old outside.new }
    ensures ok { OnOk result ((daemon : DaemonOf) → lmtp_steps.DoesOneIf O.told O.store.view spare (lmtp_steps.lmtp_moment outside.old daemon connection.old) (step_at now id out.new) (lmtp_steps.lmtp_moment outside.new daemon connection.new)) }
    ensures err { OnErr result (IdlesIf O.told outside.old outside.new) }
{
    let refused = connection.refuse(now, spare as u64, out)?;
    if refused {
        outside.tell_answered(id);
        return Ok(());
    }
    connection.answer(now, out)?;
    outside.tell_answered(id);
    Ok(())
}

/// Asks the store for an account. Returns what is said.
fn find_account_for<O: StoreAccess>(
    alloc: Global,
    daemon: &mut Daemon,
    connection: &mut LmtpConnection,
    outside: &mut O,
    now: u64,
    id: u32,
    question: Question,
    room: ReplyBuffer,
) -> Octets
    requires asked { Demands now connection.old (demands.Account question) }
    requires slot { HasSlot connection.old }
    ensures kept { ToldBefore O.told outside.old outside.new }
    ensures does { (spare : ℕ) → lmtp_steps.DoesOneIf O.told O.store.view spare (lmtp_steps.lmtp_moment outside.old daemon.old connection.old) (step_at now id result) (lmtp_steps.lmtp_moment outside.new daemon.new connection.new) }
{
    match outside.find_account(id, &mut daemon.clients, question.user.as_slice()) {
        Some(lookup) => {
            daemon.holding = daemon.holding.asked_at(now);
            connection.answer_recipient(now, question, lookup, room)
        }
        None => {
            connection.await_store(now);
            Octets::new(alloc)
        }
    }
}

/// Whether the message of a client, of that many octets, is to be delivered together with those of others.
fn goes_together<O: StoreAccess>(
    gathered: &mut Gathered,
    outside: &O,
    now: u64,
    id: u32,
    octets: usize,
) -> bool {
    !take(&mut gathered.lacks) && outside.gathers(now, id, octets)
}

/// Has the message be delivered together with those of others.
fn gather<O: StoreAccess>(
    gathered: &mut Gathered,
    outside: &mut O,
    id: u32,
) -> Result<(), AllocError>
    ensures kept { ToldBefore O.told outside.old outside.new }
    ensures gathers { OnOk result (TellsIf O.told outside.old (Noted id notes.Gathered) outside.new × StillShowsIf O.told O.store.view outside.old outside.new) }
    ensures err { OnErr result (IdlesIf O.told outside.old outside.new) }
{
    if gathered.ids.insert(id, ()).is_err() {
        return Err(AllocError);
    }
    outside.tell_gathered(id);
    Ok(())
}

/// The request that the store is given next for a client whose message is to be delivered.
///
/// Lack of memory is the only error.
fn request_of(connection: &LmtpConnection, now: u64) -> Result<DeliveryRequest, AllocError>
    ensures { IfOk result (IsRequested now connection.now) }
{
    match connection.delivery(now) {
        Ok(Some(request)) => Ok(request),
        _ => Err(AllocError),
    }
}

/// Has the store deliver a message by itself. What became of it is said by the next step.
fn deliver<O: StoreAccess>(
    alloc: Global,
    daemon: &mut Daemon,
    connection: &mut LmtpConnection,
    outside: &mut O,
    now: u64,
    id: u32,
    request: DeliveryRequest,
)
    requires { IsRequested now connection.old request }
    ensures kept { ToldBefore O.told outside.old outside.new }
    ensures does { (spare : ℕ) → lmtp_steps.DoesOneIf O.told O.store.view spare (lmtp_steps.lmtp_moment outside.old daemon.old connection.old) (step_at now id []) (lmtp_steps.lmtp_moment outside.new daemon.new connection.new) }
{
    match outside.deliver(id, &mut daemon.clients, &request) {
        Some(answer) => {
            daemon.holding = daemon.holding.asked_at(now);
            let became = reply_for_delivery(alloc, request.sender.as_slice(), &answer);
            connection.answer_delivery(now, &request, became)
        }
        None => connection.await_store(now),
    }
}
