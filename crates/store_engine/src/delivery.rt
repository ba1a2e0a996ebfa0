//! The delivery of a message.
ghost use Rattle.std.specs.Prelude.{◌≡◌, ◌⊎◌, ◌≤◌, ◌<◌, ◌^◌, ◌++◌, true, drop, flat_map, Err, OnOk, IfOk, IfErr, IfSome, option_copied};
ghost use Rattle.sqlite.specs.Held.{state};
ghost use Rattle.sqlite.specs.State.{HasCleanDisk};
ghost use Rattle.sieve_plan.specs.Plans.{deeds_in};
ghost use Rattle.sieve_plan.specs.Sent.{near_targets, over_keys, known_in_half, known_under};
ghost use Rattle.sieve_plan.specs.Views.{asks_room, known_of, last_of};
ghost use Rattle.store_accounts.specs.Account.{delivers, room_in};
ghost use Rattle.store_accounts.specs.Cells.{borrowed_octets};
ghost use Rattle.store_accounts.specs.Connection.{IsSettled};
ghost use Rattle.store_accounts.specs.Promises.{WritesAccount};
ghost use Rattle.store_accounts.specs.Refusals.{IsTransient};
ghost use Rattle.managesieve_sessions.specs.Acts.{ReadsAccounts};
ghost use Rattle.std.specs.FinMap.{get};
ghost use Rattle.store_engine.specs.AccountEvents.{absence as absence_of, script_or_default};
ghost use Rattle.store_engine.specs.Hosts.{ActsDelivery, IsSpacedDelivery, RefusesDelivery};
ghost use Rattle.store_engine.specs.Limits as limits;
ghost use Rattle.store_engine.specs.Lookups.{LooksUp, IsLookup, IsRecalled, Recalls};
ghost use Rattle.store_engine.specs.Terms.{terms_of};

use crate::account::{ActiveScript, active_script};
use crate::limits::limit_refusal;
use crate::terms::{HostSettings, LentTerms};
use mail_address::{Addr, bare_address};
use octets::{List, Octets, Texts, as_deref};
use sieve_exec::{Envelope, Mail};
use sieve_plan::{
    AccountView, Deeds, KeptScripts, half_handle, half_of, has_long_header, is_near_if, plan,
    plan_unread, redirect_keys, sent_end, sent_handle, settle,
};
use sieve_syntax::VacationArgs;
use sieve_vacation::{MAX_MOMENT, handle_key, has_short_texts};
use sqlite::Alter;
use std::alloc::Global;
use store_accounts::{Plan, Refusal, ReplyKey, Report, Store};

/// What a delivery has to know of the account.
#[derive(Drop)]
pub(crate) struct Lookup {
    /// The account's address.
    pub address: Addr,
    /// The text of the active script, if one is active.
    pub text: Option<Octets>,
}

/// Delivers a message to a user by the host's scripts and the active script (RFC 5228, 2.10), in one transaction, which is its
/// last act.
///
/// The host's scripts run before the user's and after it, each where those before it leave the message to be kept. Where the
/// host has a default script, an account without an active script is treated as if this were its active one, and an
/// account with an active script never sees it. The message is borrowed and read once; no copy of it is made beside
/// what the store writes. A script that is kept isn't checked again, and one that is checked is kept, if there is memory for it.
/// What the scripts say is carried out: the message joins folders and the queue, and the sender is
/// answered, at most once in a period. Without any script it joins INBOX. Where a text is no script, or where its run fails, what
/// the scripts before it did is carried out, and the message joins INBOX too and the user is left a notice. So it does where the
/// message has more than 100 Received fields, or a header of more than 1,048,576 octets, with the empty line that ends it: then
/// no script is run, and of such a header no field is read.
///
/// # Errors
///
/// In this order: [`Refusal::TooLarge`] for more than 33,554,432 octets, [`Refusal::BadEnvelope`] for an address of
/// more than 1,024 octets or with CR, LF or NUL, [`Refusal::BadMoment`] past the year 9999: these come without
/// memory and without the store. Then [`Refusal::NoUser`] without an account and where it is removed, and
/// [`Refusal::AccountClosed`]. [`Refusal::Memory`] and [`Refusal::Store`] may come at any place after the first three. The
/// store then stays as it was.
pub fn deliver<S: Alter>(
    alloc: Global,
    store: &mut Store<S>,
    kept: &mut KeptScripts,
    user: &[u8],
    envelope: Envelope,
    message: &[u8],
    terms: LentTerms<'_>,
) -> Result<Report, Refusal>
    ensures acts { ActsDelivery user.now envelope message.now (terms_of terms.entry) (state S.Store store.old) (state S.Store store.new) result }
    ensures settled { HasCleanDisk (state S.Store store.new) → OnOk result (IsSettled (state S.Store store.new)) }
    ensures spaced { IsSpacedDelivery user.now envelope message.now (terms_of terms.entry) (state S.Store store.old) (state S.Store store.new) result }
    ensures early { IfSome (limits.limit_refusal envelope message.now terms.entry.when.moment) (λ refusal. (result ≡ Err refusal) × (store.new ≡ store.old)) }
    ensures named { IfErr result (RefusesDelivery envelope message.now terms.entry.when.moment) }
{
    if let Some(refusal) = limit_refusal(&envelope, message, terms.when.moment) {
        return Err(refusal);
    }
    let looked = look_up(alloc, store, user);
    if let Err(Refusal::NoUser) = looked {
        return Err(absence(store, user)?);
    }
    let found = looked?;
    if has_long_header(message) {
        let unread = plan_unread(alloc, message, &envelope, terms.when)?;
        return carry_out(store, user, unread);
    }
    let mail = Mail::read(alloc, message, envelope, terms.when)?;
    let settlement = settle(
        alloc,
        kept,
        &terms.host.scripts,
        deciding(&found.text, terms.host),
        &mail,
    )?;
    let view = recall(alloc, store, user, found.address, &mail, &settlement.deeds)?;
    let plan = plan(alloc, view, &mail, settlement)?;
    carry_out(store, user, plan)
}

/// What a delivery has to know of the user's account, which was entered, for these deeds to be done with a mail. Rows are found by
/// their keys: one of the response that is asked for; if the message is to be sent on those of each of its one or two keys and of
/// three half days, 32 at most; if rows are to join the queue the numbers of 1,000 of it; and 32 keys that are over, at most.
pub(crate) fn recall<S: Alter>(
    alloc: Global,
    store: &mut Store<S>,
    user: &[u8],
    address: Addr,
    mail: &Mail<'_>,
    deeds: &Deeds,
) -> Result<AccountView, Refusal>
    requires { mail.now.moment ≤ MAX_MOMENT }
    ensures { Recalls user.now (λ view a. IsRecalled view address mail.now (deeds_in deeds.now) a) (state S.Store store.old) (state S.Store store.new) result }
{
    let last = recall_last(alloc, store, user, mail.from(), deeds.reply.as_ref())?;
    let known = recall_known(alloc, store, user, mail, deeds.sent.as_slice())?;
    let room = recall_room(store, user, deeds)?;
    let over = recall_over(alloc, store, user, mail.moment())?;
    Ok(AccountView {
        address,
        last,
        known,
        room,
        over,
    })
}

/// The moment that is kept of the response that a `vacation` asks for. A `:subject` or `:from` of 2^32 octets and more, which no
/// script within the limits has, is answered as lack of memory.
fn recall_last<S: Alter>(
    alloc: Global,
    store: &mut Store<S>,
    user: &[u8],
    sender: &[u8],
    reply: Option<&VacationArgs>,
) -> Result<Option<u64>, Refusal>
    ensures { Recalls user.now (λ last a. last ≡ last_of a sender.now (option_copied reply.entry)) (state S.Store store.old) (state S.Store store.new) result }
{
    let Some(args) = reply else {
        return Ok(None);
    };
    if !has_short_texts(args) {
        return Err(Refusal::Memory);
    }
    let key = handle_key(alloc, args)?;
    store.last_reply_of(user, key.as_slice(), sender)
}

/// The addresses to which the message was sent before, if it is to be sent to some.
fn recall_known<S: Alter>(
    alloc: Global,
    store: &mut Store<S>,
    user: &[u8],
    mail: &Mail<'_>,
    targets: &[Addr],
) -> Result<Texts, Refusal>
    requires { mail.now.moment ≤ MAX_MOMENT }
    ensures { Recalls user.now (λ known a. known ≡ known_of a mail.now targets.now) (state S.Store store.old) (state S.Store store.new) result }
{
    if targets.is_empty() {
        return Ok(Texts::new(alloc));
    }
    let keys = redirect_keys(alloc, mail)?;
    recall_sent(alloc, store, user, keys.as_slice(), mail.moment())
}

/// The addresses to which a message with one of these keys was sent less than 12 hours from this moment.
fn recall_sent<S: Alter>(
    alloc: Global,
    store: &mut Store<S>,
    user: &[u8],
    keys: &[Octets],
    moment: u64,
) -> Result<Texts, Refusal>
    requires { moment ≤ MAX_MOMENT }
    ensures { Recalls user.now (λ known a. known ≡ flat_map (known_under a moment) keys.now) (state S.Store store.old) (state S.Store store.new) result }
{
    let mut known = Texts::new(alloc);
    for key in keys {
        known = recall_under(alloc, store, user, key.as_slice(), moment, known)?;
    }
    Ok(known)
}

/// Those of one key, behind what is known.
fn recall_under<S: Alter>(
    alloc: Global,
    store: &mut Store<S>,
    user: &[u8],
    key: &[u8],
    moment: u64,
    known: Texts,
) -> Result<Texts, Refusal>
    requires { moment ≤ MAX_MOMENT }
    ensures { Recalls user.now (λ all a. all ≡ known ++ known_under a moment key.now) (state S.Store store.old) (state S.Store store.new) result }
{
    let half = half_of(moment);
    let early = recall_in(alloc, store, user, key, moment, half - 1, known)?;
    let here = recall_in(alloc, store, user, key, moment, half, early)?;
    recall_in(alloc, store, user, key, moment, half + 1, here)
}

/// Those of one key and one half day, behind what is known.
fn recall_in<S: Alter>(
    alloc: Global,
    store: &mut Store<S>,
    user: &[u8],
    key: &[u8],
    moment: u64,
    half: u64,
    known: Texts,
) -> Result<Texts, Refusal>
    requires { half < 2 ^ 32 }
    ensures { Recalls user.now (λ all a. all ≡ known ++ known_in_half a moment key.now half) (state S.Store store.old) (state S.Store store.new) result }
{
    let from = sent_handle(alloc, half, key, &[])?;
    let below = sent_end(alloc, half, key)?;
    let keys = store.reply_keys_between(user, from.as_slice(), below.as_slice())?;
    recall_near(
        alloc,
        store,
        user,
        moment,
        from.len(),
        keys.as_slice(),
        known,
    )
}

/// What stands behind this many octets of those handles' keys under which a moment near this one is kept, behind what is known.
fn recall_near<S: Alter>(
    alloc: Global,
    store: &mut Store<S>,
    user: &[u8],
    moment: u64,
    before: usize,
    keys: &[ReplyKey],
    known: Texts,
) -> Result<Texts, Refusal>
    ensures { Recalls user.now (λ all a. all ≡ known ++ near_targets a moment before keys.now) (state S.Store store.old) (state S.Store store.new) result }
{
    let mut all = known;
    for key in keys {
        let kept = store.moment_of(user, key.handle.as_slice(), key.sender.as_slice())?;
        if is_near_if(moment, kept) {
            all.push(Octets::from_slice(alloc, behind(key.handle.as_slice(), before))?)?;
        }
    }
    Ok(all)
}

/// What stands behind this many octets; nothing where there are no more.
fn behind(handle: &[u8], before: usize) -> &[u8]
    ensures { result.now ≡ drop before handle.now }
{
    if before < handle.len() {
        return &handle[before..];
    }
    &[]
}

/// How many rows may join the queue, if the deeds bring some.
fn recall_room<S: Alter>(store: &mut Store<S>, user: &[u8], deeds: &Deeds) -> Result<u64, Refusal>
    ensures { Recalls user.now (λ room a. asks_room (deeds_in deeds.now) ≡ true → room ≡ room_in a) (state S.Store store.old) (state S.Store store.new) result }
{
    if deeds.sent.is_empty() && deeds.reply.is_none() {
        return Ok(0);
    }
    store.room_of(user)
}

/// The keys of what is kept and over.
fn recall_over<S: Alter>(
    alloc: Global,
    store: &mut Store<S>,
    user: &[u8],
    moment: u64,
) -> Result<List<ReplyKey>, Refusal>
    requires { moment ≤ MAX_MOMENT }
    ensures { Recalls user.now (λ over a. over ≡ over_keys a moment) (state S.Store store.old) (state S.Store store.new) result }
{
    let below = half_handle(alloc, half_of(moment) - 1)?;
    store.reply_keys_between(user, &[3], below.as_slice())
}

/// Why nothing is delivered to a user without an open account: it is closed, or there is none.
pub(crate) fn absence<S: Alter>(store: &mut Store<S>, user: &[u8]) -> Result<Refusal, Refusal>
    ensures reads { ReadsAccounts (λ refusal accounts. refusal ≡ absence_of (get accounts user.now)) (state S.Store store.old) (state S.Store store.new) result }
    ensures told { IfOk result (λ refusal. (refusal ≡ Refusal.NoUser) ⊎ (refusal ≡ Refusal.AccountClosed)) }
{
    let Some(profile) = store.account(user)? else {
        return Ok(Refusal::NoUser);
    };
    if profile.is_removed() {
        return Ok(Refusal::NoUser);
    }
    Ok(Refusal::AccountClosed)
}

/// What a delivery has to know of the user's open account. An account whose address is no addr-spec is refused as `Store`: no
/// delivery to it is defined.
pub(crate) fn look_up<S: Alter>(
    alloc: Global,
    store: &mut Store<S>,
    user: &[u8],
) -> Result<Lookup, Refusal>
    ensures { LooksUp user.now IsLookup (state S.Store store.old) (state S.Store store.new) result }
{
    let ActiveScript { profile, text } = active_script(store, user)?;
    let Some(address) = bare_address(alloc, profile.address.as_slice())? else {
        return Err(Refusal::Store);
    };
    Ok(Lookup { address, text })
}

/// Writes the delivery, and tells what it reports.
fn carry_out<S: Alter>(store: &mut Store<S>, user: &[u8], plan: Plan<'_>) -> Result<Report, Refusal>
    ensures writes { WritesAccount user.now (delivers plan.entry) (state S.Store store.old) (state S.Store store.new) result }
    ensures told { IfOk result (λ report. report ≡ plan.entry.report) }
    ensures named { IfErr result IsTransient }
{
    commit(store, user, &plan)?;
    Ok(report_of(plan))
}

/// Writes the delivery. An account that was read a moment ago is there: a store that finds none is refused as `Store`.
fn commit<S: Alter>(store: &mut Store<S>, user: &[u8], plan: &Plan<'_>) -> Result<(), Refusal>
    ensures writes { WritesAccount user.now (delivers plan.now) (state S.Store store.old) (state S.Store store.new) result }
    ensures named { IfErr result IsTransient }
{
    match store.commit_delivery(user, plan) {
        Err(Refusal::NoUser) => Err(Refusal::Store),
        done => done,
    }
}

/// What the plan reports.
pub(crate) fn report_of(plan: Plan<'_>) -> Report
    ensures { result ≡ plan.entry.report }
{
    let Plan {
        message: _,
        sender: _,
        moment: _,
        filed: _,
        report,
        memory: _,
        reply: _,
    } = plan;
    report
}

/// The text that decides: that of the active script, and where none is active the host's default, if there is one. An active name
/// that no script has counts as none.
pub(crate) fn deciding<'t>(active: &'t Option<Octets>, host: &'t HostSettings) -> Option<&'t [u8]>
    ensures { borrowed_octets result ≡ script_or_default active.now host.now.default }
{
    match active {
        Some(text) => Some(text.as_slice()),
        None => as_deref(&host.default),
    }
}
