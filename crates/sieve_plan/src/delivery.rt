//! What a delivery is to write and to report.
ghost use Rattle.std.specs.Prelude.{◌≡◌, ◌≤◌, ◌<◌, ◌^◌, ℕ, true, cond, length, IfOk, List, Option, map};
ghost use Rattle.mail_address.specs.declared.address.Addr.{Addr as Address};
ghost use Rattle.sieve_exec.specs.Mails.{mail_spec_of};
ghost use Rattle.mail_address.specs.Spelling.{address_spelling};
ghost use Rattle.store_accounts.specs.Account.{Account, delivers};
ghost use Rattle.store_accounts.specs.Cells.{borrowed_octets};
ghost use Rattle.sieve_plan.specs.declared.scripts.HostScripts.{HostScripts};
ghost use Rattle.sieve_plan.specs.Delivered.{has_long_header, with_inbox};
ghost use Rattle.sieve_plan.specs.Plans.{IsMemoryOf, IsNoticePlan};
ghost use Rattle.sieve_plan.specs.Sent.{redirect_key, sent_handle};
ghost use Rattle.sieve_plan.specs.Sequences.{CarriesOutSettled, DeliversInSequence, forgotten_unless, notice_left};
ghost use Rattle.sieve_plan.specs.SequencePlans.{notice_of, settled_of};
ghost use Rattle.sieve_plan.specs.Views.{IsViewOf};

use crate::deeds::Deeds;
use crate::limits::Limits;
use crate::notice::{FailureNotice, LONG_TEXT};
use crate::placements::{inbox, mailboxes, with_inbox};
use crate::sent::{half_of, redirect_key, sent_handle};
use crate::settlement::Settlement;
use crate::targets::not_among;
use crate::vacation::{VacationPlan, plan_vacation};
use crate::view::AccountView;
use mail_address::Addr;
use mail_flags::Placement;
use octets::{List, Octets, Texts};
use sieve_exec::{Envelope, Mail, When};
use sieve_vacation::MAX_MOMENT;
use std::alloc::{AllocError, Global};
use store_accounts::{Plan, ReplyKey, Report, SentMemory, VacationReport};

/// What a delivery of a mail is to write and to report, where the scripts come to this: what they do, as far as the message may be sent
/// on, and one notice at most.
///
/// The mail's moment is at most [`MAX_MOMENT`]. The message and the sender are borrowed: no copy of the message is made. Where it is
/// sent on its name is hashed, in time linear in its first Message-ID field or, without one, in its body; where a `vacation` was
/// executed the fields are looked through for reasons to send no response. Lack of memory is the only error; a `:subject` or
/// `:from` of 2^32 octets and more, which no script within the limits has, is answered so too.
pub fn plan<'m>(
    alloc: Global,
    view: AccountView,
    mail: &'m Mail<'_>,
    settlement: Settlement,
) -> Result<Plan<'m>, AllocError>
    requires { mail.now.moment ≤ MAX_MOMENT }
    ensures { IfOk result (λ plan. (a : Account) → IsViewOf view mail.now (settled_of settlement).deeds a
        → CarriesOutSettled view.address mail.now.moment mail.now (settled_of settlement) a plan.report (delivers plan a)) }
{
    let Settlement { deeds, notice } = settlement;
    let Deeds { filed, sent, reply } = deeds;
    let limits = Limits::new(view.room, mail.message().len(), view.known.len());
    let fresh = not_among(alloc, view.known.as_slice(), sent.as_slice())?;
    let held = limits.held_notice(sent.len(), fresh.len());
    let going = limits.let_through(fresh);
    let filed = filed_as(alloc, filed, going.len() < sent.len())?;
    let left = view.room.saturating_sub(going.len() as u64);
    let VacationPlan { vacation, reply } = plan_vacation(
        alloc,
        &view.address,
        view.last,
        left,
        mail,
        reply.as_ref(),
    )?;
    let names = mailboxes(alloc, filed.as_slice())?;
    let over = forgotten_unless(alloc, notice, view.over);
    let memory = memory_of(alloc, mail, going.as_slice(), over)?;
    let notice = notice_left(alloc, notice, held)?;
    Ok(Plan {
        message: mail.message(),
        sender: mail.from(),
        moment: mail.moment(),
        filed,
        report: Report {
            filed: names,
            sent: going,
            vacation,
            notice,
        },
        memory,
        reply,
    })
}

/// Returns what a delivery of a message with a long header is to write and to report, whatever the account and the scripts are: none
/// of its fields is read.
///
/// Takes only the memory of the notice and of INBOX's name. Lack of memory is the only error.
pub fn plan_unread<'m>(
    alloc: Global,
    message: &'m [u8],
    envelope: &'m Envelope,
    when: When,
) -> Result<Plan<'m>, AllocError>
    requires { has_long_header message.now ≡ true }
    ensures { IfOk result (λ plan. (own : Address) (host : HostScripts) (text : Option (List ℕ)) (a : Account)
        → DeliversInSequence own host (mail_spec_of message.now envelope.now when) text a plan.report (delivers plan a)) }
{
    tell(
        alloc,
        message,
        envelope.from.as_slice(),
        when.moment,
        LONG_TEXT,
    )
}

/// The message joins INBOX, and the user is left a notice.
fn tell<'m>(
    alloc: Global,
    message: &'m [u8],
    sender: &'m [u8],
    moment: u64,
    text: &[u8],
) -> Result<Plan<'m>, AllocError>
    ensures { IfOk result (IsNoticePlan moment message.now text.now) }
{
    let filed = inbox(alloc)?;
    let names = mailboxes(alloc, filed.as_slice())?;
    let notice = Octets::from_slice(alloc, text)?;
    Ok(Plan {
        message,
        sender,
        moment,
        filed,
        report: Report {
            filed: names,
            sent: Texts::new(alloc),
            vacation: VacationReport::None,
            notice: Some(notice),
        },
        memory: SentMemory::none(alloc),
        reply: None,
    })
}

/// The mailboxes, and INBOX among them where the message doesn't go to all addresses.
fn filed_as(
    alloc: Global,
    filed: List<Placement>,
    is_held: bool,
) -> Result<List<Placement>, AllocError>
    ensures { IfOk result (λ all. all ≡ cond is_held (with_inbox filed) filed) }
{
    if is_held {
        return with_inbox(alloc, filed);
    }
    Ok(filed)
}

/// The notice that is left: that of a failure goes before that of mail that isn't sent on.
fn notice_left(
    alloc: Global,
    why: Option<FailureNotice>,
    held: Option<&[u8]>,
) -> Result<Option<Octets>, AllocError>
    ensures { IfOk result (λ notice. notice ≡ notice_left (notice_of why) (borrowed_octets held.entry)) }
{
    match (why, held) {
        (Some(why), _) => Ok(Some(why.text(alloc)?)),
        (None, Some(text)) => Ok(Some(Octets::from_slice(alloc, text)?)),
        (None, None) => Ok(None),
    }
}

/// What is over is forgotten, unless there was a failure.
fn forgotten_unless(
    alloc: Global,
    why: Option<FailureNotice>,
    over: List<ReplyKey>,
) -> List<ReplyKey>
    ensures { result ≡ forgotten_unless (notice_of why) over }
{
    match why {
        Some(_) => List::new(alloc),
        None => over,
    }
}

/// What is remembered of the mail as it goes to these addresses; what is over is forgotten.
fn memory_of(
    alloc: Global,
    mail: &Mail<'_>,
    going: &[Octets],
    over: List<ReplyKey>,
) -> Result<SentMemory, AllocError>
    requires { mail.now.moment ≤ MAX_MOMENT }
    ensures { IfOk result (λ memory. (targets : List Address) → going.now ≡ map address_spelling targets → IsMemoryOf over mail.now targets memory) }
{
    let message = key_if_sent(alloc, mail, going)?;
    let half = half_of(mail.moment());
    let handles = handles_of(alloc, half, message.as_slice(), going)?;
    Ok(SentMemory {
        message,
        handles,
        forgotten: over,
    })
}

/// The key of the mail, if it goes to some address.
fn key_if_sent(alloc: Global, mail: &Mail<'_>, going: &[Octets]) -> Result<Octets, AllocError>
    ensures { IfOk result (λ key. 0 < length going.now → key ≡ redirect_key mail.now) }
{
    if going.is_empty() {
        return Ok(Octets::new(alloc));
    }
    redirect_key(alloc, mail)
}

/// The handles' keys under which it is kept that a message went to these addresses in this half day.
fn handles_of(alloc: Global, half: u64, key: &[u8], going: &[Octets]) -> Result<Texts, AllocError>
    requires { half < 2 ^ 32 }
    ensures { IfOk result (λ handles. handles ≡ map (sent_handle half key.now) going.now) }
{
    let mut handles = Texts::new(alloc);
    for target in going {
        handles.push(sent_handle(alloc, half, key, target.as_slice())?)?;
    }
    Ok(handles)
}
