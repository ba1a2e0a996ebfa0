//! What is done about `vacation` (RFC 5230).
ghost use Rattle.std.specs.Prelude.{◌≡◌, ◌≤◌, ◌<◌, IfOk, option_copied};
ghost use Rattle.sieve_vacation.specs.Handles.{HasShortTexts, handle_of, handle_key_of};
ghost use Rattle.store_accounts.specs.declared.report.VacationReport.TheVariants.{Quiet};
ghost use Rattle.sieve_plan.specs.Plans.{IsVacationPlan, SendsReply, unsent_plan};

use mail_address::Addr;
use octets::Octets;
use sieve_exec::Mail;
use sieve_syntax::VacationArgs;
use sieve_vacation::{
    AddressedMail, MAX_MOMENT, ReplyDecision, decide_reply, handle_key, has_short_texts,
    reply_bytes,
};
use std::alloc::{AllocError, Global};
use store_accounts::{VacationReply, VacationReport, latest};

/// The number of the reason that there is no room for a response in the queue.
const NO_ROOM: u8 = 10;

/// What is to be done about `vacation`.
#[derive(Drop)]
pub struct VacationPlan {
    pub vacation: VacationReport,
    /// The response, if one is sent.
    pub reply: Option<VacationReply>,
}

/// Returns what is to be done about the `vacation` that was executed, if one was.
///
/// If one was, the recipients of the mail are read. A subject or `:from` of 2^32 octets or more, which no script within
/// the limits has, counts as lack of memory.
pub(crate) fn plan_vacation(
    alloc: Global,
    own: &Addr,
    last: Option<u64>,
    room: u64,
    mail: &Mail<'_>,
    reply: Option<&VacationArgs>,
) -> Result<VacationPlan, AllocError>
    requires { mail.now.moment ≤ MAX_MOMENT }
    ensures { IfOk result (IsVacationPlan own.now mail.now last room (option_copied reply.entry)) }
{
    let Some(args) = reply else {
        return Ok(unsent(VacationReport::None));
    };
    if !has_short_texts(args) {
        return Err(AllocError);
    }
    let addressed = AddressedMail::read(alloc, mail)?;
    match decide_reply(args, &addressed, own, last, mail.moment()) {
        ReplyDecision::Send => send_in(alloc, own, mail, args, last, room),
        ReplyDecision::Quiet(reason) => Ok(unsent(VacationReport::Quiet(reason.number()))),
    }
}

/// No response is sent, and nothing is kept.
fn unsent(vacation: VacationReport) -> VacationPlan
    ensures { result ≡ unsent_plan vacation }
{
    VacationPlan {
        vacation,
        reply: None,
    }
}

/// The response is sent if there is room for it in the queue. `last` is the moment that is kept under its key, if one is.
fn send_in(
    alloc: Global,
    own: &Addr,
    mail: &Mail<'_>,
    args: &VacationArgs,
    last: Option<u64>,
    room: u64,
) -> Result<VacationPlan, AllocError>
    requires short { HasShortTexts (handle_of args.now) }
    requires early { mail.now.moment ≤ MAX_MOMENT }
    ensures crowded { IfOk result (λ plan. room ≡ 0 → plan ≡ unsent_plan (Quiet 10)) }
    ensures sends { IfOk result (λ plan. 0 < room → SendsReply own.now mail.now args.now (handle_key_of (handle_of args.now)) last plan) }
{
    if room == 0 {
        return Ok(unsent(VacationReport::Quiet(NO_ROOM)));
    }
    let key = handle_key(alloc, args)?;
    send(alloc, own, mail, args, key, last)
}

/// The response with this key is sent. `last` is the moment that is kept under the key, if one is.
fn send(
    alloc: Global,
    own: &Addr,
    mail: &Mail<'_>,
    args: &VacationArgs,
    key: Octets,
    last: Option<u64>,
) -> Result<VacationPlan, AllocError>
    requires { mail.now.moment ≤ MAX_MOMENT }
    ensures { IfOk result (SendsReply own.now mail.now args.now key last) }
{
    let message = reply_bytes(alloc, args, mail, own, mail.moment())?;
    Ok(VacationPlan {
        vacation: VacationReport::Sent,
        reply: Some(VacationReply {
            handle: key,
            message,
            moment: latest(last, mail.moment()),
        }),
    })
}
