//! Whether a response is sent.
ghost use Rattle.std.specs.Prelude.{◌≡◌};
ghost use Rattle.std.specs.List.{list_any};
ghost use Rattle.sieve_vacation.specs.Cases as cases;
ghost use Rattle.sieve_vacation.specs.Reasons.{decision_of};

use crate::addressed::AddressedMail;
use crate::fields::{Sign, has_sign};
use crate::reason::{Reason, ReplyDecision};
use crate::sender::{is_bad, is_robot, is_users};
use mail_address::Addr;
use sieve_syntax::VacationArgs;

/// The number of seconds in a day.
const DAY_LEN: u64 = 86_400;

/// The period in days if `:days` isn't given (RFC 5230, 4.1).
const DEFAULT_DAYS: u64 = 7;

/// The longest period in days, which RFC 5230, 4.1, lets a site choose; the shortest is one day.
const MAX_DAYS: u64 = 365;

/// The longest period in seconds, which RFC 6131, 2, lets a site choose.
const MAX_SECONDS: u64 = MAX_DAYS * DAY_LEN;

/// Decides whether the user with this address responds to this mail at this moment; quiet for the first reason
/// against it.
///
/// `last` is the moment that is kept for this response and this sender, if one is. A moment is in seconds since 1 January
/// 1970. Two passes over the fields for one reason, one for each of two others, and none over the body; takes no memory.
pub fn decide_reply(
    args: &VacationArgs,
    mail: &AddressedMail<'_, '_>,
    own: &Addr,
    last: Option<u64>,
    moment: u64,
) -> ReplyDecision
    ensures { result ≡ decision_of args.now mail.now own.now last moment }
{
    let sender = mail.mail().from();
    if sender.is_empty() {
        return ReplyDecision::Quiet(Reason::NullSender);
    }
    if is_bad(sender) {
        return ReplyDecision::Quiet(Reason::BadSender);
    }
    if is_robot(sender) {
        return ReplyDecision::Quiet(Reason::RobotSender);
    }
    if is_users(args, mail.mail(), own, sender) {
        return ReplyDecision::Quiet(Reason::OwnSender);
    }
    if has_sign(mail.mail(), Sign::Automatic) || has_sign(mail.mail(), Sign::Suppressing) {
        return ReplyDecision::Quiet(Reason::Automatic);
    }
    if has_sign(mail.mail(), Sign::ListMail) {
        return ReplyDecision::Quiet(Reason::ListMail);
    }
    if has_sign(mail.mail(), Sign::Bulk) {
        return ReplyDecision::Quiet(Reason::Bulk);
    }
    if !is_addressed(args, mail, own) {
        return ReplyDecision::Quiet(Reason::NotAddressed);
    }
    if is_too_soon(args, last, moment) {
        return ReplyDecision::Quiet(Reason::TooSoon);
    }
    ReplyDecision::Send
}

/// Whether an address of the user is among the recipients.
fn is_addressed(args: &VacationArgs, mail: &AddressedMail<'_, '_>, own: &Addr) -> bool
    ensures { result ≡ list_any (cases.is_users args.now mail.now own.now) (cases.recipients_of mail.now) }
{
    for one in mail.recipients().as_slice() {
        if is_users(args, mail.mail(), own, one.as_slice()) {
            return true;
        }
    }
    false
}

/// Whether the period since the kept moment isn't over.
fn is_too_soon(args: &VacationArgs, last: Option<u64>, moment: u64) -> bool
    ensures { result ≡ cases.is_too_soon args.now last moment }
{
    let Some(kept) = last else {
        return false;
    };
    let period = period(args);
    period > 0 && (moment < kept || moment - kept < period)
}

/// The period in seconds.
fn period(args: &VacationArgs) -> u64
    ensures { result ≡ cases.period_of args.now }
{
    match args.seconds {
        Some(seconds) => seconds.min(MAX_SECONDS),
        None => days_period(args.days),
    }
}

/// The period in seconds, given the days.
fn days_period(days: Option<u64>) -> u64
    ensures { result ≡ cases.days_period days }
{
    days.unwrap_or(DEFAULT_DAYS).min(MAX_DAYS).max(1) * DAY_LEN
}
