//! What a recipient is told of a message that was to be delivered.
ghost use Rattle.std.specs.Prelude.{◌≡◌};
ghost use Rattle.std.specs.List.{list_any};
ghost use Rattle.store_engine.specs.Limits.{is_envelope_address, is_forbidden_octet};
ghost use Rattle.daemon_core.specs.LmtpSteps as lmtp_steps;

use crate::report::line_of_report;
use lmtp_dialogue::{LmtpReply, RecipientReply};
use std::alloc::Global;
use store_engine::{Answer, Refusal};

/// What a recipient is told of what the store answered.
pub fn reply_for_delivery(alloc: Global, sender: &[u8], answer: &Answer) -> RecipientReply
    ensures { lmtp_steps.IsDeliveryReply sender.now answer.now result }
{
    match answer {
        Answer::Delivered(report) => RecipientReply::Delivered(line_of_report(alloc, report)),
        Answer::Refused(refusal) => RecipientReply::Refused(reply_to(sender, *refusal)),
        _ => RecipientReply::Refused(LmtpReply::LocalFault),
    }
}

/// How a recipient is told that a delivery was refused.
fn reply_to(sender: &[u8], refusal: Refusal) -> LmtpReply
    ensures { result ≡ lmtp_steps.refusal_reply sender.now refusal }
{
    match refusal {
        Refusal::NoUser => LmtpReply::NoSuchUser,
        Refusal::AccountClosed => LmtpReply::AccountClosed,
        Refusal::TooLarge => LmtpReply::MessageTooLarge,
        Refusal::BadEnvelope => envelope_reply(sender),
        Refusal::Memory => LmtpReply::NoRoom,
        _ => LmtpReply::LocalFault,
    }
}

fn envelope_reply(sender: &[u8]) -> LmtpReply
    ensures { result ≡ lmtp_steps.envelope_reply (is_envelope_address sender.now) }
{
    if is_address(sender) {
        LmtpReply::BadRecipient
    } else {
        LmtpReply::BadSender
    }
}

fn is_address(text: &[u8]) -> bool
    ensures { result ≡ is_envelope_address text.now }
{
    text.len() <= 1024 && !has_forbidden_octet(text)
}

fn has_forbidden_octet(text: &[u8]) -> bool
    ensures { result ≡ list_any is_forbidden_octet text.now }
{
    text.iter()
        .any(|octet| *octet == 0 || *octet == b'\n' || *octet == b'\r')
}
