//! Whether a response is sent.
use crate::answering::Answering;
use octets::{Octets, parse_decimal, write_decimal};
use sieve_vacation::{AddressedMail, ReplyDecision, decide_reply};
use std::alloc::{AllocError, Global};
use test_files::{CaseTally, Section, split_at_first};

/// Tries one decision per line: the moment kept or `-`, this moment, and the reason's number or `send`.
pub fn try_decisions(
    alloc: Global,
    tally: &mut CaseTally,
    section: &Section<'_>,
    answering: Answering<'_>,
    mail: &AddressedMail<'_, '_>,
) -> Result<(), AllocError> {
    let mut number = section.line;
    for line in section.text.split('\n') {
        number = number.saturating_add(1);
        if !line.is_empty() {
            try_decision(alloc, tally, number, line, answering, mail)?;
        }
    }
    Ok(())
}

fn try_decision(
    alloc: Global,
    tally: &mut CaseTally,
    number: usize,
    line: &str,
    answering: Answering<'_>,
    mail: &AddressedMail<'_, '_>,
) -> Result<(), AllocError> {
    let (last, rest) = split_at_first(line, " ");
    let (moment, wanted) = split_at_first(rest, " ");
    let mut got = Octets::new(alloc);
    add_decided(&mut got, answering, mail, last, moment)?;
    tally.note(number, wanted.as_bytes(), got.as_slice())
}

fn add_decided(
    out: &mut Octets,
    answering: Answering<'_>,
    mail: &AddressedMail<'_, '_>,
    last: &str,
    moment: &str,
) -> Result<(), AllocError> {
    let Some(moment) = parse_decimal(moment.as_bytes()) else {
        return out.extend_from_slice(b"no moment");
    };
    let last = parse_decimal(last.as_bytes());
    let Answering { args, own } = answering;
    add(out, decide_reply(args, mail, own, last, moment))
}

fn add(out: &mut Octets, decision: ReplyDecision) -> Result<(), AllocError> {
    match decision {
        ReplyDecision::Send => out.extend_from_slice(b"send"),
        ReplyDecision::Quiet(reason) => write_decimal(out, u64::from(reason.number())),
    }
}
