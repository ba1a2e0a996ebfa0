//! Logins by PLAIN, and kept passwords (RFC 4616).
use crate::line::add_text_pair;
use octets::{Octets, parse_decimal};
use sasl_plain::{Login, PasswordHash, accepts, digest, plain};
use std::alloc::{AllocError, Global};
use test_files::text_in;

/// What comes of a row that has other columns than its call takes.
const NOT_THAT_MANY: &[u8] = b"not that many columns";

/// What a call makes of its columns.
pub fn answer_login(alloc: Global, out: &mut Octets, given: &[Octets]) -> Result<(), AllocError> {
    let Some((call, given)) = given.split_first() else {
        return Ok(());
    };
    match text_in(call.as_slice()) {
        "plain" => add_plain(alloc, out, given),
        "digest" => add_digest(out, given),
        "accepts" => add_accepted(alloc, out, given),
        _ => out.extend_from_slice(b"no such call"),
    }
}

fn add_plain(alloc: Global, out: &mut Octets, given: &[Octets]) -> Result<(), AllocError> {
    let [text] = given else {
        return out.extend_from_slice(NOT_THAT_MANY);
    };
    match plain(alloc, text.as_slice())? {
        Some(login) => add_login(out, &login),
        None => Ok(()),
    }
}

fn add_login(out: &mut Octets, login: &Login) -> Result<(), AllocError> {
    add_text_pair(out, (login.user.as_slice(), login.password.as_slice()))
}

fn add_digest(out: &mut Octets, given: &[Octets]) -> Result<(), AllocError> {
    let [salt, rounds, password] = given else {
        return out.extend_from_slice(NOT_THAT_MANY);
    };
    let digest = digest(salt.as_slice(), rounds_of(rounds), password.as_slice());
    out.extend_from_slice(&digest)
}

fn add_accepted(alloc: Global, out: &mut Octets, given: &[Octets]) -> Result<(), AllocError> {
    let [salt, rounds, kept, password] = given else {
        return out.extend_from_slice(NOT_THAT_MANY);
    };
    let record = record_of(alloc, salt, rounds, kept)?;
    out.extend_from_slice(yes_or_no(accepts(&record, password.as_slice())))
}

fn record_of(
    alloc: Global,
    salt: &Octets,
    rounds: &Octets,
    kept: &Octets,
) -> Result<PasswordHash, AllocError> {
    let salt = salt.try_clone(alloc)?;
    let digest = kept.try_clone(alloc)?;
    Ok(PasswordHash {
        salt,
        rounds: rounds_of(rounds),
        digest,
    })
}

fn yes_or_no(accepted: bool) -> &'static [u8] {
    if accepted { b"yes" } else { b"no" }
}

fn rounds_of(rounds: &Octets) -> u32 {
    match parse_decimal(rounds.as_slice()) {
        Some(rounds) => u32::try_from(rounds).unwrap_or(0),
        None => 0,
    }
}
