//! What is remembered of messages that were sent on.
ghost use Rattle.std.specs.Prelude.{◌≡◌, ◌+◌, ◌≤◌, ◌<◌, ◌^◌, ◌∷◌, IfOk};
ghost use Rattle.mail_head.specs.Heads.{body_of};
ghost use Rattle.sieve_plan.specs.Sent as specs;

use mail_head::{after_empty_line, first_line, unfold_value};
use octets::{Octets, Texts, trim_blanks};
use sha2::{Digest, Sha256};
use sieve_exec::Mail;
use sieve_vacation::{MAX_MOMENT, first_raw, push_number};
use std::alloc::{AllocError, Global};

/// For so long a message isn't sent to the same address again: 12 hours, in seconds. A message that goes round comes again within
/// minutes; one that is sent again by hand, or a daily report that has a name of its own, comes later.
const HALF_DAY: u64 = 43_200;

/// Under this key it is kept that a message was sent on: 32 octets, the SHA-256 of octet 1 and the value of its first Message-ID
/// field, or of octet 2 and its body where that is absent or empty.
///
/// Time is linear in the field or in the body, which is passed over then.
pub fn redirect_key(alloc: Global, mail: &Mail<'_>) -> Result<Octets, AllocError>
    ensures { IfOk result (λ key. key ≡ specs.redirect_key mail.now) }
{
    let id = message_id(alloc, mail)?;
    if id.is_empty() {
        return body_key(alloc, mail);
    }
    digest_of(alloc, 1, id.as_slice())
}

/// The keys under which it is looked up whether a message was sent on: its own, and that of its body if it has a Message-ID, since
/// a mail server may have given it one on the way.
///
/// Time is linear in the field and in the body.
pub fn redirect_keys(alloc: Global, mail: &Mail<'_>) -> Result<Texts, AllocError>
    ensures { IfOk result (λ keys. keys ≡ specs.redirect_keys mail.now) }
{
    let id = message_id(alloc, mail)?;
    let mut keys = Texts::new(alloc);
    if !id.is_empty() {
        keys.push(digest_of(alloc, 1, id.as_slice())?)?;
    }
    keys.push(body_key(alloc, mail)?)?;
    Ok(keys)
}

/// The value of the first Message-ID field, unfolded and without the blanks at its ends; empty where there is none.
fn message_id(alloc: Global, mail: &Mail<'_>) -> Result<Octets, AllocError>
    ensures { IfOk result (λ id. id ≡ specs.message_id_of mail.now) }
{
    let Some(raw) = first_raw(b"message-id", mail.fields()) else {
        return Ok(Octets::new(alloc));
    };
    let value = unfold_value(alloc, raw)?;
    Octets::from_slice(alloc, trim_blanks(value.as_slice()))
}

/// The key of octet 2 and the body.
fn body_key(alloc: Global, mail: &Mail<'_>) -> Result<Octets, AllocError>
    ensures { IfOk result (λ key. key ≡ specs.key_of (2 ∷ body_of mail.now.octets)) }
{
    digest_of(alloc, 2, body_of(mail.message()))
}

/// What follows the first empty line; nothing where no line is empty.
fn body_of(message: &[u8]) -> &[u8]
    ensures { result.now ≡ body_of message.now }
{
    let mut rest = message;
    while !rest.is_empty() {
        if let Some(body) = after_empty_line(rest) {
            return body;
        }
        (_, rest) = first_line(rest);
    }
    rest
}

/// The key of an octet and a text.
fn digest_of(alloc: Global, kind: u8, text: &[u8]) -> Result<Octets, AllocError>
    ensures { IfOk result (λ key. key ≡ specs.key_of (kind ∷ text.now)) }
{
    let mut hasher = Sha256::new();
    hasher.update([kind]);
    hasher.update(text);
    Octets::from_slice(alloc, &hasher.finalize())
}

/// The number of a moment's half day, counted from 1 as 1970 begins, so that each has one before it.
pub fn half_of(moment: u64) -> u64
    requires { moment ≤ MAX_MOMENT }
    ensures is_half { result ≡ specs.half_of moment }
    ensures later { 1 ≤ result }
    ensures fits { result + 1 < 2 ^ 32 }
{
    moment / HALF_DAY + 1
}

/// What the handles' keys of a half day begin with, under which it is kept that messages were sent on.
pub fn half_handle(alloc: Global, half: u64) -> Result<Octets, AllocError>
    requires { half < 2 ^ 32 }
    ensures { IfOk result (λ key. key ≡ specs.half_handle half) }
{
    let mut handle = Octets::new(alloc);
    handle.push(3)?;
    push_number(&mut handle, half)?;
    Ok(handle)
}

/// The handle's key under which it is kept that the message with this key was sent to an address in this half day.
pub fn sent_handle(
    alloc: Global,
    half: u64,
    key: &[u8],
    target: &[u8],
) -> Result<Octets, AllocError>
    requires { half < 2 ^ 32 }
    ensures { IfOk result (λ handle. handle ≡ specs.sent_handle half key.now target.now) }
{
    let mut handle = half_handle(alloc, half)?;
    handle.extend_from_slice(key)?;
    handle.push(0)?;
    handle.extend_from_slice(target)?;
    Ok(handle)
}

/// What stands behind all of these of a message and a half day.
pub fn sent_end(alloc: Global, half: u64, key: &[u8]) -> Result<Octets, AllocError>
    requires { half < 2 ^ 32 }
    ensures { IfOk result (λ handle. handle ≡ specs.sent_end half key.now) }
{
    let mut handle = half_handle(alloc, half)?;
    handle.extend_from_slice(key)?;
    handle.push(1)?;
    Ok(handle)
}

/// Whether a moment is kept that is less than 12 hours from this one.
pub fn is_near_if(moment: u64, kept: Option<u64>) -> bool
    ensures { result ≡ specs.is_near_if moment kept }
{
    match kept {
        Some(kept) => moment.abs_diff(kept) < HALF_DAY,
        None => false,
    }
}
