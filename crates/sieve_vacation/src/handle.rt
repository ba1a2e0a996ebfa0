//! What identifies a response (RFC 5230, 4.2).
ghost use Rattle.std.specs.Prelude.{◌≡◌, ◌↔◌, ◌<◌, ◌^◌, ◌++◌, IsTrue, IfOk, OnOk, option_copied};
ghost use Rattle.sieve_vacation.specs.Handles.{handle_of, handle_key_of, four_octets, key_part_of, from_text, HasShortTexts, IsShort};

use octets::Octets;
use sieve_syntax::{ReplyFrom, VacationArgs};
use std::alloc::{AllocError, Global};

/// The most octets of a text that can be part of a key, so that its length fits in four octets.
const MAX_TEXT_LEN: u64 = 4_294_967_295;

/// Returns the key under which it is remembered who received this response.
///
/// Two responses have the same key exactly if they have the same handle: the name that `:handle` gives, or otherwise the subject,
/// the text of `:from`, `:mime` and the reason together. Subject and `:from` have less than 2^32 octets each, as in any
/// checked script ([`has_short_texts`]). Linear in the texts; lack of memory is the only error.
pub fn handle_key(alloc: Global, args: &VacationArgs) -> Result<Octets, AllocError>
    requires { HasShortTexts (handle_of args.now) }
    ensures { IfOk result (λ key. key ≡ handle_key_of (handle_of args.now)) }
{
    let mut key = Octets::new(alloc);
    if let Some(name) = &args.handle {
        key.push(1)?;
        key.extend_from_slice(name.as_slice())?;
        return Ok(key);
    }
    key.push(2)?;
    push_part(&mut key, args.subject.as_ref())?;
    push_part(&mut key, written(&args.from))?;
    key.push(if args.mime { 1 } else { 0 })?;
    key.extend_from_slice(args.reason.as_slice())?;
    Ok(key)
}

/// Whether [`handle_key`] may be called: unless a name is given, subject and `:from` have less than 2^32 octets each.
pub fn has_short_texts(args: &VacationArgs) -> bool
    ensures { IsTrue result ↔ HasShortTexts (handle_of args.now) }
{
    if args.handle.is_some() {
        return true;
    }
    is_short(args.subject.as_ref()) && is_short(written(&args.from))
}

fn is_short(part: Option<&Octets>) -> bool
    ensures { IsTrue result ↔ IsShort (option_copied part.entry) }
{
    match part {
        Some(text) => text.as_slice().len() as u64 <= MAX_TEXT_LEN,
        None => true,
    }
}

/// The text of `:from`, as it was written.
fn written(from: &Option<ReplyFrom>) -> Option<&Octets>
    ensures { option_copied result ≡ from_text from.now }
{
    match from {
        Some(from) => Some(&from.text),
        None => None,
    }
}

/// Appends a text that may be absent.
fn push_part(key: &mut Octets, part: Option<&Octets>) -> Result<(), AllocError>
    requires { IsShort (option_copied part) }
    ensures { OnOk result (key.new ≡ key.old ++ key_part_of (option_copied part.entry)) }
{
    let Some(text) = part else {
        return key.push(0);
    };
    key.push(1)?;
    push_number(key, text.as_slice().len() as u64)?;
    key.extend_from_slice(text.as_slice())
}

/// Appends a number below 2^32 in four octets, the highest first.
pub fn push_number(key: &mut Octets, number: u64) -> Result<(), AllocError>
    requires { number < 2 ^ 32 }
    ensures { OnOk result (key.new ≡ key.old ++ four_octets number) }
{
    key.push((number / 16_777_216 % 256) as u8)?;
    key.push((number / 65_536 % 256) as u8)?;
    key.push((number / 256 % 256) as u8)?;
    key.push((number % 256) as u8)
}
