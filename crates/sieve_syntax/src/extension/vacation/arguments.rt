//! The arguments of `vacation` (RFC 5230, 4).
ghost use Rattle.std.specs.Prelude.{◌≡◌, List, Option, IfOk, OnOk, option_copied};
ghost use Rattle.sieve_syntax.specs.declared.extension.vacation.VacationArgs.{VacationArgs};
ghost use Rattle.sieve_syntax.specs.declared.extension.vacation.ReplyFrom.{ReplyFrom};
ghost use Rattle.sieve_syntax.specs.Parsing.{FindsValue, IfParseFault};
ghost use Rattle.sieve_syntax.specs.Extension.Vacation.{days_in, subject_in, from_in, addresses_in, mime_in, handle_in, IsReplyFrom, IsGivenFrom, AreNamed, AddsNamed, SaysVacation, IsVacation};

use crate::error::ParseError;
use crate::extension::vacation::{ReplyFrom, VacationArgs};
use crate::extension::vacation_seconds::given_seconds;
use crate::parser::argument::Argument;
use crate::table::positional::text;
use crate::table::redirect::{named_address, outbound};
use crate::table::tag_group::{TagGroup, TagValue, split_tags};
use mail_address::Addr;
use octets::{List, Octets};
use std::alloc::{AllocError, Global};

/// Reads the arguments of `vacation`.
pub(crate) fn read_vacation(
    alloc: Global,
    args: &[Argument<'_>],
) -> Result<VacationArgs, ParseError>
    ensures { FindsValue (IsVacation args.now) result }
{
    let allowed = &[
        TagGroup::Period,
        TagGroup::Subject,
        TagGroup::From,
        TagGroup::Addresses,
        TagGroup::Mime,
        TagGroup::Handle,
    ];
    let (tag_values, positional) = split_tags(alloc, args, allowed)?;
    vacation_from(alloc, tag_values.as_slice(), positional)
}

fn vacation_from(
    alloc: Global,
    tag_values: &[TagValue],
    positional: &[Argument<'_>],
) -> Result<VacationArgs, ParseError>
    ensures { FindsValue (SaysVacation tag_values.now positional.now) result }
{
    let reason = text(alloc, positional)?;
    let addresses = given_addresses(alloc, tag_values)?;
    let from = given_from(alloc, tag_values)?;
    let (subject, handle) = given_texts(alloc, tag_values)?;
    Ok(VacationArgs {
        days: given_days(tag_values),
        seconds: given_seconds(tag_values),
        subject,
        from,
        addresses,
        mime: given_mime(tag_values),
        handle,
        reason,
    })
}

/// The subject and the handle, if they are given.
fn given_texts(
    alloc: Global,
    tag_values: &[TagValue],
) -> Result<(Option<Octets>, Option<Octets>), AllocError>
    ensures subject { IfOk result (λ both. both.0 ≡ subject_in tag_values.now) }
    ensures handle { IfOk result (λ both. both.1 ≡ handle_in tag_values.now) }
{
    let subject = given_subject(alloc, tag_values)?;
    let handle = given_handle(alloc, tag_values)?;
    Ok((subject, handle))
}

/// The value of `:from`, if one is given.
fn given_from(alloc: Global, tag_values: &[TagValue]) -> Result<Option<ReplyFrom>, ParseError>
    ensures found { IfOk result (λ from. IsGivenFrom (from_in tag_values.now) from) }
    ensures fault { IfParseFault result ((from : Option ReplyFrom) → IsGivenFrom (from_in tag_values.now) from → ⊥) }
{
    match from_text(tag_values) {
        Some(text) => Ok(Some(reply_from(alloc, text)?)),
        None => Ok(None),
    }
}

/// The text of `:from`, if one is given.
fn from_text(tag_values: &[TagValue]) -> Option<&Octets>
    ensures { option_copied result ≡ from_in tag_values.now }
{
    for tag_value in tag_values {
        if let TagValue::From(text) = tag_value {
            return Some(text);
        }
    }
    None
}

fn reply_from(alloc: Global, text: &Octets) -> Result<ReplyFrom, ParseError>
    ensures found { IfOk result (λ from. IsReplyFrom text.now from) }
    ensures fault { IfParseFault result ((from : ReplyFrom) → IsReplyFrom text.now from → ⊥) }
{
    let (display, address) = outbound(alloc, text.as_slice())?;
    Ok(ReplyFrom {
        text: text.try_clone(alloc)?,
        display,
        address,
    })
}

/// The addresses that the texts of `:addresses` name; none if it isn't given.
fn given_addresses(alloc: Global, tag_values: &[TagValue]) -> Result<List<Addr>, AllocError>
    ensures { IfOk result (λ addresses. AreNamed (addresses_in tag_values.now) addresses) }
{
    for tag_value in tag_values {
        if let TagValue::Addresses(texts) = tag_value {
            return addresses_named(alloc, texts.as_slice());
        }
    }
    Ok(List::new(alloc))
}

/// The addresses of those texts that name one.
fn addresses_named(alloc: Global, texts: &[Octets]) -> Result<List<Addr>, AllocError>
    ensures { IfOk result (λ addresses. AreNamed texts.now addresses) }
{
    let mut addresses = List::new(alloc);
    for text in texts {
        add_named(alloc, &mut addresses, text.as_slice())?;
    }
    Ok(addresses)
}

/// Appends the address that the text names, if it names one.
fn add_named(alloc: Global, addresses: &mut List<Addr>, text: &[u8]) -> Result<(), AllocError>
    ensures { OnOk result (AddsNamed text.now addresses.old addresses.new) }
{
    match named_address(alloc, text)? {
        Some((_display, address)) => addresses.push(address),
        None => Ok(()),
    }
}

/// The days of `vacation`, if they are given.
pub(crate) fn given_days(tag_values: &[TagValue]) -> Option<u64>
    ensures { result ≡ days_in tag_values.now }
{
    for tag_value in tag_values {
        if let TagValue::Days(days) = tag_value {
            return Some(*days);
        }
    }
    None
}

/// Its subject, if one is given.
pub(crate) fn given_subject(
    alloc: Global,
    tag_values: &[TagValue],
) -> Result<Option<Octets>, AllocError>
    ensures { IfOk result (λ found. found ≡ subject_in tag_values.now) }
{
    for tag_value in tag_values {
        if let TagValue::Subject(subject) = tag_value {
            return Ok(Some(subject.try_clone(alloc)?));
        }
    }
    Ok(None)
}

/// Whether its reason is a MIME entity.
pub(crate) fn given_mime(tag_values: &[TagValue]) -> bool
    ensures { result ≡ mime_in tag_values.now }
{
    for tag_value in tag_values {
        if let TagValue::Mime = tag_value {
            return true;
        }
    }
    false
}

/// Its handle, if one is given.
pub(crate) fn given_handle(
    alloc: Global,
    tag_values: &[TagValue],
) -> Result<Option<Octets>, AllocError>
    ensures { IfOk result (λ found. found ≡ handle_in tag_values.now) }
{
    for tag_value in tag_values {
        if let TagValue::Handle(handle) = tag_value {
            return Ok(Some(handle.try_clone(alloc)?));
        }
    }
    Ok(None)
}
