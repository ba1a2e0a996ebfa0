//! What MAIL and RCPT are about.
ghost use Rattle.std.specs.Prelude.{◌≡◌, ◌↔◌, ◌≤◌, ℕ, List, Option, None, IsTrue, IfSome, IfNone, IfOk, IfErr, Ok, Err, length};
ghost use Rattle.std.specs.List.{list_all};
ghost use Rattle.octets.specs.Ascii.{is_digit};
ghost use Rattle.lmtp_dialogue.specs.Arguments as s;

use crate::path::{read_path, strip};
use crate::verb::word_length;
use octets::parse_decimal;

/// The most octets of an address: this project's own limit.
pub const MAX_ADDRESS: usize = 1024;

/// What is wrong with the argument of MAIL or RCPT.
#[derive(Clone, Copy, Debug, PartialEq, Eq)]
pub enum ArgumentFault {
    /// It doesn't begin with `FROM:` or `TO:`.
    Syntax,
    /// There is no path, or its address is too long, or it is a recipient's and empty.
    Address,
    /// A parameter that isn't known, or has a value that it may not have.
    Parameter,
}

/// The recipient that RCPT is about. One pass; takes no memory.
pub fn read_recipient(argument: &[u8]) -> Result<&[u8], ArgumentFault>
    ensures { s.ReadsRecipient argument.now (s.result_octets result) }
{
    let Some(text) = after_word(argument, b"TO:") else {
        return Err(ArgumentFault::Syntax);
    };
    let Some(path) = read_path(text) else {
        return Err(ArgumentFault::Address);
    };
    if !takes_recipient(path.address) {
        return Err(ArgumentFault::Address);
    }
    if path.rest.is_empty() {
        Ok(path.address)
    } else {
        Err(ArgumentFault::Parameter)
    }
}

/// What MAIL is about.
#[derive(Clone, Copy)]
pub struct MailArgument<'a> {
    /// The sender's address; empty for that of a bounce.
    pub from: &'a [u8],
    /// How many octets the message will have, if that is announced (RFC 1870).
    pub size: Option<u64>,
}

/// What MAIL is about. One pass; takes no memory.
pub fn read_mail(argument: &[u8]) -> Result<MailArgument<'_>, ArgumentFault>
    ensures { s.ReadsMail argument.now (s.announced_mail result) }
{
    let Some(text) = after_word(argument, b"FROM:") else {
        return Err(ArgumentFault::Syntax);
    };
    let Some(path) = read_path(text) else {
        return Err(ArgumentFault::Address);
    };
    if path.address.len() > MAX_ADDRESS {
        return Err(ArgumentFault::Address);
    }
    match read_parameters(path.rest) {
        Ok(size) => Ok(MailArgument {
            from: path.address,
            size,
        }),
        Err(fault) => Err(fault),
    }
}

// The last size among parameters, each with a SP before it.
fn read_parameters(rest: &[u8]) -> Result<Option<u64>, ArgumentFault>
    ensures { s.ReadsParameters rest.now None result }
{
    let mut left = rest;
    let mut size = None;
    while !left.is_empty() {
        let Some(more) = strip(left, b' ') else {
            return Err(ArgumentFault::Parameter);
        };
        let count = word_length(more);
        let Ok(here) = read_parameter(&more[..count]) else {
            return Err(ArgumentFault::Parameter);
        };
        size = later(size, here);
        left = &more[count..];
    }
    Ok(size)
}

// The later size, if there is one.
fn later(earlier: Option<u64>, here: Option<u64>) -> Option<u64>
    ensures { result ≡ s.or_earlier earlier here }
{
    match here {
        Some(size) => Some(size),
        None => earlier,
    }
}

// A parameter: a size, or one that changes nothing here.
fn read_parameter(text: &[u8]) -> Result<Option<u64>, ArgumentFault>
    ensures found { IfOk result (λ size. s.IsParameter text.now size) }
    ensures none { IfErr result (λ fault. (size : Option ℕ) → s.IsParameter text.now size → ⊥) }
{
    if let Some(digits) = after_word(text, b"SIZE=") {
        return match parse_size(digits) {
            Some(size) => Ok(Some(size)),
            None => Err(ArgumentFault::Parameter),
        };
    }
    if text.eq_ignore_ascii_case(b"BODY=7BIT")
        || text.eq_ignore_ascii_case(b"BODY=8BITMIME")
        || text.eq_ignore_ascii_case(b"SMTPUTF8")
    {
        return Ok(None);
    }
    Err(ArgumentFault::Parameter)
}

// The size that digits write; one of 2^64 or more counts as the greatest.
fn parse_size(digits: &[u8]) -> Option<u64>
    ensures found { IfSome result (λ size. s.IsSizeValue digits.now size) }
    ensures none { IfNone result ((size : ℕ) → s.IsSizeValue digits.now size → ⊥) }
{
    if let Some(size) = parse_decimal(digits) {
        return Some(size);
    }
    if is_number(digits) {
        Some(u64::MAX)
    } else {
        None
    }
}

// Whether they are digits, and nothing else.
fn is_number(text: &[u8]) -> bool
    ensures { result ≡ s.is_size_text text.now }
{
    !text.is_empty() && all_digits(text)
}

fn all_digits(text: &[u8]) -> bool
    ensures { result ≡ list_all is_digit text.now }
{
    text.iter().all(|octet| octet.is_ascii_digit())
}

// Whether an address may be that of a recipient.
fn takes_recipient(address: &[u8]) -> bool
    ensures { IsTrue result ↔ s.TakesRecipient address.now }
{
    !address.is_empty() && address.len() <= MAX_ADDRESS
}

// What follows a word at the start, whose letters may be in upper or lower case.
fn after_word<'a>(text: &'a [u8], word: &[u8]) -> Option<&'a [u8]>
    ensures found { IfSome result (λ rest. s.IsAfterWord word.now text.now rest.now) }
    ensures none { IfNone result ((rest : List ℕ) → s.IsAfterWord word.now text.now rest → ⊥) }
{
    if text.len() < word.len() {
        return None;
    }
    let (front, rest) = text.split_at(word.len());
    if front.eq_ignore_ascii_case(word) {
        Some(rest)
    } else {
        None
    }
}
