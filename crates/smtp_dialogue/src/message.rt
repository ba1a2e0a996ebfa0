//! A message with its envelope, and what it needs.
ghost use Rattle.std.specs.Prelude.{◌≡◌, ◌↔◌, ◌≤◌, IsTrue, length};
ghost use Rattle.smtp_dialogue.specs.Messages as s;
ghost use Rattle.smtp_dialogue.specs.Sent as sent;
ghost use Rattle.lmtp_dialogue.specs.Copies as copies;

use crate::extension::Extensions;
use crate::mailbox::{is_high, is_smtp_mailbox};
use crate::sent::SentState;
use mail_head::{logical_line, read_field};

/// A message with its envelope, as it goes to a server.
#[derive(Clone, Copy)]
pub struct SmtpMessage<'a> {
    /// The sender's address; empty for that of a bounce.
    pub sender: &'a [u8],
    pub target: &'a [u8],
    /// The text of the message, without the field `Return-Path` at its start.
    pub text: &'a [u8],
}

impl<'a> SmtpMessage<'a> {
    /// Whether its addresses are mailboxes; the sender may be empty. Otherwise it is never sent.
    ///
    /// Time is linear in the addresses' octets; no memory is taken.
    pub fn is_addressed(&self) -> bool
        ensures { IsTrue result ↔ s.IsMailAddressed (s.smtp_mail_of self.now) }
    {
        is_sender(self.sender) && is_smtp_mailbox(self.target)
    }

    /// Whether a server offers what it needs: SMTPUTF8 if there is an octet over 127 in an address, 8BITMIME if there is one in its
    /// text, unless it may go without that.
    ///
    /// Time is linear in its octets; no memory is taken.
    pub fn is_offered(&self, offered: Extensions, may_eight_bit: bool) -> bool
        ensures { IsTrue result ↔ s.IsOffered offered may_eight_bit (s.smtp_mail_of self.now) }
    {
        if !offered.smtputf8 && self.needs_smtputf8() {
            return false;
        }
        offered.eight_bit_mime || may_eight_bit || !self.needs_eight_bit()
    }

    /// Whether there is an octet over 127 in an address.
    pub fn needs_smtputf8(&self) -> bool
        ensures { result ≡ s.needs_smtputf8 (s.smtp_mail_of self.now) }
    {
        has_high(self.sender) || has_high(self.target)
    }

    /// Whether there is an octet over 127 in the text.
    pub fn needs_eight_bit(&self) -> bool
        ensures { result ≡ s.needs_eight_bit (s.smtp_mail_of self.now) }
    {
        has_high(self.text)
    }
}

fn is_sender(sender: &[u8]) -> bool
    ensures { IsTrue result ↔ s.IsSender sender.now }
{
    sender.is_empty() || is_smtp_mailbox(sender)
}

fn has_high(text: &[u8]) -> bool
    ensures { result ≡ s.has_high text.now }
{
    text.iter().any(|octet| is_high(*octet))
}

/// A message without the field `Return-Path` that its first line is (RFC 5321, section 4.4), or all of it if its first line is none.
///
/// Time is linear in that field's octets; no memory is taken.
pub fn without_path(message: &[u8]) -> &[u8]
    ensures { s.LeavesPath message.now result.now }
{
    if message.is_empty() {
        return message;
    }
    let (line, after) = logical_line(message);
    if is_path(line) { after } else { message }
}

fn is_path(line: &[u8]) -> bool
    ensures { result ≡ copies.is_path_line line.now }
{
    match read_field(line) {
        Some(field) => field.name.eq_ignore_ascii_case(b"return-path"),
        None => false,
    }
}

/// How many octets the other side has of a text that is sent (RFC 1870). Time is linear in its octets.
pub fn size_of(text: &[u8]) -> u64
    ensures { result ≡ s.sent_size text.now }
{
    let mut size: u64 = 0;
    let mut place = SentState::Start;
    let mut left = text;
    while let Some((octet, rest)) = left.split_first() {
        if *octet == b'\n' {
            size += 2;
            place = SentState::Start;
        } else if *octet != b'\r' || !begins_feed(rest) {
            size += 1;
            place = SentState::Inside;
        }
        left = rest;
    }
    if place == SentState::Inside {
        size + 2
    } else {
        size
    }
}

fn begins_feed(rest: &[u8]) -> bool
    ensures { result ≡ sent.begins_feed rest.now }
{
    match rest.split_first() {
        Some((octet, _)) => *octet == b'\n',
        None => false,
    }
}
