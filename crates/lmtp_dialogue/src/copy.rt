//! What is delivered to a recipient, and whether it was.
ghost use Rattle.std.specs.Prelude.{◌≡◌, ◌++◌, IfOk, OnOk};
ghost use Rattle.lmtp_dialogue.specs.Copies as s;
ghost use Rattle.mail_head.specs.Fields.{field_text_of};

use mail_head::{Field, Head, logical_line, read_field, unfold_value};
use octets::{Octets, trim_blanks};
use std::alloc::{AllocError, Global};

/// One recipient's copy of a text: `Return-Path` and `Delivered-To` are added at its start (RFC 5321, section 4.4), and fields
/// `Return-Path` at its start are left out. An address of 1,024 octets at most keeps the two lines below 2,200.
///
/// Lack of memory is the only error. Time is linear in the octets of the text.
pub fn copy_for(
    alloc: Global,
    sender: &[u8],
    recipient: &[u8],
    text: &[u8],
) -> Result<Octets, AllocError>
    ensures { IfOk result (λ copy. s.IsCopy sender.now recipient.now text.now copy) }
{
    let rest = without_paths(text);
    let mut copy = Octets::new(alloc);
    copy.reserve(rest.len())?;
    add_fields(&mut copy, sender, recipient)?;
    copy.extend_from_slice(rest)?;
    Ok(copy)
}

fn add_fields(copy: &mut Octets, sender: &[u8], recipient: &[u8]) -> Result<(), AllocError>
    ensures { OnOk result (copy.new ≡ copy.old ++ s.added_fields sender.now recipient.now) }
{
    copy.extend_from_slice(b"Return-Path: <")?;
    copy.extend_from_slice(sender)?;
    copy.extend_from_slice(b">\r\nDelivered-To: ")?;
    copy.extend_from_slice(recipient)?;
    copy.extend_from_slice(b"\r\n")?;
    Ok(())
}

// What follows the fields `Return-Path` at its start.
fn without_paths(text: &[u8]) -> &[u8]
    ensures { s.LeavesPaths text.now result.now }
{
    let mut left = text;
    while !left.is_empty() {
        let (line, after) = logical_line(left);
        if !is_path(line) {
            return left;
        }
        left = after;
    }
    left
}

fn is_path(line: &[u8]) -> bool
    ensures { result ≡ s.is_path_line line.now }
{
    match read_field(line) {
        Some(field) => field.name.eq_ignore_ascii_case(b"return-path"),
        None => false,
    }
}

/// Whether a message was delivered to that recipient before: it has a field `Delivered-To` with this address, but for upper and lower
/// case. A mail loop is recognized by that.
///
/// Lack of memory is the only error. Time is linear in the octets of the header.
pub fn was_delivered(alloc: Global, head: &Head<'_>, recipient: &[u8]) -> Result<bool, AllocError>
    ensures { IfOk result (λ was. was ≡ s.was_delivered recipient.now head.now) }
{
    for field in head.fields() {
        if tells_delivery(alloc, field, recipient)? {
            return Ok(true);
        }
    }
    Ok(false)
}

fn tells_delivery(alloc: Global, field: &Field<'_>, recipient: &[u8]) -> Result<bool, AllocError>
    ensures { IfOk result (λ tells. tells ≡ s.tells_delivery recipient.now (field_text_of field.now)) }
{
    if !field.name.eq_ignore_ascii_case(b"delivered-to") {
        return Ok(false);
    }
    let value = unfold_value(alloc, field.raw)?;
    Ok(trim_blanks(value.as_slice()).eq_ignore_ascii_case(recipient))
}
