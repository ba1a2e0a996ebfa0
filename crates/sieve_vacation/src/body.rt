//! What follows the date.
ghost use Rattle.std.specs.Prelude.{◌≡◌, ◌++◌, IfOk, OnOk, Some};
ghost use Rattle.std.specs.List.{list_all};
ghost use Rattle.sieve_vacation.specs.Layout as layout;

use crate::fields::first_raw;
use crate::layout::push_parts;
use mail_head::{Head, unfold_value};
use octets::{Octets, trim_blanks};
use sieve_exec::Mail;
use sieve_syntax::VacationArgs;
use std::alloc::{AllocError, Global};

/// The most octets of a Message-ID that is repeated.
const MAX_ID_LEN: usize = 250;

/// What precedes a reason that is plain text.
const PLAIN_HEADER: &[u8] =
    b"Content-Type: text/plain; charset=utf-8\r\nContent-Transfer-Encoding: 8bit\r\n\r\n";

/// Appends the lines after the date, and the reason.
pub(crate) fn write_body(
    alloc: Global,
    out: &mut Octets,
    args: &VacationArgs,
    mail: &Mail<'_>,
) -> Result<(), AllocError>
    ensures { OnOk result (out.new ≡ out.old ++ layout.body_text args.now mail.now) }
{
    out.extend_from_slice(b"Auto-Submitted: auto-replied\r\n")?;
    write_in_reply_to(alloc, out, mail)?;
    write_version(alloc, out, args)?;
    write_content_header(out, args.mime)?;
    write_reason(out, args.reason.as_slice())
}

/// Appends the line In-Reply-To, if the mail has a Message-ID that can be written there.
fn write_in_reply_to(alloc: Global, out: &mut Octets, mail: &Mail<'_>) -> Result<(), AllocError>
    ensures { OnOk result (out.new ≡ out.old ++ layout.in_reply_to mail.now) }
{
    let Some(raw) = first_raw(b"message-id", mail.fields()) else {
        return Ok(());
    };
    let value = unfold_value(alloc, raw)?;
    write_answered(out, trim_blanks(value.as_slice()))
}

/// Appends the line In-Reply-To with a Message-ID, if it can be written there.
fn write_answered(out: &mut Octets, id: &[u8]) -> Result<(), AllocError>
    ensures { OnOk result (out.new ≡ out.old ++ layout.in_reply_to_line (Some id.now)) }
{
    if !is_message_id(id) {
        return Ok(());
    }
    push_parts(out, b"In-Reply-To: ", id, b"\r\n")
}

fn is_message_id(id: &[u8]) -> bool
    ensures { result ≡ layout.is_message_id id.now }
{
    1 <= id.len() && id.len() <= MAX_ID_LEN && are_visible(id)
}

fn are_visible(text: &[u8]) -> bool
    ensures { result ≡ list_all layout.is_visible text.now }
{
    text.iter().all(|octet| is_visible(*octet))
}

fn is_visible(octet: u8) -> bool
    ensures { result ≡ layout.is_visible octet }
{
    33 <= octet && octet <= 126
}

/// Appends the line MIME-Version, unless the reason has it.
fn write_version(alloc: Global, out: &mut Octets, args: &VacationArgs) -> Result<(), AllocError>
    ensures { OnOk result (out.new ≡ out.old ++ layout.version args.now) }
{
    if args.mime && has_version(alloc, args.reason.as_slice())? {
        return Ok(());
    }
    out.extend_from_slice(b"MIME-Version: 1.0\r\n")
}

/// Whether the header of a reason has a field MIME-Version.
fn has_version(alloc: Global, reason: &[u8]) -> Result<bool, AllocError>
    ensures { IfOk result (λ there. there ≡ layout.has_version reason.now) }
{
    let head = Head::read(alloc, reason)?;
    Ok(first_raw(b"mime-version", head.fields()).is_some())
}

/// Appends the header of a reason that is plain text, with the empty line after it.
fn write_content_header(out: &mut Octets, mime: bool) -> Result<(), AllocError>
    ensures { OnOk result (out.new ≡ out.old ++ layout.content_header mime) }
{
    if mime {
        return Ok(());
    }
    out.extend_from_slice(PLAIN_HEADER)
}

/// Appends the reason, and CRLF unless it ends with that.
fn write_reason(out: &mut Octets, reason: &[u8]) -> Result<(), AllocError>
    ensures { OnOk result (out.new ≡ out.old ++ layout.with_line_end reason.now) }
{
    out.extend_from_slice(reason)?;
    if reason.ends_with(b"\r\n") {
        return Ok(());
    }
    out.extend_from_slice(b"\r\n")
}
