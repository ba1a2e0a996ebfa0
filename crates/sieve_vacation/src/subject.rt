//! The subject of the response.
ghost use Rattle.std.specs.Prelude.{◌≡◌, codes, IfOk, OnOk, Some, option_copied, string_bytes};
ghost use Rattle.mail_words.specs.Headers.{IsHeaderText};
ghost use Rattle.sieve_vacation.specs.Layout as layout;

use crate::fields::first_raw;
use crate::layout::push_parts;
use crate::text::usable;
use mail_head::unfold_value;
use mail_words::{decoded, header_text, written_text};
use octets::{Octets, trim_blanks};
use sieve_exec::Mail;
use sieve_syntax::VacationArgs;
use std::alloc::{AllocError, Global};

/// The subject if neither the script nor the mail has a usable one.
const AUTOMATED: &str = "Automated reply";

/// The most characters of a mail's subject that a response repeats: the sender chose how long it is, and a response is kept
/// until it is sent.
const MAX_SUBJECT: usize = 256;

/// Appends the line Subject.
pub(crate) fn write_subject(
    alloc: Global,
    out: &mut Octets,
    args: &VacationArgs,
    mail: &Mail<'_>,
) -> Result<(), AllocError>
    ensures { OnOk result (layout.WritesLine (codes "Subject: ") (layout.IsSubject (layout.usable args.now.subject) mail.now) out.old out.new) }
{
    let value = subject_value(alloc, args, mail)?;
    push_parts(out, b"Subject: ", value.as_slice(), b"\r\n")
}

fn subject_value(alloc: Global, args: &VacationArgs, mail: &Mail<'_>) -> Result<Vec<u8>, AllocError>
    ensures { IfOk result (λ value. layout.IsSubject (layout.usable args.now.subject) mail.now value.items) }
{
    if let Some(text) = given(&args.subject) {
        return written_text(alloc, text);
    }
    auto_subject(alloc, mail)
}

/// The text of `:subject`, if it is UTF-8.
fn given(subject: &Option<Octets>) -> Option<&str>
    ensures { option_copied result ≡ layout.usable subject.now }
{
    match subject {
        Some(text) => usable(text.as_slice()),
        None => None,
    }
}

/// A subject made from the mail's.
fn auto_subject(alloc: Global, mail: &Mail<'_>) -> Result<Vec<u8>, AllocError>
    ensures { IfOk result (λ value. IsHeaderText (layout.auto_subject (layout.usable (layout.subject_of mail.now))) value.items) }
{
    let Some(raw) = first_raw(b"subject", mail.fields()) else {
        return header_text(alloc, AUTOMATED);
    };
    let value = unfold_value(alloc, raw)?;
    let text = decoded(alloc, value.as_slice())?;
    auto_text(alloc, trim_blanks(text.as_slice()))
}

/// A subject made from the text of the mail's.
fn auto_text(alloc: Global, first: &[u8]) -> Result<Vec<u8>, AllocError>
    ensures { IfOk result (λ value. IsHeaderText (layout.auto_subject (layout.usable (Some first.now))) value.items) }
{
    let Some(text) = usable(first) else {
        return header_text(alloc, AUTOMATED);
    };
    if text.is_empty() {
        return header_text(alloc, AUTOMATED);
    }
    let short = shortened(alloc, text)?;
    let told = format!(in alloc; "Auto: {short}")?;
    header_text(alloc, told.as_str())
}

/// The first [`MAX_SUBJECT`] characters of a text, and then `...` if it has more.
fn shortened(alloc: Global, text: &str) -> Result<String, AllocError>
    ensures { IfOk result (λ short. string_bytes short ≡ layout.shortened text.now) }
{
    let mut short = String::new(alloc);
    let mut count = 0;
    for character in text.chars() {
        if count == MAX_SUBJECT {
            short.push_str("...")?;
            return Ok(short);
        }
        short.push(character)?;
        count += 1;
    }
    Ok(short)
}
