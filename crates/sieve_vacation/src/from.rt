//! Who the response is from.
ghost use Rattle.std.specs.Prelude.{◌≡◌, codes, IfOk, OnOk};
ghost use Rattle.std.specs.List.{list_all};
ghost use Rattle.octets.specs.Ascii as ascii;
ghost use Rattle.mail_address.specs.Spelling as spelled;
ghost use Rattle.mail_address.specs.Spelling.{address_spelling};
ghost use Rattle.sieve_vacation.specs.Layout as layout;

use crate::layout::push_parts;
use crate::text::usable;
use mail_address::{Addr, quote, spell_address};
use mail_words::{has_phrase_words, has_written_words, header_text, written_lines};
use octets::{Octets, is_printable};
use sieve_syntax::ReplyFrom;
use std::alloc::{AllocError, Global};

/// The most octets of a display name that is written as a quoted string.
const MAX_QUOTED_LEN: usize = 200;

/// Appends the line From: the account's address, or what `:from` says.
pub(crate) fn write_from(
    alloc: Global,
    out: &mut Octets,
    from: &Option<ReplyFrom>,
    own: &Addr,
) -> Result<(), AllocError>
    ensures { OnOk result (layout.WritesLine (codes "From: ") (layout.IsFrom from.now own.now) out.old out.new) }
{
    let value = from_value(alloc, from, own)?;
    push_parts(out, b"From: ", value.as_slice(), b"\r\n")
}

fn from_value(alloc: Global, from: &Option<ReplyFrom>, own: &Addr) -> Result<Octets, AllocError>
    ensures { IfOk result (layout.IsFrom from.now own.now) }
{
    match from {
        Some(from) => named(alloc, from),
        None => spell_address(alloc, own),
    }
}

/// An address with its display name before it, or if that is empty only the address.
fn named(alloc: Global, from: &ReplyFrom) -> Result<Octets, AllocError>
    ensures { IfOk result (layout.IsFromMailbox (layout.display_of from.now) (address_spelling from.now.address)) }
{
    let address = spell_address(alloc, &from.address)?;
    let Some(display) = usable(from.display.as_slice()) else {
        return Ok(address);
    };
    if display.is_empty() {
        return Ok(address);
    }
    let mut value = display_value(alloc, display)?;
    push_parts(&mut value, b" <", address.as_slice(), b">")?;
    Ok(value)
}

/// A display name as it is if it is a phrase with encoded words in it, otherwise as a quoted string if it can be one, otherwise as
/// encoded words.
fn display_value(alloc: Global, display: &str) -> Result<Octets, AllocError>
    ensures { IfOk result (layout.IsDisplay display.now) }
{
    if is_phrase(alloc, display.as_bytes())? {
        return Ok(Octets::from_vec(written_lines(alloc, display.as_bytes())?));
    }
    if is_quotable(display.as_bytes()) {
        return quoted(alloc, display.as_bytes());
    }
    Ok(Octets::from_vec(header_text(alloc, display)?))
}

/// Whether a display name is a phrase of atoms and of words that the script's author encoded.
fn is_phrase(alloc: Global, display: &[u8]) -> Result<bool, AllocError>
    ensures { IfOk result (λ is. is ≡ layout.is_phrase_text display.now) }
{
    if are_phrase_octets(display) && has_phrase_words(display) {
        has_written_words(alloc, display)
    } else {
        Ok(false)
    }
}

fn are_phrase_octets(text: &[u8]) -> bool
    ensures { result ≡ list_all layout.is_phrase_octet text.now }
{
    text.iter().all(|octet| !is_special(*octet))
}

fn is_special(octet: u8) -> bool
    ensures { result ≡ layout.is_special octet }
{
    matches!(
        octet,
        b'"' | b'(' | b')' | b',' | b'.' | b':' | b';' | b'<' | b'>' | b'@' | b'[' | b'\\' | b']'
    )
}

fn quoted(alloc: Global, text: &[u8]) -> Result<Octets, AllocError>
    ensures { IfOk result (λ value. value ≡ spelled.quoted text.now) }
{
    let mut value = Octets::new(alloc);
    quote(&mut value, text)?;
    Ok(value)
}

fn is_quotable(display: &[u8]) -> bool
    ensures { result ≡ layout.is_quotable_display display.now }
{
    display.len() <= MAX_QUOTED_LEN && are_printable(display)
}

fn are_printable(text: &[u8]) -> bool
    ensures { result ≡ list_all ascii.is_printable text.now }
{
    text.iter().all(|octet| is_printable(*octet))
}
