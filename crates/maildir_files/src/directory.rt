//! The directory of a folder.
ghost use Rattle.std.specs.Prelude.{◌≡◌, if◌then◌else◌, IfOk};
ghost use Rattle.std.specs.List.{list_all};
ghost use Rattle.maildir_files.specs.Directory.{begins_with_octet, digest_form, directory, with_inbox_folded, has_form, is_digest, is_lower_digit, is_own, is_sha256, directory_named};
ghost use Rattle.maildir_files.specs.Spelling.{separator_octet, spelled_directory};

use crate::level::has_levels;
use crate::listed::is_listed;
use crate::separator::Separator;
use crate::spelling::written;
use octets::Octets;
use sha2::{Digest, Sha256};
use std::alloc::{AllocError, Global};

/// How many octets a directory's name has at most.
const MAX_DIRECTORY_LEN: usize = 250;

/// How many hexadecimal digits a SHA-256 has.
const DIGEST_DIGITS: usize = 64;

/// The directory, within a user's Maildir, of the folder with this name, as Maildir++ has it: `.` for INBOX, and otherwise
/// one that begins with `.`, of 32 to 126 without `/`, and of at most 250 octets. A first level that is INBOX but for case
/// is `INBOX`, since IMAP has one INBOX.
///
/// A name that is empty or has an empty level, isn't UTF-8 or has a longer directory gets one by its digest; so does one that Dovecot 2.3
/// doesn't list as it is, with NUL or a `\` before two hexadecimal digits of an octet over 127, and one whose directory looks like that of a digest.
/// Time and memory are linear in the name.
pub fn directory_of(alloc: Global, name: &[u8], separator: Separator) -> Result<Octets, AllocError>
    ensures { IfOk result (λ place. place ≡ directory separator name.now) }
{
    if name.eq_ignore_ascii_case(b"INBOX") {
        return Octets::from_slice(alloc, b".");
    }
    let name = folded(alloc, name, separator)?;
    named(alloc, name.as_slice(), separator)
}

/// The name, with a first level of several that is INBOX but for case as `INBOX`.
fn folded(alloc: Global, name: &[u8], separator: Separator) -> Result<Octets, AllocError>
    ensures { IfOk result (λ text. text ≡ with_inbox_folded separator name.now) }
{
    let Some((first, rest)) = name.split_at_checked(5) else {
        return Octets::from_slice(alloc, name);
    };
    if !first.eq_ignore_ascii_case(b"INBOX") {
        return Octets::from_slice(alloc, name);
    }
    if !begins_with(rest, separator.octet()) {
        return Octets::from_slice(alloc, name);
    }
    let mut text = Octets::from_slice(alloc, b"INBOX")?;
    text.extend_from_slice(rest)?;
    Ok(text)
}

/// Whether the octet comes first.
fn begins_with(text: &[u8], octet: u8) -> bool
    ensures { result ≡ begins_with_octet octet text.now }
{
    match text.first() {
        Some(first) => *first == octet,
        None => false,
    }
}

/// The directory of a name that isn't INBOX.
fn named(alloc: Global, name: &[u8], separator: Separator) -> Result<Octets, AllocError>
    ensures { IfOk result (λ place. place ≡ directory_named separator name.now) }
{
    match spelled_form(alloc, name, separator)? {
        Some(place) => Ok(place),
        None => digest_form(alloc, name),
    }
}

/// The directory that spells the name, if it has one.
fn spelled_form(
    alloc: Global,
    name: &[u8],
    separator: Separator,
) -> Result<Option<Octets>, AllocError>
    ensures { IfOk result (λ place. place ≡ (if has_form separator name.now then Some (spelled_directory separator name.now) else None)) }
{
    let Ok(text) = str::from_utf8(name) else {
        return Ok(None);
    };
    if !has_levels(name, separator.octet()) || !is_listed(name) {
        return Ok(None);
    }
    let place = Octets::from_vec(written(alloc, text, separator)?.into_bytes());
    if !is_own(place.as_slice()) {
        return Ok(None);
    }
    Ok(Some(place))
}

/// Whether a directory that spells a name is for that name: not too long, and none that a digest may have.
fn is_own(directory: &[u8]) -> bool
    ensures { result ≡ is_own directory.now }
{
    directory.len() <= MAX_DIRECTORY_LEN && !is_digest(directory)
}

/// Whether a directory is `.sha256-` and 64 hexadecimal digits in lower case.
fn is_digest(directory: &[u8]) -> bool
    ensures { result ≡ is_digest directory.now }
{
    match directory.strip_prefix(b".sha256-") {
        Some(digits) => is_sha256(digits),
        None => false,
    }
}

/// 64 hexadecimal digits in lower case.
fn is_sha256(text: &[u8]) -> bool
    ensures { result ≡ is_sha256 text.now }
{
    text.len() == DIGEST_DIGITS && are_lower_digits(text)
}

fn are_lower_digits(text: &[u8]) -> bool
    ensures { result ≡ list_all is_lower_digit text.now }
{
    text.iter().all(|octet| is_lower_digit(*octet))
}

/// A hexadecimal digit in lower case.
fn is_lower_digit(octet: u8) -> bool
    ensures { result ≡ is_lower_digit octet }
{
    matches!(octet, b'0'..=b'9' | b'a'..=b'f')
}

/// `.sha256-` and the name's SHA-256 in hexadecimal: 72 octets.
fn digest_form(alloc: Global, name: &[u8]) -> Result<Octets, AllocError>
    ensures { IfOk result (λ place. place ≡ digest_form name.now) }
{
    let mut hasher = Sha256::new();
    hasher.update(name);
    let digest = hex::encode(alloc, hasher.finalize())?;
    let mut place = Octets::from_slice(alloc, b".sha256-")?;
    place.extend_from_slice(digest.as_bytes())?;
    Ok(place)
}
