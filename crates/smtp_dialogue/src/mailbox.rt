//! Mailboxes: the addresses of senders and recipients.
ghost use Rattle.std.specs.Prelude.{◌≡◌, ◌⊎◌, ◌↔◌, ◌≤◌, ◌==◌, [], ◌∷◌, ◌++◌, not, false, ℕ, List, IsTrue, IfSome, IfNone, length, option_copied};
ghost use Rattle.std.specs.List.{list_all, prefix_len, slice_split};
ghost use Rattle.std.specs.Str as text;
ghost use Rattle.smtp_dialogue.specs.Mailboxes as s;

use crate::address::{is_ipv4, is_ipv6};
use crate::extension::names;
use octets::is_printable;

/// Whether a text is a Mailbox (RFC 5321, section 4.1.2; RFC 6531, section 3.3): a local part, `@`, and a domain or an address
/// literal: one in brackets that has four numbers, an IPv6 address after its tag, or what another tag says, which isn't looked into.
/// How long a mailbox is isn't looked at.
///
/// Time is linear in its octets; no memory is taken.
pub fn is_smtp_mailbox(text: &[u8]) -> bool
    ensures { IsTrue result ↔ s.IsSmtpMailbox text.now }
{
    match host_of(text) {
        Some(host) => is_host(host) && is_utf8(text),
        None => false,
    }
}

fn is_utf8(octets: &[u8]) -> bool
    ensures { result ≡ text.is_utf8 octets.now }
{
    str::from_utf8(octets).is_ok()
}

// What follows the local part and its `@`.
fn host_of(text: &[u8]) -> Option<&[u8]>
    ensures found { IfSome result (λ host. s.CutsLocal text.now host.now) }
    ensures one { IfSome result (λ host. (other : List ℕ) → s.CutsLocal text.now other → other ≡ host.now) }
    ensures none { IfNone result ((host : List ℕ) → s.CutsLocal text.now host → ⊥) }
{
    match strip(text, b'"') {
        Some(inner) => behind_quoted(inner),
        None => behind_dotted(text),
    }
}

// What follows a Dot-string and its `@`.
fn behind_dotted(text: &[u8]) -> Option<&[u8]>
    ensures found { IfSome result (λ host. s.CutsDotted text.now host.now) }
    ensures one { IfSome result (λ host. (other : List ℕ) → s.CutsDotted text.now other → other ≡ host.now) }
    ensures none { IfNone result ((host : List ℕ) → s.CutsDotted text.now host → ⊥) }
{
    match cut_at(text, b'@') {
        Some(cut) => {
            if is_dot_string(cut.front) {
                Some(cut.rest)
            } else {
                None
            }
        }
        None => None,
    }
}

// What follows the mark that closes a quoted string and its `@`.
fn behind_quoted(inner: &[u8]) -> Option<&[u8]>
    ensures found { IfSome result (λ host. s.ClosesQuotes inner.now (64 ∷ host.now)) }
    ensures one { IfSome result (λ host. (other : List ℕ) → s.ClosesQuotes inner.now (64 ∷ other) → other ≡ host.now) }
    ensures none { IfNone result ((host : List ℕ) → s.ClosesQuotes inner.now (64 ∷ host) → ⊥) }
{
    match behind_quotes(inner) {
        Some(behind) => strip(behind, b'@'),
        None => None,
    }
}

// What follows the mark that closes a quoted string.
fn behind_quotes(inner: &[u8]) -> Option<&[u8]>
    ensures { option_copied result ≡ s.behind_quotes false inner.now }
{
    let mut left = inner;
    let mut is_escaped = false;
    while let Some((octet, rest)) = left.split_first() {
        if is_escaped {
            if !is_printable(*octet) {
                return None;
            }
            is_escaped = false;
        } else if *octet == b'"' {
            return Some(rest);
        } else if *octet == b'\\' {
            is_escaped = true;
        } else if !is_qtext(*octet) {
            return None;
        }
        left = rest;
    }
    None
}

// ---- octets

// An octet of a character that isn't ASCII.
pub(crate) fn is_high(octet: u8) -> bool
    ensures { result ≡ s.is_high octet }
{
    octet >= 128
}

fn is_let_dig(octet: u8) -> bool
    ensures { result ≡ s.is_let_dig octet }
{
    octet.is_ascii_alphabetic() || octet.is_ascii_digit()
}

fn is_mark(octet: u8) -> bool
    ensures { result ≡ s.is_atext_mark octet }
{
    matches!(octet, b'!' | b'#'..=b'\'' | b'*'..=b'+' | b'-' | b'/' | b'=' | b'?' | b'^'..=b'`' | b'{'..=b'~')
}

fn is_atext(octet: u8) -> bool
    ensures { result ≡ s.is_atext octet }
{
    is_let_dig(octet) || is_high(octet) || is_mark(octet)
}

fn is_qtext(octet: u8) -> bool
    ensures { result ≡ s.is_qtext octet }
{
    (is_printable(octet) || is_high(octet)) && !(octet == b'"' || octet == b'\\')
}

fn is_dcontent(octet: u8) -> bool
    ensures { result ≡ s.is_dcontent octet }
{
    matches!(octet, b'!'..=b'Z' | b'^'..=b'~')
}

fn is_end(octet: u8) -> bool
    ensures { result ≡ s.is_label_end octet }
{
    is_let_dig(octet) || is_high(octet)
}

fn is_label_octet(octet: u8) -> bool
    ensures { result ≡ s.is_label_octet octet }
{
    is_end(octet) || octet == b'-'
}

fn is_tag_octet(octet: u8) -> bool
    ensures { result ≡ s.is_tag_octet octet }
{
    is_let_dig(octet) || octet == b'-'
}

// ---- local parts and hosts

fn all_atext(text: &[u8]) -> bool
    ensures { result ≡ list_all s.is_atext text.now }
{
    text.iter().all(|octet| is_atext(*octet))
}

fn is_atom(text: &[u8]) -> bool
    ensures { result ≡ s.is_smtp_atom text.now }
{
    !text.is_empty() && all_atext(text)
}

// Atoms with dots between them.
fn is_dot_string(text: &[u8]) -> bool
    ensures { result ≡ s.is_dot_string text.now }
{
    text.split(|octet| *octet == b'.').all(is_atom)
}

fn begins_well(text: &[u8]) -> bool
    ensures { result ≡ s.begins_well text.now }
{
    match text.split_first() {
        Some((octet, _)) => is_end(*octet),
        None => false,
    }
}

fn ends_well(text: &[u8]) -> bool
    ensures { result ≡ s.ends_well text.now }
{
    match text.split_last() {
        Some((octet, _)) => is_end(*octet),
        None => false,
    }
}

fn all_label(text: &[u8]) -> bool
    ensures { result ≡ list_all s.is_label_octet text.now }
{
    text.iter().all(|octet| is_label_octet(*octet))
}

fn is_label(text: &[u8]) -> bool
    ensures { result ≡ s.is_label text.now }
{
    begins_well(text) && all_label(text) && ends_well(text)
}

// Sub-domains with dots between them.
fn is_domain(text: &[u8]) -> bool
    ensures { result ≡ s.is_domain text.now }
{
    text.split(|octet| *octet == b'.').all(is_label)
}

fn all_tag(text: &[u8]) -> bool
    ensures { result ≡ list_all s.is_tag_octet text.now }
{
    text.iter().all(|octet| is_tag_octet(*octet))
}

fn is_tag(text: &[u8]) -> bool
    ensures { result ≡ s.is_tag text.now }
{
    all_tag(text) && ends_well(text)
}

fn all_content(text: &[u8]) -> bool
    ensures { result ≡ list_all s.is_dcontent text.now }
{
    text.iter().all(|octet| is_dcontent(*octet))
}

fn is_content(text: &[u8]) -> bool
    ensures { result ≡ s.is_content text.now }
{
    !text.is_empty() && all_content(text)
}

fn is_ipv6_tag(text: &[u8]) -> bool
    ensures { result ≡ s.is_ipv6_tag text.now }
{
    names(text, b"ipv6")
}

// What follows a tag and its colon: an IPv6 address after its own tag, and after another one what that says.
fn is_tagged(text: &[u8]) -> bool
    ensures { IsTrue result ↔ (s.IsIpv6Tagged text.now ⊎ s.IsTagged text.now) }
{
    match cut_at(text, b':') {
        Some(cut) => says(cut.front, cut.rest),
        None => false,
    }
}

fn says(tag: &[u8], content: &[u8]) -> bool
    ensures { IsTrue result ↔ s.TagSays tag.now content.now }
{
    if is_ipv6_tag(tag) {
        return is_ipv6(content);
    }
    is_tag(tag) && is_content(content)
}

fn is_inner(text: &[u8]) -> bool
    ensures { IsTrue result ↔ s.IsInner text.now }
{
    is_ipv4(text) || is_tagged(text)
}

fn is_literal(text: &[u8]) -> bool
    ensures { IsTrue result ↔ s.IsAddressLiteral text.now }
{
    match inner_of(text) {
        Some(inner) => is_inner(inner),
        None => false,
    }
}

// What is between brackets.
fn inner_of(text: &[u8]) -> Option<&[u8]>
    ensures found { IfSome result (λ inner. text.now ≡ 91 ∷ (inner.now ++ 93 ∷ [])) }
    ensures none { IfNone result ((inner : List ℕ) → text.now ≡ 91 ∷ (inner ++ 93 ∷ []) → ⊥) }
{
    let (first, behind) = text.split_first()?;
    let (last, inner) = behind.split_last()?;
    if *first == b'[' && *last == b']' {
        Some(inner)
    } else {
        None
    }
}

fn is_host(text: &[u8]) -> bool
    ensures { IsTrue result ↔ s.IsHost text.now }
{
    is_domain(text) || is_literal(text)
}

// ---- cuts

// What follows that octet at the start.
pub(crate) fn strip(text: &[u8], mark: u8) -> Option<&[u8]>
    ensures found { IfSome result (λ rest. text.now ≡ mark ∷ rest.now) }
    ensures none { IfNone result ((rest : List ℕ) → text.now ≡ mark ∷ rest → ⊥) }
{
    match text.split_first() {
        Some((octet, rest)) if *octet == mark => Some(rest),
        _ => None,
    }
}

/// A text before a mark, and after it.
#[derive(Clone, Copy)]
pub(crate) struct Cut<'a> {
    pub(crate) front: &'a [u8],
    pub(crate) rest: &'a [u8],
}

// What comes before the first such octet and what comes after it.
pub(crate) fn cut_at(text: &[u8], mark: u8) -> Option<Cut<'_>>
    ensures found { IfSome result (λ cut. s.CutsAtOctet mark text.now cut.front.now cut.rest.now) }
    ensures none { IfNone result (s.HasNoMark mark text.now) }
{
    let count = length_before(text, mark);
    let (front, behind) = text.split_at(count);
    match behind.split_first() {
        Some((_, rest)) => Some(Cut { front, rest }),
        None => None,
    }
}

// How many octets come before the first such one.
pub(crate) fn length_before(text: &[u8], mark: u8) -> usize
    ensures value { result ≡ prefix_len (λ octet. not (octet == mark)) text.now }
    ensures within { result ≤ length text.now }
{
    text.iter().take_while(|octet| **octet != mark).count()
}
