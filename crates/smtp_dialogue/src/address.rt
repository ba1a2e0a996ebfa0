//! Addresses of hosts in numbers.
ghost use Rattle.std.specs.Prelude.{◌≡◌, ◌↔◌, ◌≤◌, ◌+◌, ◌==◌, ◌∷◌, ◌++◌, not, ℕ, List, Some, IsTrue, IfSome, IfNone, length};
ghost use Rattle.std.specs.Char.{is_ascii_hexdigit};
ghost use Rattle.std.specs.List.{list_all, slice_split};
ghost use Rattle.smtp_dialogue.specs.Addresses as s;
ghost use Rattle.smtp_dialogue.specs.Mailboxes.{HasNoMark};

use crate::mailbox::{Cut, strip};
use octets::parse_decimal;

// ---- IPv4

fn is_number(text: &[u8]) -> bool
    ensures { result ≡ s.is_ipv4_number text.now }
{
    match parse_decimal(text) {
        Some(number) => text.len() <= 3 && number <= 255,
        None => false,
    }
}

fn count_parts(text: &[u8]) -> usize
    ensures { result ≡ length (slice_split s.is_dot text.now) }
{
    text.split(|octet| *octet == b'.').count()
}

fn are_numbers(text: &[u8]) -> bool
    ensures { result ≡ list_all s.is_ipv4_number (slice_split s.is_dot text.now) }
{
    text.split(|octet| *octet == b'.').all(is_number)
}

// Four numbers with dots between them.
pub(crate) fn is_ipv4(text: &[u8]) -> bool
    ensures { result ≡ s.is_ipv4 text.now }
{
    count_parts(text) == 4 && are_numbers(text)
}

// ---- IPv6

/// Whether a text is an IPv6-addr (RFC 5321, section 4.1.3). Time is linear in its octets; no memory is taken.
pub(crate) fn is_ipv6(text: &[u8]) -> bool
    ensures { IsTrue result ↔ s.IsIpv6 text.now }
{
    is_full(text) || is_compressed(text) || is_full_ipv4(text) || is_compressed_ipv4(text)
}

fn is_full(text: &[u8]) -> bool
    ensures { IsTrue result ↔ (s.groups_of text.now ≡ Some 8) }
{
    match groups_of(text) {
        Some(count) => count == 8,
        None => false,
    }
}

fn is_full_ipv4(text: &[u8]) -> bool
    ensures { IsTrue result ↔ s.AreGroupsAndIpv4 text.now 6 }
{
    match groups_and_ipv4(text) {
        Some(count) => count == 6,
        None => false,
    }
}

fn is_compressed(text: &[u8]) -> bool
    ensures { IsTrue result ↔ s.IsCompressed text.now }
{
    match cut_doubled(text) {
        Some(cut) => fit(some_groups_of(cut.front), some_groups_of(cut.rest), 6),
        None => false,
    }
}

fn is_compressed_ipv4(text: &[u8]) -> bool
    ensures { IsTrue result ↔ s.IsCompressedIpv4 text.now }
{
    match cut_doubled(text) {
        Some(cut) => fit(some_groups_of(cut.front), ends_in_ipv4(cut.rest), 4),
        None => false,
    }
}

// Whether both counts are there and together at most `most`.
fn fit(before: Option<usize>, behind: Option<usize>, most: usize) -> bool
    ensures { IsTrue result ↔ s.Fit before behind most }
{
    match (before, behind) {
        (Some(before), Some(behind)) => before <= most && behind <= most - before,
        _ => false,
    }
}

fn is_group(text: &[u8]) -> bool
    ensures { result ≡ s.is_group text.now }
{
    !text.is_empty() && text.len() <= 4 && all_hex(text)
}

fn all_hex(text: &[u8]) -> bool
    ensures { result ≡ list_all is_ascii_hexdigit text.now }
{
    text.iter().all(|octet| octet.is_ascii_hexdigit())
}

fn count_between(text: &[u8]) -> usize
    ensures { result ≡ length (s.between_colons text.now) }
{
    text.split(|octet| *octet == b':').count()
}

fn are_groups(text: &[u8]) -> bool
    ensures { result ≡ list_all s.is_group (s.between_colons text.now) }
{
    text.split(|octet| *octet == b':').all(is_group)
}

fn groups_of(text: &[u8]) -> Option<usize>
    ensures { result ≡ s.groups_of text.now }
{
    if are_groups(text) {
        Some(count_between(text))
    } else {
        None
    }
}

fn some_groups_of(text: &[u8]) -> Option<usize>
    ensures { result ≡ s.some_groups_of text.now }
{
    if text.is_empty() {
        return Some(0);
    }
    groups_of(text)
}

// How many groups come before a colon and an IPv4 address.
fn groups_and_ipv4(text: &[u8]) -> Option<usize>
    ensures { (count : ℕ) → (result ≡ Some count) ↔ s.AreGroupsAndIpv4 text.now count }
{
    match cut_last(text, b':') {
        Some(cut) => {
            if is_ipv4(cut.rest) {
                groups_of(cut.front)
            } else {
                None
            }
        }
        None => None,
    }
}

// The same, but there may be the address alone.
fn ends_in_ipv4(text: &[u8]) -> Option<usize>
    ensures { (count : ℕ) → (result ≡ Some count) ↔ s.EndsInIpv4 text.now count }
{
    if is_ipv4(text) {
        return Some(0);
    }
    groups_and_ipv4(text)
}

// ---- cuts

// What comes before the first `::` and what comes after it.
fn cut_doubled(text: &[u8]) -> Option<Cut<'_>>
    ensures found { IfSome result (λ cut. text.now ≡ cut.front.now ++ 58 ∷ 58 ∷ cut.rest.now) }
    ensures one { IfSome result (λ cut. (front rest : List ℕ) → s.CutsDoubled text.now front rest → (front ≡ cut.front.now) × (rest ≡ cut.rest.now)) }
    ensures none { IfNone result ((front rest : List ℕ) → s.CutsDoubled text.now front rest → ⊥) }
{
    let (front, behind) = text.split_at(before_doubled(text));
    let rest = strip(strip(behind, b':')?, b':')?;
    Some(Cut { front, rest })
}

fn begins_colon(text: &[u8]) -> bool
    ensures { result ≡ s.begins_colon text.now }
{
    match text.split_first() {
        Some((octet, _)) => *octet == b':',
        None => false,
    }
}

// Whether `::` comes first.
fn begins_doubled(text: &[u8]) -> bool
    ensures { result ≡ s.begins_doubled text.now }
{
    match text.split_first() {
        Some((first, rest)) => *first == b':' && begins_colon(rest),
        None => false,
    }
}

// How many octets come before the first `::`.
fn before_doubled(text: &[u8]) -> usize
    ensures value { result ≡ s.before_doubled text.now }
    ensures within { result ≤ length text.now }
{
    let mut left = text;
    let mut count = 0;
    while let Some((_, rest)) = left.split_first() {
        if begins_doubled(left) {
            return count;
        }
        count += 1;
        left = rest;
    }
    count
}

// What comes before the last such octet and what comes after it.
fn cut_last(text: &[u8], mark: u8) -> Option<Cut<'_>>
    ensures found { IfSome result (λ cut. s.CutsLast mark text.now cut.front.now cut.rest.now) }
    ensures none { IfNone result (HasNoMark mark text.now) }
{
    let mut left = text;
    while let Some((octet, front)) = left.split_last() {
        if *octet == mark {
            let (_, rest) = text.split_at(left.len());
            return Some(Cut { front, rest });
        }
        left = front;
    }
    None
}
