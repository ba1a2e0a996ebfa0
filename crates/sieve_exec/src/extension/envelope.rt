//! `envelope`: the test of the envelope's addresses (RFC 5228, 5.4; RFC 5231, 4.2).
ghost use Rattle.std.specs.Prelude.{◌≡◌, ◌≤◌, ◌&&◌, cond, None, Some, MatchOption};
ghost use Rattle.sieve_exec.specs.Sizes.{AreSizesWithin, IsLeft};
ghost use Rattle.sieve_exec.specs.Extension.Envelope.{envelope_part_of, is_counted, envelope_counted, envelope_matches, envelope_work};
ghost use Rattle.sieve_exec.specs.Extension.Envelope as spec;

use crate::envelope::{domain_in, local_in};
use crate::extension::relational::is_count;
use crate::extension::subaddress::{detail_in, user_in};
use crate::mail::Mail;
use crate::matching::{count_matches, matches_some};
use crate::sizes::{Sizes, text_size};
use crate::work::spend_values;
use sieve_syntax::{AddressPart, EnvelopeParts, EnvelopeTest};

/// Whether `envelope` holds (RFC 5228, 5.4; RFC 5231, 4.2).
pub(crate) fn envelope_holds(mail: &Mail<'_>, test: &EnvelopeTest) -> bool
    ensures { result ≡ spec.envelope_holds mail.now test.now }
{
    if !is_count(test.matching) {
        return some_named_matches(mail, test);
    }
    let count = count_named(mail, test);
    count_matches(test.comparator, test.matching, test.keys.as_slice(), count)
}

/// How many addresses of the envelope a test counts.
fn count_named(mail: &Mail<'_>, test: &EnvelopeTest) -> u128
    ensures { result ≡ envelope_counted mail.now test.now }
{
    let sender = count_one(test.parts.from, test.part, mail.from());
    let recipient = count_one(test.parts.to, test.part, mail.to());
    sender + recipient
}

/// 1 if an address of the envelope is asked for and counted, otherwise 0.
fn count_one(asked: bool, part: AddressPart, address: &[u8]) -> u128
    ensures count { result ≡ cond (asked && is_counted part address.now) 1 0 }
    ensures small { result ≤ 1 }
{
    if asked && !address.is_empty() && part_in(part, address).is_some() {
        1
    } else {
        0
    }
}

/// Whether an address of the envelope that a test names matches some key.
fn some_named_matches(mail: &Mail<'_>, test: &EnvelopeTest) -> bool
    ensures { result ≡ spec.some_named_matches mail.now test.now }
{
    (test.parts.from && address_matches(test, mail.from()))
        || (test.parts.to && address_matches(test, mail.to()))
}

/// Whether the part of an address of the envelope is there and matches some key.
fn address_matches(test: &EnvelopeTest, address: &[u8]) -> bool
    ensures { result ≡ envelope_matches test.now address.now }
{
    match part_in(test.part, address) {
        Some(part) => matches_some(test.comparator, test.matching, test.keys.as_slice(), part),
        None => false,
    }
}

/// A part of an address of the envelope, which is cut at its last `@`, and is only a local part if there is none; `None` for
/// the detail of a local part without `+`.
///
/// Each part of the null reverse-path is empty (RFC 5228, 5.4). Linear in the address; takes no memory.
fn part_in(part: AddressPart, address: &[u8]) -> Option<&[u8]>
    ensures { MatchOption result (envelope_part_of part address.now ≡ None) (λ text. envelope_part_of part address.now ≡ Some text.now) }
{
    match part {
        AddressPart::All => Some(address),
        AddressPart::LocalPart => Some(local_in(address)),
        AddressPart::Domain => Some(domain_in(address)),
        AddressPart::User => Some(user_in(local_in(address))),
        AddressPart::Detail if address.is_empty() => Some(address),
        AddressPart::Detail => detail_in(local_in(address)),
    }
}

/// What `envelope` leaves.
pub(crate) fn spend_envelope(mail: &Mail<'_>, test: &EnvelopeTest, left: u64) -> Option<u64>
    ensures { IsLeft left (envelope_work mail.now test.now) result }
{
    let sizes = envelope_sizes(mail, test.parts, left)?;
    spend_values(left, 2, test.matching, sizes, test.keys.as_slice())
}

/// The sizes of the addresses of the envelope that a test names.
fn envelope_sizes(mail: &Mail<'_>, parts: EnvelopeParts, most: u64) -> Option<Sizes>
    ensures { AreSizesWithin most (spec.envelope_sizes mail.now parts) result }
{
    let sender = one_sizes(parts.from, mail.from(), most)?;
    let recipient = one_sizes(parts.to, mail.to(), most)?;
    sender.and(recipient, most)
}

/// The sizes of an address, if it is asked for, otherwise of nothing.
fn one_sizes(asked: bool, address: &[u8], most: u64) -> Option<Sizes>
    ensures { AreSizesWithin most (spec.one_sizes asked address.now) result }
{
    if !asked {
        return Some(Sizes::NONE);
    }
    let octets = text_size(address.len())?;
    if most < octets {
        return None;
    }
    Some(Sizes { octets, count: 1 })
}
