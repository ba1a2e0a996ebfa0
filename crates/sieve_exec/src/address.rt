//! What `address` looks at: the addresses of fields (RFC 5228, 5.1).
ghost use Rattle.std.specs.Prelude.{◌≡◌, ◌≤◌, IfOk, cond, map, count_by};
ghost use Rattle.std.specs.List.{list_any, flat_map};
ghost use Rattle.std.specs.Ordering.{nat_cmp};
ghost use Rattle.std.specs.Cmp.Lexicographic.{slice_cmp};
ghost use Rattle.std.specs.BTreeSet.{contains};
ghost use Rattle.mail_head.specs.Heads.{unfold_of};
ghost use Rattle.mail_address.specs.Reading.{addrs};
ghost use Rattle.sieve_exec.specs.Counts.{has_part};
ghost use Rattle.sieve_exec.specs.Images.{text_image};
ghost use Rattle.sieve_exec.specs.Indexes.{is_address_key};
ghost use Rattle.sieve_exec.specs.Parts.{address_part_of};
ghost use Rattle.sieve_exec.specs.Ready.{matches_of, some_passes};
ghost use Rattle.sieve_exec.specs.Sizes.{AreSizesWithin};
ghost use Rattle.sieve_exec.specs.Work.{sizes_of_addresses};

use crate::field_cache::{FieldCount, FieldTest, FieldValues};
use crate::images::is_image;
use crate::joined_address::{JoinedAddress, push_joined};
use crate::mail::Mail;
use crate::ready_key::ReadyKey;
use crate::ready_keys::{ReadyKeys, Values};
use crate::sizes::Sizes;
use mail_address::addresses;
use mail_head::unfold_value;
use octets::{List, Octets};
use sieve_syntax::{Address, AddressPart, Collation};
use std::alloc::{AllocError, Global};
use std::collections::BTreeSet;

/// The names of the fields that have addresses, in lower case.
const ADDRESS_FIELDS: [&[u8]; 14] = [
    b"from",
    b"to",
    b"cc",
    b"bcc",
    b"sender",
    b"reply-to",
    b"resent-from",
    b"resent-to",
    b"resent-cc",
    b"resent-bcc",
    b"resent-sender",
    b"delivered-to",
    b"x-original-to",
    b"return-path",
];

impl FieldValues for List<JoinedAddress> {
    ghost use Rattle.sieve_exec.specs.Indexes.{addresses_keyed};
    ghost use Rattle.sieve_exec.specs.Work.{sizes_of_addresses};

    ghost keyed = { addresses_keyed };

    ghost sizes_of = { sizes_of_addresses };

    /// No addresses if fields with this name don't have any.
    fn read(
        alloc: Global,
        mail: &Mail<'_>,
        key: &Octets,
    ) -> Result<List<JoinedAddress>, AllocError> {
        if !is_address_key(key.as_slice()) {
            return Ok(List::new(alloc));
        }
        match mail.raws(key) {
            Some(raws) => addresses_in(alloc, raws.as_slice()),
            None => Ok(List::new(alloc)),
        }
    }

    fn sizes(&self, most: u64) -> Option<Sizes> {
        address_sizes(self.as_slice(), most)
    }
}

/// The keys of a test `address`, prepared, and the part that is compared with them.
#[derive(Drop)]
pub struct ReadyAddress<'t> {
    pub(crate) part: AddressPart,
    pub(crate) keys: ReadyKeys<'t>,
}

impl FieldTest<List<JoinedAddress>> for ReadyAddress<'_> {
    ghost use Rattle.std.specs.List.{list_any};
    ghost use Rattle.sieve_exec.specs.Parts.{address_part_of};
    ghost use Rattle.sieve_exec.specs.Matches.{part_matches};

    ghost passes = { λ ready found. list_any (λ one. part_matches ready.keys.collation ready.keys.matching ready.keys.keys (address_part_of ready.part one)) found };

    fn holds_of(&self, alloc: Global, values: &List<JoinedAddress>) -> Result<bool, AllocError> {
        if values.is_empty() {
            return Ok(false);
        }
        let parts = Parts {
            part: self.part,
            found: values.as_slice(),
        };
        self.keys.match_some(alloc, &parts)
    }
}

/// A part of addresses; those without it are left out.
#[derive(Drop)]
pub struct Parts<'v> {
    part: AddressPart,
    found: &'v [JoinedAddress],
}

impl Values for Parts<'_> {
    ghost use Rattle.std.specs.List.{filter_map};
    ghost use Rattle.sieve_exec.specs.Parts.{address_part_of};

    ghost texts = { λ parts. filter_map (address_part_of parts.part) parts.found.now };

    fn some_matches(&self, key: &ReadyKey<'_>) -> bool {
        some_matches(self.part, self.found, key)
    }

    fn some_is_image(
        &self,
        alloc: Global,
        collation: Collation,
        images: &BTreeSet<Octets>,
    ) -> Result<bool, AllocError> {
        some_is_image(alloc, collation, images, self.part, self.found)
    }
}

impl FieldCount<List<JoinedAddress>> for Address {
    ghost use Rattle.std.specs.Prelude.{count_by};
    ghost use Rattle.sieve_exec.specs.Counts.{has_part};

    ghost counted = { λ address found. count_by (has_part address.part) found };

    fn count_of(&self, values: &List<JoinedAddress>) -> usize {
        count_parts(self.part, values.as_slice())
    }
}

/// Whether fields with a name, in lower case, have addresses.
fn is_address_key(key: &[u8]) -> bool
    ensures { result ≡ is_address_key key.now }
{
    ADDRESS_FIELDS.contains(&key)
}

/// The addresses in raw values, which are unfolded but not decoded. Linear in the values.
fn addresses_in(alloc: Global, raws: &[&[u8]]) -> Result<List<JoinedAddress>, AllocError>
    ensures { IfOk result (λ found. found ≡ flat_map addrs (map unfold_of (map (λ raw. raw.now) raws.now))) }
{
    let mut found = List::new(alloc);
    for raw in raws {
        let value = unfold_value(alloc, raw)?;
        let more = addresses(alloc, value.as_slice())?;
        push_joined(alloc, &mut found, more.as_slice())?;
    }
    Ok(found)
}

/// The sizes of addresses as `:all` has them, or `None` if they have more than `most` octets.
fn address_sizes(found: &[JoinedAddress], most: u64) -> Option<Sizes>
    ensures { AreSizesWithin most (sizes_of_addresses found.now) result }
{
    let mut sizes = Sizes::NONE;
    for one in found {
        sizes = sizes.and_text(one.len(), most)?;
    }
    Some(sizes)
}

/// How many addresses have this part.
fn count_parts(part: AddressPart, found: &[JoinedAddress]) -> usize
    ensures { result ≡ count_by (has_part part) found.now }
{
    let mut count = 0;
    for one in found {
        count += count_part(part, one);
    }
    count
}

/// 1 if an address has this part, otherwise 0.
fn count_part(part: AddressPart, one: &JoinedAddress) -> usize
    ensures count { result ≡ cond (has_part part one.now) 1 0 }
    ensures small { result ≤ 1 }
{
    match one.part(part) {
        Some(_) => 1,
        None => 0,
    }
}

/// Whether the part of some address matches a key.
fn some_matches(part: AddressPart, found: &[JoinedAddress], key: &ReadyKey<'_>) -> bool
    ensures { result ≡ list_any (λ one. some_passes (matches_of key.now) (address_part_of part one)) found.now }
{
    found.iter().any(|one| one_matches(part, one, key))
}

/// Whether the part of an address is there and matches a key.
fn one_matches(part: AddressPart, one: &JoinedAddress, key: &ReadyKey<'_>) -> bool
    ensures { result ≡ some_passes (matches_of key.now) (address_part_of part one.now) }
{
    match one.part(part) {
        Some(text) => key.matches(text),
        None => false,
    }
}

/// Whether a set has the image of the part of some address.
fn some_is_image(
    alloc: Global,
    collation: Collation,
    images: &BTreeSet<Octets>,
    part: AddressPart,
    found: &[JoinedAddress],
) -> Result<bool, AllocError>
    ensures { IfOk result (λ there. there ≡ list_any (λ one. some_passes (λ text. contains (slice_cmp nat_cmp) images.now (text_image collation text)) (address_part_of part one)) found.now) }
{
    for one in found {
        if one_is_image(alloc, collation, images, part, one)? {
            return Ok(true);
        }
    }
    Ok(false)
}

/// Whether the part of an address is there and a set has its image.
fn one_is_image(
    alloc: Global,
    collation: Collation,
    images: &BTreeSet<Octets>,
    part: AddressPart,
    one: &JoinedAddress,
) -> Result<bool, AllocError>
    ensures { IfOk result (λ there. there ≡ some_passes (λ text. contains (slice_cmp nat_cmp) images.now (text_image collation text)) (address_part_of part one.now)) }
{
    match one.part(part) {
        Some(text) => is_image(alloc, collation, images, text),
        None => Ok(false),
    }
}
