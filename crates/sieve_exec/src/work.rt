//! How much work a test takes, and what that leaves of the work that a run may take.
ghost use Rattle.std.specs.Prelude.{◌≡◌, ◌<◌, ◌+◌, ◌*◌, ◌^◌, sum_by, count_by};
ghost use Rattle.std.specs.List.{list_any};
ghost use Rattle.std.specs.Option.{SomeIff};
ghost use Rattle.sieve_exec.specs.Sizes.{IsLeft, AreSizesWithin, is_question, is_asterisk, tried_work, paired as paired_of, starred as starred_of, contains_work, pattern_work, key_work, keys_work, names_work, compared as compared_by, values_work, text_size, texts_size};

use crate::extension::relational::is_count;
use crate::sizes::{Sizes, text_size as size_of};
use octets::Octets;
use sieve_match::MAX_PLACES;
use sieve_syntax::Matching;

/// How much work the tests of a run may take together. A unit is about one octet that is looked at or compared, and takes 0.3 ns of a
/// processor in the mean of random runs, and 1.3 ns in the worst that was found (patterns with a `?` over one long value). So
/// the tests of a run take at most 260 ms, as far as is known. 1,000 keys, or 800 rules, can be compared with all of a header of 100 kB
/// within this limit.
pub const MAX_WORK: u64 = 200_000_000;

/// One text of 40 octets: no number of values and no part of a date is longer.
pub(crate) const SHORT: Sizes = Sizes {
    octets: 48,
    count: 1,
};

/// The most octets of a key for which each octet of a value is looked at only once.
const MAX_READY: usize = MAX_PLACES;

/// What some work leaves, if it may be taken.
pub(crate) fn spend(left: u64, work: u64) -> Option<u64>
    ensures { IsLeft left work result }
{
    if left < work {
        return None;
    }
    Some(left - work)
}

/// What looking at a text leaves.
pub(crate) fn spend_text(left: u64, text: &[u8]) -> Option<u64>
    ensures { IsLeft left (text_size text.now) result }
{
    spend(left, size_of(text.len())?)
}

/// What looking at texts leaves.
pub(crate) fn spend_texts(left: u64, texts: &[Octets]) -> Option<u64>
    ensures { IsLeft left (texts_size texts.now) result }
{
    let mut left = left;
    for text in texts {
        left = spend_text(left, text.as_slice())?;
    }
    Some(left)
}

/// What looking up names of fields leaves.
pub(crate) fn spend_names(left: u64, names: &[Octets]) -> Option<u64>
    ensures { IsLeft left (names_work names.now) result }
{
    let rest = spend_texts(left, names)?;
    spend(left, (left - rest).checked_mul(16)?)
}

/// What looking at values in fields with that many names, and comparing them with keys, leaves.
pub(crate) fn spend_values(
    left: u64,
    names: u64,
    matching: Matching,
    sizes: Sizes,
    keys: &[Octets],
) -> Option<u64>
    ensures { IsLeft left (values_work names matching sizes keys.now) result }
{
    let left = spend(left, sizes.octets)?;
    spend_keys(left, names, matching, compared(matching, sizes), keys)
}

/// The sizes of what is compared: with `:count` those of a number.
fn compared(matching: Matching, sizes: Sizes) -> Sizes
    ensures { result ≡ compared_by matching sizes }
{
    if is_count(matching) {
        return SHORT;
    }
    sizes
}

/// What comparing values of these sizes, in fields with that many names, with keys leaves.
pub(crate) fn spend_keys(
    left: u64,
    names: u64,
    matching: Matching,
    sizes: Sizes,
    keys: &[Octets],
) -> Option<u64>
    ensures { IsLeft left (keys_work names matching sizes keys.now) result }
{
    let mut left = left;
    for key in keys {
        left = spend_key(left, names, matching, sizes, key.as_slice())?;
    }
    Some(left)
}

/// What comparing values of these sizes with a key leaves.
fn spend_key(left: u64, names: u64, matching: Matching, sizes: Sizes, key: &[u8]) -> Option<u64>
    ensures { IsLeft left (key_work names matching sizes key.now) result }
{
    match matching {
        Matching::Contains => spend_contains(left, names, sizes, key),
        Matching::Matches => spend_pattern(left, sizes, key),
        _ => spend_paired(left, sizes, size_of(key.len())?),
    }
}

/// What searching for a key leaves.
fn spend_contains(left: u64, names: u64, sizes: Sizes, key: &[u8]) -> Option<u64>
    ensures { IsLeft left (contains_work names sizes key.now) result }
{
    if key.len() > MAX_READY {
        let once = paired(sizes, size_of(key.len())?)?;
        return spend(left, once.checked_mul(8)?);
    }
    let left = spend(left, sizes.octets)?;
    spend(
        left,
        names.checked_mul(size_of(key.len())?.checked_add(256)?)?,
    )
}

/// What comparing values with a pattern leaves.
fn spend_pattern(left: u64, sizes: Sizes, key: &[u8]) -> Option<u64>
    ensures { IsLeft left (pattern_work sizes key.now) result }
{
    if key.len() <= MAX_READY {
        return spend(left, starred(sizes, key)?);
    }
    if has_question(key) {
        return spend_tried(left, sizes.octets, key);
    }
    spend(left, starred(sizes, key)?.checked_mul(8)?)
}

/// What looking at all values, and `each` for each of them, leaves.
fn spend_paired(left: u64, sizes: Sizes, each: u64) -> Option<u64>
    ensures { IsLeft left (paired_of sizes each) result }
{
    spend(left, paired(sizes, each)?)
}

/// The work of looking at all values, and `each` for each of them. `None` if it exceeds the numbers.
fn paired(sizes: Sizes, each: u64) -> Option<u64>
    ensures { SomeIff result (paired_of sizes each < 2 ^ 64) (paired_of sizes each) }
{
    sizes.count.checked_mul(each)?.checked_add(sizes.octets)
}

/// The same of a pattern. `None` if it exceeds the numbers. Linear in the pattern.
fn starred(sizes: Sizes, key: &[u8]) -> Option<u64>
    ensures { SomeIff result (starred_of sizes key.now < 2 ^ 64) (starred_of sizes key.now) }
{
    let between = sizes.count.checked_mul(count_stars(key).saturating_sub(1))?;
    paired(sizes, size_of(key.len())?)?.checked_add(between.checked_mul(256)?)
}

/// What trying a key at each of that many octets leaves.
pub(crate) fn spend_tried(left: u64, octets: u64, key: &[u8]) -> Option<u64>
    ensures { IsLeft left (tried_work octets key.now) result }
{
    let pairs = octets.checked_mul(size_of(key.len())?)?;
    spend(left, pairs.checked_mul(8)?)
}

/// The number of stars.
fn count_stars(key: &[u8]) -> u64
    ensures { result ≡ count_by is_asterisk key.now }
{
    let mut count = 0;
    for octet in key {
        if *octet == b'*' {
            count += 1;
        }
    }
    count
}

fn has_question(key: &[u8]) -> bool
    ensures { result ≡ list_any is_question key.now }
{
    key.iter().any(|octet| *octet == b'?')
}
