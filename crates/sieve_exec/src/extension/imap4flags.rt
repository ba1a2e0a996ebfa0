//! `imap4flags`: the flags that a copy gets, `:flags`, and the test of those that are set, `hasflag` (RFC 5232, 4 and 5).
ghost use Rattle.std.specs.Prelude.{◌≡◌, ◌&&◌, IfOk, sum_by};
ghost use Rattle.std.specs.List.{flat_map};
ghost use Rattle.sieve_syntax.specs.RunState.{flags_given as flags_given_of};
ghost use Rattle.sieve_exec.specs.Mails.{is_some_of};
ghost use Rattle.sieve_exec.specs.Matches.{matches_key as matches_key_of, matches_some as matches_some_of};
ghost use Rattle.sieve_exec.specs.Sizes.{IsLeft, tried_work};
ghost use Rattle.sieve_exec.specs.Extension.Imap4flags.{asks_words, flag_keys, words_of, flags_work};
ghost use Rattle.sieve_exec.specs.Extension.Imap4flags as spec;

use crate::extension::relational::is_count;
use crate::matching::{count_matches, matches_key, matches_some};
use crate::run_state::RunState;
use crate::work::{spend_texts, spend_tried};
use mail_flags::Flags;
use octets::{Octets, Texts, is_blank};
use sieve_syntax::{HasFlag, Matching};
use std::alloc::{AllocError, Global};

impl RunState {
    ghost use Rattle.sieve_exec.specs.Runs.{run_state_of};

    /// The text of the flags that a command gives a copy: those of its `:flags`, or otherwise those that are set (RFC 5232, 5).
    pub(crate) fn flags_given(
        &self,
        alloc: Global,
        given: &Option<Texts>,
    ) -> Result<Octets, AllocError>
        ensures { IfOk result (λ text. text ≡ flags_given_of given.now (run_state_of self.now)) }
    {
        match given {
            Some(texts) => {
                let mut named = Flags::new(alloc);
                named.add(alloc, texts.as_slice())?;
                named.write(alloc)
            }
            None => self.flags.write(alloc),
        }
    }
}

/// Whether `hasflag` holds of these flags (RFC 5232, 4; RFC 5231, 4.2).
///
/// Each flag is compared with each key, or with each word of the keys, which are not copied: for each pair the time is that of `is`,
/// `contains` or `matches`, or of one pass over both. Takes no memory.
pub(crate) fn flag_holds(flags: &[Octets], test: &HasFlag) -> bool
    ensures { result ≡ spec.flag_holds flags.now test.now }
{
    if !is_count(test.matching) {
        return some_flag_matches(flags, test);
    }
    let count = flags.len() as u128;
    count_matches(test.comparator, test.matching, test.keys.as_slice(), count)
}

/// Whether some flag matches some key.
fn some_flag_matches(flags: &[Octets], test: &HasFlag) -> bool
    ensures { result ≡ spec.some_flag_matches flags.now test.now }
{
    flags.iter().any(|flag| flag_matches(test, flag.as_slice()))
}

/// Whether a flag matches some key.
fn flag_matches(test: &HasFlag, flag: &[u8]) -> bool
    ensures { result ≡ matches_some_of test.now.comparator test.now.matching (flag_keys test.now.matching test.now.keys) flag.now }
{
    if asks_words(test.matching) {
        matches_some_word(test, test.keys.as_slice(), flag)
    } else {
        matches_some(test.comparator, test.matching, test.keys.as_slice(), flag)
    }
}

/// Whether the texts of a test name words, each of which is a key.
fn asks_words(matching: Matching) -> bool
    ensures { result ≡ asks_words matching }
{
    matches!(matching, Matching::Is | Matching::Contains)
}

/// Whether a flag matches some word of some text.
fn matches_some_word(test: &HasFlag, texts: &[Octets], flag: &[u8]) -> bool
    ensures { result ≡ matches_some_of test.now.comparator test.now.matching (flat_map words_of texts.now) flag.now }
{
    texts
        .iter()
        .any(|text| matches_words(test, text.as_slice(), flag))
}

/// Whether a flag matches some word of a text.
fn matches_words(test: &HasFlag, text: &[u8], flag: &[u8]) -> bool
    ensures { result ≡ matches_some_of test.now.comparator test.now.matching (words_of text.now) flag.now }
{
    text.split(|octet| is_blank(*octet))
        .any(|word| matches_word(test, word, flag))
}

/// Whether a flag matches a word; an empty text isn't a word.
fn matches_word(test: &HasFlag, word: &[u8], flag: &[u8]) -> bool
    ensures { result ≡ is_some_of word.now && matches_key_of test.now.comparator test.now.matching word.now flag.now }
{
    !word.is_empty() && matches_key(test.comparator, test.matching, word, flag)
}

/// What `hasflag` leaves: flags and keys are looked at, and flags compared with the words of keys.
pub(crate) fn spend_flags(flags: &[Octets], test: &HasFlag, left: u64) -> Option<u64>
    ensures { IsLeft left (flags_work flags.now test.now) result }
{
    let keys = test.keys.as_slice();
    let rest = spend_texts(left, flags)?;
    let octets = left - rest;
    let left = spend_texts(rest, keys)?;
    spend_words(left, octets, keys)
}

/// What trying keys at each of that many octets leaves.
fn spend_words(left: u64, octets: u64, keys: &[Octets]) -> Option<u64>
    ensures { IsLeft left (sum_by (tried_work octets) keys.now) result }
{
    let mut left = left;
    for key in keys {
        left = spend_tried(left, octets, key.as_slice())?;
    }
    Some(left)
}
