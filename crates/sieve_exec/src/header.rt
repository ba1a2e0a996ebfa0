//! What `header` looks at: the texts of fields (RFC 5228, 5.7).
ghost use Rattle.std.specs.Prelude.{◌≡◌, IfOk, map};
ghost use Rattle.std.specs.List.{list_any};
ghost use Rattle.mail_head.specs.Heads.{unfold_of};
ghost use Rattle.std.specs.Ordering.{nat_cmp};
ghost use Rattle.std.specs.Cmp.Lexicographic.{slice_cmp};
ghost use Rattle.std.specs.BTreeSet.{contains};
ghost use Rattle.sieve_exec.specs.Images.{text_image};
ghost use Rattle.sieve_exec.specs.Mails.{text_shown};
ghost use Rattle.sieve_exec.specs.Ready.{matches_of};

use crate::field_cache::{FieldCount, FieldTest, FieldValues};
use crate::images::is_image;
use crate::mail::Mail;
use crate::ready_key::ReadyKey;
use crate::ready_keys::{ReadyKeys, Values};
use crate::sizes::{Sizes, sizes_in};
use mail_head::unfold_value;
use mail_words::decoded;
use octets::{Octets, Texts, trim_blanks};
use sieve_syntax::{Collation, Header};
use std::alloc::{AllocError, Global};
use std::collections::BTreeSet;

impl FieldValues for Texts {
    ghost use Rattle.sieve_exec.specs.Indexes.{texts_keyed};
    ghost use Rattle.sieve_exec.specs.Sizes.{sizes_of};

    ghost keyed = { texts_keyed };

    ghost sizes_of = { sizes_of };

    fn read(alloc: Global, mail: &Mail<'_>, key: &Octets) -> Result<Texts, AllocError> {
        match mail.raws(key) {
            Some(raws) => texts_in(alloc, raws.as_slice()),
            None => Ok(Texts::new(alloc)),
        }
    }

    fn sizes(&self, most: u64) -> Option<Sizes> {
        sizes_in(self.as_slice(), most)
    }
}

impl FieldTest<Texts> for ReadyKeys<'_> {
    ghost use Rattle.std.specs.List.{list_any};
    ghost use Rattle.sieve_exec.specs.Ready.{matches_some_of};

    ghost passes = { λ keys texts. list_any (matches_some_of keys) texts };

    fn holds_of(&self, alloc: Global, values: &Texts) -> Result<bool, AllocError> {
        if values.is_empty() {
            return Ok(false);
        }
        self.match_some(alloc, values)
    }
}

impl Values for Texts {
    ghost texts = { λ texts. texts };

    fn some_matches(&self, key: &ReadyKey<'_>) -> bool {
        some_matches(self.as_slice(), key)
    }

    fn some_is_image(
        &self,
        alloc: Global,
        collation: Collation,
        images: &BTreeSet<Octets>,
    ) -> Result<bool, AllocError> {
        some_is_image(alloc, collation, images, self.as_slice())
    }
}

impl FieldCount<Texts> for Header {
    ghost use Rattle.std.specs.Prelude.{length};

    ghost counted = { λ header texts. length texts };

    fn count_of(&self, values: &Texts) -> usize {
        values.len()
    }
}

/// The texts of raw values.
fn texts_in(alloc: Global, raws: &[&[u8]]) -> Result<Texts, AllocError>
    ensures { IfOk result (λ texts. texts ≡ map text_shown (map unfold_of (map (λ raw. raw.now) raws.now))) }
{
    let mut texts = Texts::new(alloc);
    for raw in raws {
        texts.push(text_in(alloc, raw)?)?;
    }
    Ok(texts)
}

/// The text of a raw value: unfolded, decoded, and then without the blanks at its ends. Linear in the value.
fn text_in(alloc: Global, raw: &[u8]) -> Result<Octets, AllocError>
    ensures { IfOk result (λ text. text ≡ text_shown (unfold_of raw.now)) }
{
    let value = unfold_value(alloc, raw)?;
    let text = decoded(alloc, value.as_slice())?;
    Octets::from_slice(alloc, trim_blanks(text.as_slice()))
}

/// Whether some text matches a key.
fn some_matches(texts: &[Octets], key: &ReadyKey<'_>) -> bool
    ensures { result ≡ list_any (matches_of key.now) texts.now }
{
    texts.iter().any(|text| key.matches(text.as_slice()))
}

/// Whether a set has the image of some text.
fn some_is_image(
    alloc: Global,
    collation: Collation,
    images: &BTreeSet<Octets>,
    texts: &[Octets],
) -> Result<bool, AllocError>
    ensures { IfOk result (λ there. there ≡ list_any (λ text. contains (slice_cmp nat_cmp) images.now (text_image collation text)) texts.now) }
{
    for text in texts {
        if is_image(alloc, collation, images, text.as_slice())? {
            return Ok(true);
        }
    }
    Ok(false)
}
