//! What tests look at in the fields of a mail, kept from test to test.
ghost use Rattle.std.specs.Prelude.{◌≡◌, IfOk, sum_by};
ghost use Rattle.std.specs.List.{list_any};
ghost use Rattle.octets.specs.Ascii.{lowered};
ghost use Rattle.sieve_exec.specs.Sizes.{AreSizesWithin};
ghost use Rattle.sieve_exec.specs.Work.{named_sizes};

use crate::images::{FEW, distinct};
use crate::mail::Mail;
use crate::sizes::Sizes;
use octets::Octets;
use sieve_syntax::Collation;
use std::alloc::{AllocError, Global};
use std::collections::BTreeMap;
use std::marker::Model;
use std::mem;

/// What is read from the fields with a name.
pub trait FieldValues: Sized + Drop {
    ghost use Rattle.std.specs.Prelude.{◌≡◌, ℕ, List, IfOk};
    ghost use Rattle.sieve_exec.specs.declared.sizes.Sizes.{Sizes};
    ghost use Rattle.sieve_exec.specs.Mails.{MailSpec};
    ghost use Rattle.sieve_exec.specs.Sizes.{AreSizesWithin};

    ghost keyed: { MailSpec → List ℕ → Self };

    ghost sizes_of: { Self → Sizes };

    /// Reads the fields with a name, in lower case.
    fn read(alloc: Global, mail: &Mail<'_>, key: &Octets) -> Result<Self, AllocError>
        ensures { IfOk result (λ values. values ≡ keyed mail.now key.now) };

    /// How large the values are, or `None` if they have more than `most` octets.
    fn sizes(&self, most: u64) -> Option<Sizes>
        ensures { AreSizesWithin most (sizes_of self.now) result };
}

/// A test that looks at what is read from fields.
pub trait FieldTest<V: FieldValues> {
    ghost use Rattle.std.specs.Prelude.{◌≡◌, Bool, IfOk};

    ghost passes: { Self → V → Bool };

    /// Whether the test holds of what was read from the fields with one name.
    fn holds_of(&self, alloc: Global, values: &V) -> Result<bool, AllocError>
        ensures { IfOk result (λ holds. holds ≡ passes self.now values.now) };
}

/// A test that counts what is read from fields.
pub trait FieldCount<V: FieldValues> {
    ghost use Rattle.std.specs.Prelude.{◌≡◌, ℕ};

    ghost counted: { Self → V → ℕ };

    /// How many values the test counts in what was read from the fields with one name.
    fn count_of(&self, values: &V) -> usize
        ensures { result ≡ counted self.now values.now };
}

/// What was read from the fields of a mail that some test asked for. Contracts see the mail.
#[derive(Drop)]
pub struct FieldCache<'m, 'a, V: FieldValues> {
    mail: &'m Mail<'a>,
    known: BTreeMap<Octets, V>,
    /// Room for a name in lower case, which is reserved once and reused.
    room: Vec<u8>,
}

impl<'m, 'a, V: FieldValues> Model for FieldCache<'m, 'a, V> {
    ghost use Rattle.sieve_exec.specs.Mails.{MailSpec};
    ghost use Rattle.sieve_exec.specs.Indexes.{AreKnown};

    ghost Value = { MailSpec };

    ghost view = { λ cache. cache.mail.now };

    ghost invariant = { λ cache. AreKnown (V.keyed cache.mail.now) cache.known };
}

impl<'m, 'a, V: FieldValues> FieldCache<'m, 'a, V> {
    /// No test has asked for anything yet. Takes no memory.
    pub(crate) fn new(alloc: Global, mail: &'m Mail<'a>) -> FieldCache<'m, 'a, V>
        ensures { result ≡ mail.now }
    {
        FieldCache {
            mail,
            known: BTreeMap::new(alloc),
            room: Vec::new(alloc),
        }
    }

    /// A name in lower case, written into the room.
    fn key_of(&mut self, alloc: Global, name: &[u8]) -> Result<Octets, AllocError>
        ensures key { IfOk result (λ key. key ≡ lowered name.now) }
        ensures kept { self.new ≡ self.old }
    {
        let mut key = mem::replace(&mut self.room, Vec::new(alloc));
        key.clear();
        key.extend_from_slice(name)?;
        key.make_ascii_lowercase();
        Ok(Octets::from_vec(key))
    }

    /// Whether a test holds of the fields with one of these names. The fields with a name are read when the first test asks for them.
    /// Of more than a few names each is asked once, whatever its case: for n names n log n comparisons of them.
    pub(crate) fn holds<T: FieldTest<V>>(
        &mut self,
        alloc: Global,
        names: &[Octets],
        test: &T,
    ) -> Result<bool, AllocError>
        ensures holds { IfOk result (λ holds. holds ≡ list_any (λ name. T.passes test.now (V.keyed self.old (lowered name))) names.now) }
        ensures kept { self.new ≡ self.old }
    {
        if names.len() <= FEW {
            return self.holds_of_names(alloc, names, test);
        }
        let names = distinct(alloc, Collation::AsciiCasemap, names)?;
        self.holds_of_slices(alloc, names.as_slice(), test)
    }

    /// Whether a test holds of the fields with one of these names, as they stand.
    fn holds_of_names<T: FieldTest<V>>(
        &mut self,
        alloc: Global,
        names: &[Octets],
        test: &T,
    ) -> Result<bool, AllocError>
        ensures holds { IfOk result (λ holds. holds ≡ list_any (λ name. T.passes test.now (V.keyed self.old (lowered name))) names.now) }
        ensures kept { self.new ≡ self.old }
    {
        for name in names {
            if self.holds_at(alloc, name.as_slice(), test)? {
                return Ok(true);
            }
        }
        Ok(false)
    }

    /// The same of names that are slices.
    fn holds_of_slices<T: FieldTest<V>>(
        &mut self,
        alloc: Global,
        names: &[&[u8]],
        test: &T,
    ) -> Result<bool, AllocError>
        ensures holds { IfOk result (λ holds. holds ≡ list_any (λ name. T.passes test.now (V.keyed self.old (lowered name.now))) names.now) }
        ensures kept { self.new ≡ self.old }
    {
        for name in names {
            if self.holds_at(alloc, name, test)? {
                return Ok(true);
            }
        }
        Ok(false)
    }

    /// How large the values of the fields with these names are, or `None` if they have more than `most` octets.
    pub(crate) fn sizes(
        &mut self,
        alloc: Global,
        names: &[Octets],
        most: u64,
    ) -> Result<Option<Sizes>, AllocError>
        ensures sizes { IfOk result (AreSizesWithin most (named_sizes (λ name. V.sizes_of (V.keyed self.old (lowered name))) names.now)) }
        ensures kept { self.new ≡ self.old }
    {
        let mut sizes = Sizes::NONE;
        for name in names {
            let Some(here) = self.sizes_at(alloc, name.as_slice(), most)? else {
                return Ok(None);
            };
            let Some(both) = sizes.and(here, most) else {
                return Ok(None);
            };
            sizes = both;
        }
        Ok(Some(sizes))
    }

    /// How large the values that many keys are compared with are; nothing is looked at for a few keys.
    pub(crate) fn sizes_for(
        &mut self,
        alloc: Global,
        names: &[Octets],
        keys: &[Octets],
    ) -> Result<Sizes, AllocError>
        ensures { self.new ≡ self.old }
    {
        if keys.len() <= FEW {
            return Ok(Sizes::NONE);
        }
        let sizes = self.sizes(alloc, names, u64::MAX)?;
        Ok(sizes.unwrap_or(Sizes::NONE))
    }

    /// How large the values of the fields with a name are, whose ASCII case is ignored.
    fn sizes_at(
        &mut self,
        alloc: Global,
        name: &[u8],
        most: u64,
    ) -> Result<Option<Sizes>, AllocError>
        ensures sizes { IfOk result (AreSizesWithin most (V.sizes_of (V.keyed self.old (lowered name.now)))) }
        ensures kept { self.new ≡ self.old }
    {
        let key = self.key_of(alloc, name)?;
        if let Some(values) = self.known.get(&key) {
            let sizes = values.sizes(most);
            self.room = key.into_vec();
            return Ok(sizes);
        }
        let values = V::read(alloc, self.mail, &key)?;
        let sizes = values.sizes(most);
        self.known.insert(key, values)?;
        Ok(sizes)
    }

    /// How many values a test counts in the fields with these names.
    pub(crate) fn count<T: FieldCount<V>>(
        &mut self,
        alloc: Global,
        names: &[Octets],
        test: &T,
    ) -> Result<u128, AllocError>
        ensures count { IfOk result (λ count. count ≡ sum_by (λ name. T.counted test.now (V.keyed self.old (lowered name))) names.now) }
        ensures kept { self.new ≡ self.old }
    {
        let mut total: u128 = 0;
        for name in names {
            total += self.count_at(alloc, name.as_slice(), test)? as u128;
        }
        Ok(total)
    }

    /// How many values a test counts in the fields with a name, whose ASCII case is ignored.
    fn count_at<T: FieldCount<V>>(
        &mut self,
        alloc: Global,
        name: &[u8],
        test: &T,
    ) -> Result<usize, AllocError>
        ensures count { IfOk result (λ count. count ≡ T.counted test.now (V.keyed self.old (lowered name.now))) }
        ensures kept { self.new ≡ self.old }
    {
        let key = self.key_of(alloc, name)?;
        if let Some(values) = self.known.get(&key) {
            let count = test.count_of(values);
            self.room = key.into_vec();
            return Ok(count);
        }
        let values = V::read(alloc, self.mail, &key)?;
        let count = test.count_of(&values);
        self.known.insert(key, values)?;
        Ok(count)
    }

    /// Whether a test holds of the fields with a name, whose ASCII case is ignored.
    fn holds_at<T: FieldTest<V>>(
        &mut self,
        alloc: Global,
        name: &[u8],
        test: &T,
    ) -> Result<bool, AllocError>
        ensures holds { IfOk result (λ holds. holds ≡ T.passes test.now (V.keyed self.old (lowered name.now))) }
        ensures kept { self.new ≡ self.old }
    {
        let key = self.key_of(alloc, name)?;
        if let Some(values) = self.known.get(&key) {
            let holds = test.holds_of(alloc, values)?;
            self.room = key.into_vec();
            return Ok(holds);
        }
        let values = V::read(alloc, self.mail, &key)?;
        let holds = test.holds_of(alloc, &values)?;
        self.known.insert(key, values)?;
        Ok(holds)
    }
}
