//! What the tests of a run look at.
ghost use Rattle.std.specs.Prelude.{◌≡◌, IfOk};
ghost use Rattle.sieve_exec.specs.Sizes.{IsLeft};
ghost use Rattle.sieve_exec.specs.Work.{header_sizes, address_sizes, fields_work, work_by};
ghost use Rattle.sieve_exec.specs.Truth.{truth_by, is_beyond, header_holds, some_text_matches, address_holds, some_address_matches};

use crate::address::ReadyAddress;
use crate::extension::relational::is_count;
use crate::extension::{extension_holds, spend_extension};
use crate::field_cache::FieldCache;
use crate::joined_address::JoinedAddress;
use crate::mail::Mail;
use crate::matching::count_matches;
use crate::ready_keys::ReadyKeys;
use crate::work::{spend, spend_names, spend_values};
use mail_flags::Flags;
use octets::{List, Texts};
use sieve_syntax::{Address, Bound, Header, MailCheck, Size};
use std::alloc::{AllocError, Global};
use std::marker::Model;

/// A mail during a run: it keeps what tests have looked at, so that the size is counted at most once, and the values of a
/// field are looked up, unfolded and decoded at most once for each name, however many tests ask for them. Contracts see
/// the mail.
#[derive(Drop)]
pub struct CachedMail<'m, 'a> {
    mail: &'m Mail<'a>,
    texts: FieldCache<'m, 'a, Texts>,
    addresses: FieldCache<'m, 'a, List<JoinedAddress>>,
    counted: Option<u64>,
}

impl<'m, 'a> Model for CachedMail<'m, 'a> {
    ghost use Rattle.std.specs.Prelude.{◌≡◌, IfSome};
    ghost use Rattle.sieve_exec.specs.Mails.{MailSpec};

    ghost Value = { MailSpec };

    ghost view = { λ cached. cached.mail.now };

    ghost invariant = { λ cached. (cached.texts ≡ cached.mail.now) × (cached.addresses ≡ cached.mail.now)
        × IfSome cached.counted (λ size. size ≡ cached.mail.now.size) };
}

impl<'m, 'a> CachedMail<'m, 'a> {
    /// Nothing has been looked at yet. Takes no memory.
    pub fn new(alloc: Global, mail: &'m Mail<'a>) -> CachedMail<'m, 'a>
        ensures { result ≡ mail.now }
    {
        CachedMail {
            mail,
            texts: FieldCache::new(alloc, mail),
            addresses: FieldCache::new(alloc, mail),
            counted: None,
        }
    }

    /// Whether a test that looks at the message, its envelope or the flags of the run holds (RFC 5228, 5.1, 5.4, 5.5, 5.7, 5.9;
    /// RFC 5231; RFC 5232, 4; RFC 5260, 4 and 5; RFC 5490, 3.1).
    ///
    /// A value is compared with each key: for each pair the time is that of `is`, `contains` or `matches`, or of one pass over both, and
    /// if a test is the first to ask for a field, also linear in the field's values. Of long lists `header` and `address` ask each name
    /// and key once, and with many values a key of `:is` is looked up ([`ReadyKeys`]).
    pub fn evaluate(
        &mut self,
        alloc: Global,
        check: &MailCheck,
        flags: &Flags,
    ) -> Result<bool, AllocError>
        ensures truth { IfOk result (λ holds. holds ≡ truth_by self.old flags.now check.now) }
        ensures kept { self.new ≡ self.old }
    {
        match check {
            MailCheck::Size(size) => Ok(is_beyond(*size, self.size())),
            MailCheck::Exists(names) => self.mail.all_exist(alloc, names.as_slice()),
            MailCheck::Header(header) => self.header_holds(alloc, header),
            MailCheck::Address(address) => self.address_holds(alloc, address),
            MailCheck::Extension(test) => extension_holds(alloc, self.mail, flags, test),
        }
    }

    /// What a test leaves of the work that may be taken, or `None` if it takes more (`specs/Work.antt`).
    ///
    /// The fields that the test looks at are read if no test has asked for them yet: once in a run, and linear in the message. No
    /// value is compared. Otherwise linear in names and keys, and in the values of each name, up to the work that may be taken.
    pub(crate) fn spend(
        &mut self,
        alloc: Global,
        check: &MailCheck,
        flags: &Flags,
        left: u64,
    ) -> Result<Option<u64>, AllocError>
        ensures left { IfOk result (IsLeft left (work_by self.old flags.now check.now)) }
        ensures kept { self.new ≡ self.old }
    {
        match check {
            MailCheck::Size(_) => Ok(spend(left, 1)),
            MailCheck::Exists(names) => Ok(spend_names(left, names.as_slice())),
            MailCheck::Header(header) => self.spend_header(alloc, header, left),
            MailCheck::Address(address) => self.spend_address(alloc, address, left),
            MailCheck::Extension(test) => spend_extension(alloc, self.mail, flags, test, left),
        }
    }

    /// What `header` leaves.
    fn spend_header(
        &mut self,
        alloc: Global,
        header: &Header,
        left: u64,
    ) -> Result<Option<u64>, AllocError>
        ensures left { IfOk result (IsLeft left (fields_work header.now.fields header.now.matching (header_sizes self.old header.now.fields) header.now.keys)) }
        ensures kept { self.new ≡ self.old }
    {
        let names = header.fields.as_slice();
        let Some(left) = spend_names(left, names) else {
            return Ok(None);
        };
        let Some(sizes) = self.texts.sizes(alloc, names, left)? else {
            return Ok(None);
        };
        Ok(spend_values(
            left,
            names.len() as u64,
            header.matching,
            sizes,
            header.keys.as_slice(),
        ))
    }

    /// What `address` leaves.
    fn spend_address(
        &mut self,
        alloc: Global,
        address: &Address,
        left: u64,
    ) -> Result<Option<u64>, AllocError>
        ensures left { IfOk result (IsLeft left (fields_work address.now.fields address.now.matching (address_sizes self.old address.now.fields) address.now.keys)) }
        ensures kept { self.new ≡ self.old }
    {
        let names = address.fields.as_slice();
        let Some(left) = spend_names(left, names) else {
            return Ok(None);
        };
        let Some(sizes) = self.addresses.sizes(alloc, names, left)? else {
            return Ok(None);
        };
        Ok(spend_values(
            left,
            names.len() as u64,
            address.matching,
            sizes,
            address.keys.as_slice(),
        ))
    }

    /// The mail's size, which is counted when it is first asked for.
    fn size(&mut self) -> u64
        ensures size { result ≡ self.old.size }
        ensures kept { self.new ≡ self.old }
    {
        match self.counted {
            Some(size) => size,
            None => {
                let size = self.mail.size();
                self.counted = Some(size);
                size
            }
        }
    }

    /// Whether `header` holds (RFC 5228, 5.7; RFC 5231, 4.2).
    fn header_holds(&mut self, alloc: Global, header: &Header) -> Result<bool, AllocError>
        ensures truth { IfOk result (λ holds. holds ≡ header_holds self.old header.now) }
        ensures kept { self.new ≡ self.old }
    {
        if !is_count(header.matching) {
            return self.some_text_matches(alloc, header);
        }
        let names = header.fields.as_slice();
        let count = self.texts.count(alloc, names, header)?;
        Ok(count_matches(
            header.comparator,
            header.matching,
            header.keys.as_slice(),
            count,
        ))
    }

    /// Whether some text of the fields matches some key.
    fn some_text_matches(&mut self, alloc: Global, header: &Header) -> Result<bool, AllocError>
        ensures truth { IfOk result (λ holds. holds ≡ some_text_matches self.old header.now) }
        ensures kept { self.new ≡ self.old }
    {
        let names = header.fields.as_slice();
        let keys = header.keys.as_slice();
        let sizes = self.texts.sizes_for(alloc, names, keys)?;
        let ready = ReadyKeys::new(alloc, header.comparator, header.matching, keys, sizes)?;
        self.texts.holds(alloc, names, &ready)
    }

    /// Whether `address` holds (RFC 5228, 5.1; RFC 5231, 4.2).
    fn address_holds(&mut self, alloc: Global, address: &Address) -> Result<bool, AllocError>
        ensures truth { IfOk result (λ holds. holds ≡ address_holds self.old address.now) }
        ensures kept { self.new ≡ self.old }
    {
        if !is_count(address.matching) {
            return self.some_address_matches(alloc, address);
        }
        let names = address.fields.as_slice();
        let count = self.addresses.count(alloc, names, address)?;
        Ok(count_matches(
            address.comparator,
            address.matching,
            address.keys.as_slice(),
            count,
        ))
    }

    /// Whether the part of some address of the fields matches some key.
    fn some_address_matches(&mut self, alloc: Global, address: &Address) -> Result<bool, AllocError>
        ensures truth { IfOk result (λ holds. holds ≡ some_address_matches self.old address.now) }
        ensures kept { self.new ≡ self.old }
    {
        let names = address.fields.as_slice();
        let keys = address.keys.as_slice();
        let sizes = self.addresses.sizes_for(alloc, names, keys)?;
        let ready = ReadyAddress {
            part: address.part,
            keys: ReadyKeys::new(alloc, address.comparator, address.matching, keys, sizes)?,
        };
        self.addresses.holds(alloc, names, &ready)
    }
}

/// Whether a size is over or under a limit (RFC 5228, 5.9).
fn is_beyond(wanted: Size, size: u64) -> bool
    ensures { result ≡ is_beyond wanted.bound size wanted.limit }
{
    match wanted.bound {
        Bound::Over => wanted.limit < size,
        Bound::Under => size < wanted.limit,
    }
}
