//! A message with its envelope and when it is delivered, as the tests of a script see it.
ghost use Rattle.std.specs.Prelude.{◌≡◌, ℕ, List, [], ◌∷◌, Some, IfOk, MatchOption, unwrap_or, option_copied};
ghost use Rattle.mail_head.specs.Fields.{field_texts_of};
ghost use Rattle.mail_dates.specs.DateTimes.{IsZone};
ghost use Rattle.sieve_exec.specs.Mails.{mail_spec_of, with_size};
ghost use Rattle.sieve_exec.specs.Indexes.{raws_keyed};
ghost use Rattle.sieve_exec.specs.Truth.{is_some_there, all_exist};

use crate::envelope::Envelope;
use crate::index::index_of;
use crate::raw_values::RawValues;
use crate::when::When;
use mail_head::{Field, Head};
use octets::{Octets, lowered};
use std::alloc::{AllocError, Global};
use std::collections::BTreeMap;
use std::marker::Model;

/// A message with its envelope (RFC 5228, 2.4.2) and when it is delivered. It borrows the message and copies only
/// the names of its fields. Contracts see the fields, the envelope's addresses, the size, the octets, the moment and the zone.
#[derive(Drop)]
pub struct Mail<'a> {
    head: Head<'a>,
    envelope: Envelope,
    index: BTreeMap<Octets, RawValues<'a>>,
    when: When,
    counted: Option<u64>,
}

impl<'a> Model for Mail<'a> {
    ghost use Rattle.mail_head.specs.Heads.{fields_of};
    ghost use Rattle.sieve_exec.specs.Mails.{MailSpec, mail_spec_of, with_size};
    ghost use Rattle.sieve_exec.specs.Indexes.{IsIndex};

    ghost Value = { MailSpec };

    ghost view = { λ mail. with_size mail.counted (mail_spec_of mail.head mail.envelope mail.when) };

    ghost invariant = { λ mail. IsIndex (fields_of mail.head) mail.index };
}

impl<'a> Mail<'a> {
    /// Reads the header of a message.
    ///
    /// One pass over the header; the body isn't looked at, only names are copied, and no value is unfolded or decoded.
    /// For n fields n log n comparisons of names.
    pub fn read(
        alloc: Global,
        message: &'a [u8],
        envelope: Envelope,
        when: When,
    ) -> Result<Mail<'a>, AllocError>
        ensures { IfOk result (λ mail. mail ≡ mail_spec_of message.now envelope when) }
    {
        read_counted(alloc, message, envelope, when, None)
    }

    /// Reads the header of a message of which only a prefix is here, but the size is known. All but the size is that of the prefix.
    ///
    /// If the prefix has an empty line, the outcome of a script on it is that on the message (`laws::outcome_of_a_front`). Otherwise
    /// like `read`.
    pub fn read_prefix(
        alloc: Global,
        front: &'a [u8],
        size: u64,
        envelope: Envelope,
        when: When,
    ) -> Result<Mail<'a>, AllocError>
        ensures { IfOk result (λ mail. mail ≡ with_size (Some size) (mail_spec_of front.now envelope when)) }
    {
        read_counted(alloc, front, envelope, when, Some(size))
    }

    /// The fields, in order.
    pub fn fields(&self) -> &[Field<'a>]
        ensures { field_texts_of result.now ≡ self.now.fields }
    {
        self.head.fields()
    }

    /// The octets of the message as they were received.
    pub fn message(&self) -> &'a [u8]
        ensures { result.now ≡ self.now.octets }
    {
        self.head.message()
    }

    /// The message's octets, and one more for each LF without CR right before it. One pass over the message at each call, unless the
    /// size was known.
    pub fn size(&self) -> u64
        ensures { result ≡ self.now.size }
    {
        match self.counted {
            Some(size) => size,
            None => self.head.size(),
        }
    }

    /// The envelope's sender as it was written; empty for the null reverse-path.
    pub fn from(&self) -> &[u8]
        ensures { result.now ≡ self.now.from }
    {
        self.envelope.from.as_slice()
    }

    /// The envelope's recipient as it was written.
    pub fn to(&self) -> &[u8]
        ensures { result.now ≡ self.now.to }
    {
        self.envelope.to.as_slice()
    }

    /// The moment of delivery, in seconds since 1970-01-01 UTC.
    pub fn moment(&self) -> u64
        ensures { result ≡ self.now.moment }
    {
        self.when.moment
    }

    /// The zone of the host at that moment, in minutes east of UTC.
    pub fn zone(&self) -> i16
        ensures zone { result ≡ self.now.zone }
        ensures within { IsZone result }
    {
        self.when.zone
    }

    /// The raw values of the fields that have this name, in lower case; `None` if no field has it.
    ///
    /// No pass over the fields: log n comparisons of names if the fields have n names.
    pub(crate) fn raws(&self, key: &Octets) -> Option<&RawValues<'a>>
        ensures { unwrap_or (option_copied result) [] ≡ raws_keyed self.now.fields key.now }
    {
        self.index.get(key)
    }

    /// The raw value of the first field that has this name, in lower case.
    pub(crate) fn first_raw(&self, key: &Octets) -> Option<&'a [u8]>
        ensures { MatchOption result (raws_keyed self.now.fields key.now ≡ []) (λ raw. (more : List (List ℕ)) × (raws_keyed self.now.fields key.now ≡ raw.now ∷ more)) }
    {
        self.raws(key)?.as_slice().first().copied()
    }

    /// Whether some field has this name, in lower case.
    pub(crate) fn has(&self, key: &Octets) -> bool
        ensures { result ≡ is_some_there (raws_keyed self.now.fields key.now) }
    {
        match self.raws(key) {
            Some(raws) => !raws.is_empty(),
            None => false,
        }
    }

    /// Whether there are fields with all these names (RFC 5228, 5.5).
    pub(crate) fn all_exist(&self, alloc: Global, names: &[Octets]) -> Result<bool, AllocError>
        ensures { IfOk result (λ there. there ≡ all_exist self.now names.now) }
    {
        for name in names {
            if !self.has(&lowered(alloc, name.as_slice())?) {
                return Ok(false);
            }
        }
        Ok(true)
    }
}

/// Reads the header of a message, whose size is counted unless it is known.
fn read_counted(
    alloc: Global,
    message: &[u8],
    envelope: Envelope,
    when: When,
    counted: Option<u64>,
) -> Result<Mail<'_>, AllocError>
    ensures { IfOk result (λ mail. mail ≡ with_size counted (mail_spec_of message.now envelope when)) }
{
    let head = Head::read(alloc, message)?;
    let index = index_of(alloc, head.fields())?;
    Ok(Mail {
        head,
        envelope,
        index,
        when,
        counted,
    })
}
