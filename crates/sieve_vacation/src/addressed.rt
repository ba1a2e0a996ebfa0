//! A mail with the addresses that it names as recipients.
ghost use Rattle.std.specs.Prelude.{◌≡◌, ◌++◌, IfOk, OnOk, map};
ghost use Rattle.std.specs.List.{flat_map};
ghost use Rattle.mail_head.specs.Fields.{field_text_of};
ghost use Rattle.mail_address.specs.Spelling.{unquoted_address};
ghost use Rattle.sieve_vacation.specs.Cases as cases;

use crate::text::is_one_of;
use mail_address::{Addr, addresses};
use mail_head::{Field, unfold_value};
use octets::Texts;
use sieve_exec::Mail;
use std::alloc::{AllocError, Global};
use std::marker::Model;

/// The names of the fields that name recipients (RFC 5322, 3.6.3 and 3.6.6).
const RECIPIENT_FIELDS: [&[u8]; 6] = [
    b"to",
    b"cc",
    b"bcc",
    b"resent-to",
    b"resent-cc",
    b"resent-bcc",
];

/// A mail with the addresses of its recipient fields. Contracts see the mail.
#[derive(Drop)]
pub struct AddressedMail<'m, 'a> {
    mail: &'m Mail<'a>,
    recipients: Texts,
}

impl<'m, 'a> Model for AddressedMail<'m, 'a> {
    ghost use Rattle.std.specs.Prelude.{◌≡◌};
    ghost use Rattle.sieve_exec.specs.Mails.{MailSpec};
    ghost use Rattle.sieve_vacation.specs.Cases.{recipients_of};

    ghost Value = { MailSpec };

    ghost view = { λ addressed. addressed.mail.now };

    ghost invariant = { λ addressed. addressed.recipients ≡ recipients_of addressed.mail.now };
}

impl<'m, 'a> AddressedMail<'m, 'a> {
    /// Reads the addresses of the fields To, Cc, Bcc, Resent-To, Resent-Cc and Resent-Bcc, whose values are unfolded but
    /// not decoded.
    ///
    /// Linear in these values, with memory for their addresses; one comparison of names for each other field. Lack of memory is
    /// the only error.
    pub fn read(alloc: Global, mail: &'m Mail<'a>) -> Result<AddressedMail<'m, 'a>, AllocError>
        ensures { IfOk result (λ addressed. addressed ≡ mail.now) }
    {
        let recipients = recipients_of(alloc, mail.fields())?;
        Ok(AddressedMail { mail, recipients })
    }

    /// The mail.
    pub fn mail(&self) -> &Mail<'a>
        ensures { result.now ≡ self.now }
    {
        self.mail
    }

    /// The addresses, each with nothing quoted.
    pub(crate) fn recipients(&self) -> &Texts
        ensures { result.now ≡ cases.recipients_of self.now }
    {
        &self.recipients
    }
}

/// The addresses of the fields that name recipients.
fn recipients_of(alloc: Global, fields: &[Field<'_>]) -> Result<Texts, AllocError>
    ensures { IfOk result (λ found. found ≡ flat_map (λ field. cases.recipients_in (field_text_of field)) fields.now) }
{
    let mut found = Texts::new(alloc);
    for field in fields {
        push_recipients(alloc, &mut found, field)?;
    }
    Ok(found)
}

/// Appends the addresses of a field, if it names recipients.
fn push_recipients(alloc: Global, found: &mut Texts, field: &Field<'_>) -> Result<(), AllocError>
    ensures { OnOk result (found.new ≡ found.old ++ cases.recipients_in (field_text_of field.now)) }
{
    if !is_one_of(&RECIPIENT_FIELDS, field.name) {
        return Ok(());
    }
    let value = unfold_value(alloc, field.raw)?;
    let more = addresses(alloc, value.as_slice())?;
    push_addresses(alloc, found, more.as_slice())
}

/// Appends addresses, each with nothing quoted.
fn push_addresses(alloc: Global, found: &mut Texts, more: &[Addr]) -> Result<(), AllocError>
    ensures { OnOk result (found.new ≡ found.old ++ map unquoted_address more.now) }
{
    for address in more {
        found.push(address.all(alloc)?)?;
    }
    Ok(())
}
