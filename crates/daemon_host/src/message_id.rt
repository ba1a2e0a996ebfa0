//! A message's own name (RFC 5322, section 3.6.4).
ghost use Rattle.std.specs.Prelude.{◌≡◌, option_copied, option_map, take, IfOk};
ghost use Rattle.std.specs.List.{find};
ghost use Rattle.mail_head.specs.Fields.{field_text_of, field_texts_of};
ghost use Rattle.daemon_host.specs.MessageIds as ids;
ghost use Rattle.daemon_host.specs.MessageIds.{id_text, is_id_field};

use mail_head::{Field, Head, unfold_value};
use octets::{Octets, trim_blanks};
use std::alloc::{AllocError, Global};

/// It is looked for within this many octets of a message, so that a long header costs no more.
const MAX_FRONT: usize = 16_384;

/// The most octets of it that are told.
const MAX_ID: usize = 250;

/// The name that a message gives itself: the value of its first `Message-ID` field on one line, without the blanks around it, and at most
/// 250 octets of it; `None` if its first 16,384 octets have no such field.
///
/// Lack of memory is the only error. Time and memory are linear in the octets of the header, up to those.
pub fn logged_id(alloc: Global, message: &[u8]) -> Result<Option<Octets>, AllocError>
    ensures { IfOk result (λ id. id ≡ ids.logged_id message.now) }
{
    let head = Head::read(alloc, front(message, MAX_FRONT))?;
    match id_field(head.fields()) {
        Some(field) => Ok(Some(text_of(alloc, field)?)),
        None => Ok(None),
    }
}

/// The first field of that name.
fn id_field<'s, 'a>(fields: &'s [Field<'a>]) -> Option<&'s Field<'a>>
    ensures { option_map field_text_of (option_copied result) ≡ find is_id_field (field_texts_of fields.now) }
{
    first_id(fields)
}

fn first_id<'s, 'a>(fields: &'s [Field<'a>]) -> Option<&'s Field<'a>>
    ensures { option_copied result ≡ find (λ field. is_id_field (field_text_of field)) fields.now }
{
    fields
        .iter()
        .find(|field| field.name.eq_ignore_ascii_case(b"message-id"))
}

fn text_of(alloc: Global, field: &Field<'_>) -> Result<Octets, AllocError>
    ensures { IfOk result (λ text. text ≡ id_text (field_text_of field.now)) }
{
    let value = unfold_value(alloc, field.raw)?;
    Octets::from_slice(alloc, front(trim_blanks(value.as_slice()), MAX_ID))
}

/// At most this many octets of a text.
fn front(text: &[u8], most: usize) -> &[u8]
    ensures { result.now ≡ take most text.now }
{
    if text.len() <= most {
        return text;
    }
    &text[..most]
}
