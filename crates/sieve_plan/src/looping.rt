//! Messages that may go round in a loop.
ghost use Rattle.std.specs.Prelude.{◌≡◌, count_by};
ghost use Rattle.mail_head.specs.Fields.{field_text_of};
ghost use Rattle.sieve_plan.specs.Delivered as delivered;

use mail_head::Field;
use sieve_exec::Mail;

/// The most Received fields of a message on which a script is run: each host that the message passes adds one, and more than
/// 100 indicate a loop (RFC 5321, 6.3).
const MAX_RECEIVED: usize = 100;

/// Whether a message has more than [`MAX_RECEIVED`] Received fields.
///
/// One comparison of names for each field; takes no memory.
pub(crate) fn is_looping(mail: &Mail<'_>) -> bool
    ensures { result ≡ delivered.is_looping mail.now }
{
    MAX_RECEIVED < count_received(mail.fields())
}

fn count_received(fields: &[Field<'_>]) -> usize
    ensures { result ≡ count_by (λ field. delivered.is_received_field (field_text_of field)) fields.now }
{
    fields.iter().filter(|field| is_received(field)).count()
}

fn is_received(field: &Field<'_>) -> bool
    ensures { result ≡ delivered.is_received_field (field_text_of field.now) }
{
    b"received".eq_ignore_ascii_case(field.name)
}
