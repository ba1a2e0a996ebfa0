//! Fields that say what kind of mail it is.
ghost use Rattle.std.specs.Prelude.{◌≡◌, option_map};
ghost use Rattle.std.specs.List.{list_any, before_first};
ghost use Rattle.mail_head.specs.Fields.{field_text_of, field_texts_of};
ghost use Rattle.mail_head.specs.Heads.{unfold_of};
ghost use Rattle.sieve_vacation.specs.Cases as cases;
ghost use Rattle.sieve_vacation.specs.Layout.{first_raw};
ghost use Rattle.sieve_vacation.specs.Signs.{is_sign};

use crate::text::{is_one_of, is_same};
use crate::value::{after_comma, is_word, is_word_before};
use mail_head::Field;
use sieve_exec::Mail;

/// The names of the fields that mailing lists add (RFC 2369; RFC 2919).
const LIST_FIELDS: [&[u8]; 7] = [
    b"list-id",
    b"list-help",
    b"list-subscribe",
    b"list-unsubscribe",
    b"list-post",
    b"list-owner",
    b"list-archive",
];

/// What a field may say of its mail.
#[derive(Clone, Copy)]
pub(crate) enum Sign {
    /// An Auto-Submitted field says something other than `no` (RFC 3834, 5).
    Automatic,
    /// An X-Auto-Response-Suppress field, as Exchange writes it into its own notices, has `All`, `OOF` or `AutoReply` among its
    /// values.
    Suppressing,
    /// The field is one that mailing lists add (RFC 2369; RFC 2919).
    ListMail,
    /// A Precedence field says `bulk`, `list` or `junk` (RFC 3834, 2).
    Bulk,
}

/// Whether some field of the mail says so.
pub(crate) fn has_sign(mail: &Mail<'_>, sign: Sign) -> bool
    ensures { result ≡ list_any (is_sign sign) mail.now.fields }
{
    some_says(mail.fields(), sign)
}

fn some_says(fields: &[Field<'_>], sign: Sign) -> bool
    ensures { result ≡ list_any (λ field. is_sign sign (field_text_of field)) fields.now }
{
    fields.iter().any(|field| says(field, sign))
}

fn says(field: &Field<'_>, sign: Sign) -> bool
    ensures { result ≡ is_sign sign (field_text_of field.now) }
{
    match sign {
        Sign::Automatic => is_same(b"auto-submitted", field.name) && is_automatic(field.raw),
        Sign::Suppressing => {
            is_same(b"x-auto-response-suppress", field.name) && is_suppressing(field.raw)
        }
        Sign::ListMail => is_one_of(&LIST_FIELDS, field.name),
        Sign::Bulk => is_same(b"precedence", field.name) && is_bulk(field.raw),
    }
}

fn is_automatic(raw: &[u8]) -> bool
    ensures { result ≡ cases.is_automatic (unfold_of raw.now) }
{
    !is_word_before(raw, b"no", b';')
}

fn is_suppressing(raw: &[u8]) -> bool
    ensures { result ≡ cases.is_suppressing (unfold_of raw.now) }
{
    let mut rest = raw;
    while !refuses_answer(rest) {
        let Some(after) = after_comma(rest) else {
            return false;
        };
        rest = after;
    }
    true
}

/// Whether what precedes the value's first comma refuses an answer.
fn refuses_answer(raw: &[u8]) -> bool
    ensures { result ≡ cases.refuses_answer (before_first cases.is_comma (unfold_of raw.now)) }
{
    is_word_before(raw, b"all", b',')
        || is_word_before(raw, b"oof", b',')
        || is_word_before(raw, b"autoreply", b',')
}

fn is_bulk(raw: &[u8]) -> bool
    ensures { result ≡ cases.is_bulk (unfold_of raw.now) }
{
    is_word(raw, b"bulk") || is_word(raw, b"list") || is_word(raw, b"junk")
}

/// The raw value of the first field with this name, case ignored.
pub fn first_raw<'a>(name: &[u8], fields: &[Field<'a>]) -> Option<&'a [u8]>
    ensures { option_map (λ raw. raw.now) result ≡ first_raw name.now (field_texts_of fields.now) }
{
    for field in fields {
        if is_same(name, field.name) {
            return Some(field.raw);
        }
    }
    None
}
