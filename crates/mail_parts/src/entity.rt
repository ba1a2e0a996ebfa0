//! The header and the body of an entity: of the message or of a part (RFC 2045, section 2.4).
ghost use Rattle.std.specs.Prelude.{◌≡◌, codes, option_copied, option_map};
ghost use Rattle.mail_head.specs.Fields.{field_text_of};
ghost use Rattle.mail_head.specs.Heads.{body_of, fields_of};
ghost use Rattle.mail_parts.specs.Entities.{first_named, raw_if_named};
ghost use Rattle.mail_parts.specs.MediaTypes.{value_or};

use mail_head::{Field, after_empty_line, logical_line, read_field};

/// What is read of an entity's header, and what follows it.
#[derive(Clone, Copy)]
pub(crate) struct EntityHead<'t> {
    /// The raw value of the first Content-Type.
    pub(crate) media_type: Option<&'t [u8]>,
    /// The raw value of the first Content-Transfer-Encoding.
    pub(crate) encoding: Option<&'t [u8]>,
    pub(crate) body: &'t [u8],
}

// The raw value of a field, if it has this name, in any case.
fn raw_if_named<'t>(field: Option<Field<'t>>, name: &[u8]) -> Option<&'t [u8]>
    ensures { option_copied result ≡ raw_if_named name.now (option_map field_text_of field.entry) }
{
    let field = field?;
    if field.name.eq_ignore_ascii_case(name) {
        Some(field.raw)
    } else {
        None
    }
}

// The first of two values.
fn value_or<'t>(found: Option<&'t [u8]>, next: Option<&'t [u8]>) -> Option<&'t [u8]>
    ensures { option_copied result ≡ value_or (option_copied found.entry) (option_copied next.entry) }
{
    match found {
        Some(raw) => Some(raw),
        None => next,
    }
}

/// Reads an entity's header. One pass over it, and no memory.
pub(crate) fn entity_head(text: &[u8]) -> EntityHead<'_>
    ensures media_type { option_copied result.media_type ≡ first_named (codes "content-type") (fields_of text.now) }
    ensures encoding { option_copied result.encoding ≡ first_named (codes "content-transfer-encoding") (fields_of text.now) }
    ensures body { result.body.now ≡ body_of text.now }
{
    let mut media_type = None;
    let mut encoding = None;
    let mut rest = text;
    'fields: while !rest.is_empty() {
        if let Some(body) = after_empty_line(rest) {
            return EntityHead {
                media_type,
                encoding,
                body,
            };
        }
        let (line, after) = logical_line(rest);
        let field = read_field(line);
        media_type = value_or(media_type, raw_if_named(field, b"content-type"));
        encoding = value_or(encoding, raw_if_named(field, b"content-transfer-encoding"));
        rest = after;
    }
    EntityHead {
        media_type,
        encoding,
        body: rest,
    }
}

/// What follows the header of an entity. One pass over the header, and no memory.
pub(crate) fn entity_body(text: &[u8]) -> &[u8]
    ensures { result.now ≡ body_of text.now }
{
    let mut rest = text;
    while !rest.is_empty() {
        if let Some(body) = after_empty_line(rest) {
            return body;
        }
        (_, rest) = logical_line(rest);
    }
    rest
}
