//! Which texts of a part `:content` looks at (RFC 5173, section 5.2).
ghost use Rattle.std.specs.Prelude.{◌≡◌, false, IfOk};
ghost use Rattle.mail_head.specs.Lines.{lines_of};
ghost use Rattle.mail_parts.specs.Sections.{dash_boundary, epilogue_of};
ghost use Rattle.mail_parts.specs.Selection as selection;

use crate::entity::entity_body;
use crate::media_type::MediaType;
use crate::section::{LineMark, cut_section, dash_boundary};
use crate::sections::{is_identity, is_message, is_multipart, usable_boundary};
use crate::transfer_encoding::TransferEncoding;
use memchr::memmem::Finder;
use std::alloc::{AllocError, Global};

/// The texts of a part that are looked at, each by itself.
#[derive(Clone, Copy)]
pub enum ContentTexts<'a> {
    /// The prologue and the epilogue of a multipart, as they stand.
    Around(&'a [u8], &'a [u8]),
    /// The header of the message in a message/rfc822 that isn't encoded.
    Header(&'a [u8]),
    /// The body of any other part, which may be encoded.
    Body(&'a [u8]),
}

/// Whether a content type of a script selects a type: if it is empty any, `text` each of its subtypes, `text/html` that one. One that
/// begins or ends with a slash, or has two, selects none.
pub fn selects(alloc: Global, media: &MediaType, wanted: &[u8]) -> Result<bool, AllocError>
    ensures { IfOk result (λ is. is ≡ selection.selects media.now wanted.now) }
{
    if wanted.is_empty() {
        return Ok(true);
    }
    if wanted.eq_ignore_ascii_case(media.kind.as_slice()) {
        return Ok(true);
    }
    let mut name = media.kind.try_clone(alloc)?;
    name.push(b'/')?;
    name.extend_from_slice(media.subtype.as_slice())?;
    Ok(wanted.eq_ignore_ascii_case(name.as_slice()))
}

// What stands behind the closing line of a multipart, from a text on that follows one of its delimiters or begins its body.
fn epilogue<'a>(text: &'a [u8], boundary: &[u8], finder: &Finder<'_>) -> &'a [u8]
    requires { finder.now ≡ dash_boundary boundary.now }
    ensures { result.now ≡ epilogue_of boundary.now (lines_of text.now) }
{
    let mut rest = text;
    'sections: loop {
        let cut = cut_section(rest, boundary, finder);
        match cut.mark {
            LineMark::Inside => return rest.split_at(rest.len()).1,
            LineMark::Delimiter => rest = cut.after,
            LineMark::Close => return cut.after,
        }
    }
}

// The prologue and the epilogue of a multipart.
fn around<'a>(
    alloc: Global,
    media: &MediaType,
    body: &'a [u8],
) -> Result<ContentTexts<'a>, AllocError>
    ensures texts { IfOk result (λ texts. selection.content_texts texts ≡ selection.texts_around media.now body.now) }
    ensures plain { IfOk result (λ texts. selection.is_body texts ≡ false) }
{
    let Some(boundary) = usable_boundary(media) else {
        return Ok(ContentTexts::Around(body, body.split_at(body.len()).1));
    };
    let front = dash_boundary(alloc, boundary)?;
    let finder = Finder::new(front.as_slice());
    let prologue = cut_section(body, boundary, &finder).section;
    Ok(ContentTexts::Around(prologue, epilogue(body, boundary, &finder)))
}

// The header of a message.
fn header_text(message: &[u8]) -> &[u8]
    ensures { result.now ≡ selection.header_text message.now }
{
    message
        .split_at(message.len() - entity_body(message).len())
        .0
}

// Whether a part is a message whose header can be read: a message/rfc822 that isn't encoded.
fn is_open_message(media: &MediaType, encoding: TransferEncoding) -> bool
    ensures { result ≡ selection.is_open_message media.now encoding }
{
    is_message(media) && is_identity(encoding)
}

/// The texts of a part that are looked at where its type is selected: at most two passes over its body, and memory for its boundary.
pub fn content_texts<'a>(
    alloc: Global,
    media: &MediaType,
    encoding: TransferEncoding,
    body: &'a [u8],
) -> Result<ContentTexts<'a>, AllocError>
    ensures texts { IfOk result (λ texts. selection.content_texts texts ≡ selection.texts_looked_at media.now encoding body.now) }
    ensures encoded { IfOk result (λ texts. selection.is_body texts ≡ selection.are_encoded media.now encoding) }
{
    if is_multipart(media) {
        return around(alloc, media, body);
    }
    if is_open_message(media, encoding) {
        return Ok(ContentTexts::Header(header_text(body)));
    }
    Ok(ContentTexts::Body(body))
}
