//! The texts of the parts right below an entity.
ghost use Rattle.std.specs.Prelude.{◌≡◌, ◌∷◌, IfOk, option_copied};
ghost use Rattle.mail_head.specs.Lines.{lines_of};
ghost use Rattle.mail_parts.specs.Parts as parts;
ghost use Rattle.mail_parts.specs.PartReading.{maybe_texts, texts_left};
ghost use Rattle.mail_parts.specs.Sections.{sections_of};

use crate::blanks::trim_back;
use crate::limits::MAX_BOUNDARY;
use crate::media_type::MediaType;
use crate::section::{LineMark, cut_section, dash_boundary};
use crate::transfer_encoding::TransferEncoding;
use memchr::memmem::Finder;
use octets::{Octets, as_deref};
use std::alloc::{AllocError, Global};

/// Texts of parts that are still to be read, one at least: those behind a delimiter, or without a boundary one text.
#[derive(Drop)]
pub(crate) struct Sections<'a> {
    pub(crate) boundary: Option<Octets>,
    pub(crate) text: &'a [u8],
}

impl<'a> Sections<'a> {
    ghost use Rattle.std.specs.Prelude.{◌≡◌, ◌∷◌, IfOk};
    ghost use Rattle.mail_parts.specs.PartReading.{maybe_texts, texts_left};

    /// The first text, and the others. One pass over the first.
    pub(crate) fn next(self, alloc: Global) -> Result<(&'a [u8], Option<Sections<'a>>), AllocError>
        ensures { IfOk result (λ cut. texts_left self.entry ≡ cut.0.now ∷ maybe_texts cut.1) }
    {
        let Sections { boundary, text } = self;
        let Some(boundary) = boundary else {
            return Ok((text, None));
        };
        let front = dash_boundary(alloc, boundary.as_slice())?;
        let cut = cut_section(text, boundary.as_slice(), &Finder::new(front.as_slice()));
        match cut.mark {
            LineMark::Delimiter => Ok((
                cut.section,
                Some(Sections {
                    boundary: Some(boundary),
                    text: cut.after,
                }),
            )),
            LineMark::Inside => Ok((cut.section, None)),
            LineMark::Close => Ok((cut.section, None)),
        }
    }
}

pub(crate) fn is_multipart(media: &MediaType) -> bool
    ensures { result ≡ parts.is_multipart media.now }
{
    media.kind.as_slice() == b"multipart".as_slice()
}

pub(crate) fn is_multipart_digest(media: &MediaType) -> bool
    ensures { result ≡ parts.is_multipart_digest media.now }
{
    is_multipart(media) && media.subtype.as_slice() == b"digest".as_slice()
}

pub(crate) fn is_message(media: &MediaType) -> bool
    ensures { result ≡ parts.is_message media.now }
{
    media.kind.as_slice() == b"message".as_slice()
        && media.subtype.as_slice() == b"rfc822".as_slice()
}

/// The boundary that divides a multipart, without blanks at its end.
pub(crate) fn usable_boundary(media: &MediaType) -> Option<&[u8]>
    ensures { option_copied result ≡ parts.usable_boundary media.now.boundary }
{
    let boundary = trim_back(as_deref(&media.boundary)?);
    if 0 < boundary.len() && boundary.len() <= MAX_BOUNDARY {
        Some(boundary)
    } else {
        None
    }
}

// The sections of a multipart.
fn sections_between<'a>(
    alloc: Global,
    boundary: &[u8],
    body: &'a [u8],
) -> Result<Option<Sections<'a>>, AllocError>
    ensures { IfOk result (λ found. maybe_texts found ≡ sections_of boundary.now (lines_of body.now)) }
{
    let front = dash_boundary(alloc, boundary)?;
    let cut = cut_section(body, boundary, &Finder::new(front.as_slice()));
    match cut.mark {
        LineMark::Delimiter => Ok(Some(Sections {
            boundary: Some(Octets::from_slice(alloc, boundary)?),
            text: cut.after,
        })),
        LineMark::Inside => Ok(None),
        LineMark::Close => Ok(None),
    }
}

/// Whether a body isn't encoded.
pub(crate) fn is_identity(encoding: TransferEncoding) -> bool
    ensures { result ≡ parts.is_identity encoding }
{
    match encoding {
        TransferEncoding::Identity => true,
        _ => false,
    }
}

// The message in a message/rfc822.
fn nested_message<'a>(encoding: TransferEncoding, body: &'a [u8]) -> Option<Sections<'a>>
    ensures { maybe_texts result ≡ parts.nested_message encoding body.now }
{
    match encoding {
        TransferEncoding::Identity => Some(Sections {
            boundary: None,
            text: body,
        }),
        _ => None,
    }
}

/// The texts of the parts right below an entity: at most one pass over its body.
pub(crate) fn sections_in<'a>(
    alloc: Global,
    media: &MediaType,
    encoding: TransferEncoding,
    body: &'a [u8],
) -> Result<Option<Sections<'a>>, AllocError>
    ensures { IfOk result (λ found. maybe_texts found ≡ parts.entity_texts media.now encoding body.now) }
{
    if is_multipart(media) {
        return match usable_boundary(media) {
            Some(boundary) => sections_between(alloc, boundary, body),
            None => Ok(None),
        };
    }
    if is_message(media) {
        return Ok(nested_message(encoding, body));
    }
    Ok(None)
}
