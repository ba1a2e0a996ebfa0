//! One part of a message.
ghost use Rattle.std.specs.Prelude.{◌≡◌, ◌-◌, IfOk};
ghost use Rattle.mail_head.specs.Heads.{body_of};
ghost use Rattle.mail_parts.specs.Entities.{entity_encoding, entity_type};
ghost use Rattle.mail_parts.specs.Parts.{part_of};

use crate::entity::entity_head;
use crate::limits::MAX_NESTING;
use crate::media_type::{MediaType, media_type};
use crate::sections::{Sections, sections_in};
use crate::transfer_encoding::{TransferEncoding, transfer_encoding};
use mail_head::{Head, has_empty_line};
use std::alloc::{AllocError, Global};
use std::marker::Model;

/// A part of a message, or the message itself. It borrows the message and copies nothing of it but its Content-Type. Contracts see its
/// text, whether it stands in a multipart/digest, and how many levels of parts may lie below it.
#[derive(Drop)]
pub struct MailPart<'a> {
    text: &'a [u8],
    body: &'a [u8],
    media_type: MediaType,
    encoding: TransferEncoding,
    digest: bool,
    left: u32,
}

impl<'a> Model for MailPart<'a> {
    ghost use Rattle.mail_parts.specs.Parts.{PartText, part_of};

    ghost Value = { PartText };

    ghost use Rattle.mail_parts.specs.PartReading.{ReadsEntity};

    ghost view = { λ part. part_of part.text.now part.digest part.left };

    ghost invariant = { λ part. ReadsEntity part.digest part.text.now part.body.now part.media_type part.encoding };
}

impl<'a> MailPart<'a> {
    ghost use Rattle.std.specs.Prelude.{◌≡◌, ◌-◌, IfOk};
    ghost use Rattle.mail_head.specs.Heads.{body_of};
    ghost use Rattle.mail_parts.specs.Entities.{entity_encoding, entity_type};
    ghost use Rattle.mail_head.specs.Prefixes.{has_empty_line};
    ghost use Rattle.mail_parts.specs.Parts.{is_cut, part_of};
    ghost use Rattle.mail_parts.specs.PartReading.{maybe_texts, texts_below};

    /// Reads the header of a part: one pass over it.
    pub(crate) fn read(
        alloc: Global,
        text: &'a [u8],
        digest: bool,
        left: u32,
    ) -> Result<MailPart<'a>, AllocError>
        ensures { IfOk result (λ part. part ≡ part_of text.now digest left) }
    {
        let head = entity_head(text);
        let media_type = media_type(alloc, digest, head.media_type)?;
        let encoding = transfer_encoding(alloc, head.encoding)?;
        Ok(MailPart {
            text,
            body: head.body,
            media_type,
            encoding,
            digest,
            left,
        })
    }

    /// The part as it stands in the message, header and body.
    pub fn text(&self) -> &'a [u8]
        ensures { result.now ≡ self.now.text }
    {
        self.text
    }

    /// What follows the first empty line of the part; empty if there is none.
    pub fn body(&self) -> &'a [u8]
        ensures { result.now ≡ body_of self.now.text }
    {
        self.body
    }

    /// Whether an empty line ends the header. A message without one has no body, and so no text that is looked at for its body
    /// (RFC 5173, section 4). One pass over the header.
    pub fn has_body(&self) -> bool
        ensures { result ≡ has_empty_line self.now.text }
    {
        has_empty_line(self.text)
    }

    /// What the part is, by its first Content-Type or the default.
    pub fn media_type(&self) -> &MediaType
        ensures { result.now ≡ entity_type self.now.digest self.now.text }
    {
        &self.media_type
    }

    /// How the body is encoded, by the part's first Content-Transfer-Encoding or the default.
    pub fn encoding(&self) -> TransferEncoding
        ensures { result ≡ entity_encoding self.now.text }
    {
        self.encoding
    }

    /// How many levels the part lies below the message: 0 for the message itself.
    pub fn level(&self) -> u32
        ensures { result ≡ MAX_NESTING - self.now.left }
    {
        MAX_NESTING.saturating_sub(self.left)
    }

    /// The header of the part, with all its fields.
    pub fn head(&self, alloc: Global) -> Result<Head<'a>, AllocError>
        ensures { IfOk result (λ head. head ≡ self.now.text) }
    {
        Head::read(alloc, self.text)
    }

    /// The texts of the parts right below; none at the last level.
    pub(crate) fn sections(&self, alloc: Global) -> Result<Option<Sections<'a>>, AllocError>
        ensures { IfOk result (λ found. maybe_texts found ≡ texts_below self.now) }
    {
        if self.left == 0 {
            return Ok(None);
        }
        sections_in(alloc, &self.media_type, self.encoding, self.body)
    }

    /// Whether the part lies on the last level and has parts below, which aren't looked into.
    pub(crate) fn is_cut(&self, alloc: Global) -> Result<bool, AllocError>
        ensures { IfOk result (λ cut. cut ≡ is_cut self.now) }
    {
        if self.left != 0 {
            return Ok(false);
        }
        let found = sections_in(alloc, &self.media_type, self.encoding, self.body)?;
        Ok(found.is_some())
    }
}
