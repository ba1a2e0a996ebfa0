//! All parts of a message.
ghost use Rattle.std.specs.Prelude.{◌≡◌, ◌++◌, ◌&&◌, not, IfOk, OnOk};
ghost use Rattle.mail_parts.specs.PartReading.{maybe_texts};
ghost use Rattle.mail_parts.specs.Walks.{ReadsParts, parts_in, parts_pending};

use crate::limits::{MAX_NESTING, MAX_PARTS};
use crate::part::MailPart;
use crate::sections::{Sections, is_multipart_digest};
use std::alloc::{AllocError, Global};

/// The parts of a message.
#[derive(Drop)]
pub struct MailParts<'a> {
    /// The message itself first, and each part before those below it.
    pub parts: Vec<MailPart<'a>>,
    /// Whether these are all: false if the message has more than `MAX_PARTS`, or parts below the level `MAX_NESTING`.
    pub complete: bool,
}

/// Texts still to be read, and what is known of the parts that they are.
#[derive(Drop)]
pub(crate) struct Pending<'a> {
    sections: Sections<'a>,
    digest: bool,
    left: u32,
}

// Puts texts, if there are any, before all others.
fn push_sections<'a>(
    pending: &mut Vec<Pending<'a>>,
    sections: Option<Sections<'a>>,
    digest: bool,
    left: u32,
) -> Result<(), AllocError>
    ensures { OnOk result (parts_pending pending.new.items ≡ parts_in left digest (maybe_texts sections.entry) ++ parts_pending pending.old.items) }
{
    if let Some(sections) = sections {
        pending.push(Pending {
            sections,
            digest,
            left,
        })?;
    }
    Ok(())
}

// Whether nothing is left out: so far nothing was, and nothing is below the part that was read last.
fn stays_complete(complete: bool, cut_off: bool) -> bool
    ensures { result ≡ (complete && not cut_off) }
{
    complete && !cut_off
}

/// Reads the parts of a message: itself, and those below it to 32 levels, at most 1,000 together.
///
/// Each level takes one search of the bodies of the multiparts on it and one pass over headers, so the time is at most linear in the
/// message for each level. The memory is that of the parts; nothing of the message is copied but their Content-Types.
pub fn read_parts<'a>(alloc: Global, message: &'a [u8]) -> Result<MailParts<'a>, AllocError>
    ensures { IfOk result (λ read. ReadsParts message.now read) }
{
    let mut parts = Vec::new(alloc);
    let mut pending = Vec::new(alloc);
    let mut complete = true;
    let whole = Sections {
        boundary: None,
        text: message,
    };
    push_sections(&mut pending, Some(whole), false, MAX_NESTING)?;
    while let Some(next) = pending.pop() {
        if parts.len() == MAX_PARTS {
            return Ok(MailParts {
                parts,
                complete: false,
            });
        }
        let Pending {
            sections,
            digest,
            left,
        } = next;
        let cut = sections.next(alloc)?;
        let (text, others) = cut;
        push_sections(&mut pending, others, digest, left)?;
        let part = MailPart::read(alloc, text, digest, left)?;
        let cut_off = part.is_cut(alloc)?;
        let inner = part.sections(alloc)?;
        push_sections(
            &mut pending,
            inner,
            is_multipart_digest(part.media_type()),
            left.saturating_sub(1),
        )?;
        parts.push(part)?;
        complete = stays_complete(complete, cut_off);
    }
    Ok(MailParts { parts, complete })
}
