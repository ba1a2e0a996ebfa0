//! The addresses that a message is sent to.
ghost use Rattle.std.specs.Prelude.{◌≡◌, map, IfOk};
ghost use Rattle.mail_address.specs.Spelling.{address_spelling};
ghost use Rattle.sieve_plan.specs.Sent.{is_among_texts, not_among};

use mail_address::{Addr, spell_address};
use octets::{List, Octets, Texts};
use std::alloc::{AllocError, Global};

/// The addresses that aren't among the known ones, as they are spelled.
pub(crate) fn not_among(
    alloc: Global,
    known: &[Octets],
    targets: &[Addr],
) -> Result<Texts, AllocError>
    ensures { IfOk result (λ texts. texts ≡ map address_spelling (not_among known.now targets.now)) }
{
    let mut texts = Texts::new(alloc);
    for target in targets {
        let text = spell_address(alloc, target)?;
        if !is_among_texts(known, text.as_slice()) {
            texts.push(text)?;
        }
    }
    Ok(texts)
}

/// Whether one of the texts is this one.
fn is_among_texts(texts: &[Octets], text: &[u8]) -> bool
    ensures { result ≡ is_among_texts texts.now text.now }
{
    texts.iter().any(|other| other.as_slice() == text)
}

/// Copies of the addresses, in order.
pub(crate) fn copied_addresses(alloc: Global, targets: &[Addr]) -> Result<List<Addr>, AllocError>
    ensures { IfOk result (λ copies. copies ≡ targets.now) }
{
    let mut copies = List::new(alloc);
    for target in targets {
        copies.push(Addr {
            local: target.local.try_clone(alloc)?,
            domain: target.domain.try_clone(alloc)?,
        })?;
    }
    Ok(copies)
}
