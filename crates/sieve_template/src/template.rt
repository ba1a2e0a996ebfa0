//! How a string is read where variables are required (RFC 5229, section 3).
ghost use Rattle.std.specs.Prelude.{◌≡◌, ◌++◌, IfOk, OnOk, OnErr, MatchBool};
ghost use Rattle.sieve_template.specs.Templates.{AreThePieces, HasNoReference};
ghost use Rattle.sieve_template.specs.Reading.{text_pieces};

use crate::reference::{find_reference, piece_of};
use octets::{List, Octets};
use std::alloc::{AllocError, Global};

/// A piece of a string.
#[derive(Debug, Drop)]
pub enum Piece {
    /// Octets in which no reference stands.
    Text(Octets),
    /// `${name}`: the name as it is written. Names are the same without regard to the case of US-ASCII.
    Variable(Octets),
    /// `${1}`: the number of a match variable; 10 stands for each above 9.
    Match(u32),
    /// `${space.name}`: what stands between the braces. Which namespaces there are isn't decided here.
    Namespaced(Octets),
}

/// A string: its pieces in order.
pub type Template = List<Piece>;

// Appends a text, unless it is empty.
fn push_text(alloc: Global, pieces: &mut Template, text: &[u8]) -> Result<(), AllocError>
    ensures { OnOk result (pieces.new ≡ pieces.old ++ text_pieces text.now) }
{
    if text.is_empty() {
        return Ok(());
    }
    pieces.push(Piece::Text(Octets::from_slice(alloc, text)?))
}

/// Whether a reference stands in a string. One pass; takes no memory.
pub fn has_reference(text: &[u8]) -> bool
    ensures { MatchBool result (HasNoReference text.now → ⊥) (HasNoReference text.now) }
{
    find_reference(text, 0).is_some()
}

/// Reads a string: the references that stand in it, and between them the text, which stays as it is. One pass; the only error is
/// lack of memory.
pub fn read_template(alloc: Global, text: &[u8]) -> Result<Template, AllocError>
    ensures { IfOk result (λ pieces. AreThePieces pieces text.now) }
{
    let mut pieces = Template::new(alloc);
    let mut from = 0;
    while let Some((place, reference)) = find_reference(text, from) {
        push_text(alloc, &mut pieces, &text[from..place])?;
        pieces.push(piece_of(alloc, &reference)?)?;
        from = reference.end;
    }
    push_text(alloc, &mut pieces, &text[from..])?;
    Ok(pieces)
}
