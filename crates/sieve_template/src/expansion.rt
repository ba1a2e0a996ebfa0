//! What a template stands for (RFC 5229, section 3).
ghost use Rattle.std.specs.Prelude.{◌≡◌, ℕ, List, IfOk, OnOk, ◌++◌};
ghost use Rattle.sieve_template.specs.Expansion.{value_of_piece, expanded_text};

use crate::template::Piece;
use octets::Octets;
use std::alloc::{AllocError, Global};

/// What variables hold at a moment of a run.
pub trait Variables {
    // What a variable holds, by its name.
    ghost variable: { Self → List ℕ → List ℕ };

    // What a match variable holds, by its number.
    ghost capture: { Self → ℕ → List ℕ };

    // What a variable of a namespace holds, by its whole name.
    ghost namespaced: { Self → List ℕ → List ℕ };

    /// What a variable holds; one that isn't known holds the empty text.
    fn variable_value(&self, name: &[u8]) -> &[u8]
        ensures { result.now ≡ variable self.now name.now };

    /// What a match variable holds; one that isn't set holds the empty text.
    fn capture_value(&self, number: u32) -> &[u8]
        ensures { result.now ≡ capture self.now number };

    /// What a variable of a namespace holds.
    fn namespaced_value(&self, path: &[u8]) -> &[u8]
        ensures { result.now ≡ namespaced self.now path.now };
}

// What a piece stands for.
fn value_of<'v, V: Variables>(piece: &'v Piece, variables: &'v V) -> &'v [u8]
    ensures { result.now ≡ value_of_piece (V.variable variables.now) (V.capture variables.now) (V.namespaced variables.now) piece.now }
{
    match piece {
        Piece::Text(text) => text.as_slice(),
        Piece::Variable(name) => variables.variable_value(name.as_slice()),
        Piece::Match(number) => variables.capture_value(*number),
        Piece::Namespaced(path) => variables.namespaced_value(path.as_slice()),
    }
}

/// What a template stands for: its texts, and for each reference what its variable holds. What comes out isn't read again. Time
/// and memory are linear in what comes out, which has no limit here; the only error is lack of memory.
pub fn expand<V: Variables>(
    alloc: Global,
    pieces: &[Piece],
    variables: &V,
) -> Result<Octets, AllocError>
    ensures { IfOk result (λ text. text ≡ expanded_text (V.variable variables.now) (V.capture variables.now) (V.namespaced variables.now) pieces.now) }
{
    let mut text = Octets::new(alloc);
    for piece in pieces {
        text.extend_from_slice(value_of(piece, variables))?;
    }
    Ok(text)
}
