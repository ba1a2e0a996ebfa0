//! Laws of the definitions, each the contract of a function that does nothing.
ghost use Rattle.std.specs.Prelude.{◌≡◌, ℕ, false, List};
ghost use Rattle.sieve_template.specs.Modifiers.{IsSetTo};
ghost use Rattle.sieve_template.specs.Values.{FitsVariable, IsKeptAs};
ghost use Rattle.sieve_template.specs.Templates.{AreThePieces};
ghost use Rattle.sieve_template.specs.declared.modifier.Modifier.{Modifier};
ghost use Rattle.sieve_template.specs.declared.template.Piece.{Piece};

/// A text has exactly one list of pieces.
pub fn pieces_of_a_template()
    ensures some { (text : List ℕ) → (pieces : List Piece) × AreThePieces pieces text }
    ensures one { (pieces others : List Piece) (text : List ℕ) → AreThePieces pieces text → AreThePieces others text → pieces ≡ others }
{}

/// What `set` stores of a value is one text at most; `set_value` gives one. A text that a variable holds is kept whole, so none
/// with quoted wildcards is cut again.
pub fn value_of_a_set()
    ensures whole { (text kept : List ℕ) → FitsVariable text → IsKeptAs false text kept → kept ≡ text }
    ensures one { (modifiers : List Modifier) (value stored other : List ℕ) → IsSetTo modifiers value stored → IsSetTo modifiers value other → stored ≡ other }
{}
