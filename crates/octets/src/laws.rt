//! Laws of the definitions, each the contract of a function that does nothing.
ghost use Rattle.std.specs.Prelude.{◌≡◌, ℕ, List};
ghost use Rattle.octets.specs.Ascii.{trimmed};
ghost use Rattle.octets.specs.Trimming.{Trims};

/// A text consists of blanks, a text that neither begins nor ends with a blank, and blanks; the one in the middle is unique.
pub fn blanks_at_the_ends()
    ensures found { (text : List ℕ) → Trims text (trimmed text) }
    ensures only { (text kept : List ℕ) → Trims text kept → kept ≡ trimmed text }
{}
