//! Laws of the definitions, each the contract of a function that does nothing.
ghost use Rattle.std.specs.Prelude.{◌≡◌, ◌++◌, ◌<◌, ◌^◌, ℕ, List, length};
ghost use Rattle.maildir_files.specs.FileName.{with_length};

/// A counted text tells where it ends. So no two messages, folders or users give a file's name the same text to hash.
pub fn counted_texts_end()
    ensures { (a b more rest : List ℕ) → length a < 2 ^ 64 → length b < 2 ^ 64 → with_length a ++ more ≡ with_length b ++ rest → (a ≡ b) × (more ≡ rest) }
{}
