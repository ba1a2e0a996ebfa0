//! Laws of the definitions, each the contract of a function that does nothing.
ghost use Rattle.std.specs.Prelude.{◌≡◌, ◌↔◌, [], ◌∷◌, ℕ, List, codes};
ghost use Rattle.mail_parts.specs.Sections.{line_mark, section_of, sections_of};
ghost use Rattle.mail_parts.specs.declared.section.LineMark.TheVariants.{Close, Delimiter};
ghost use Rattle.mail_parts.specs.Multiparts.{IsBoundaryLine, SectionsStand};

/// A line divides or closes a multipart exactly if it has the form of such a line.
pub fn form_of_a_boundary_line()
    ensures delimiter { (boundary line : List ℕ) → (line_mark boundary line ≡ Delimiter) ↔ IsBoundaryLine boundary [] line }
    ensures close { (boundary line : List ℕ) → (line_mark boundary line ≡ Close) ↔ IsBoundaryLine boundary (codes "--") line }
{}

/// What stands behind a delimiter by the grammar of a multipart is one list of sections: those that are read.
pub fn sections_of_a_multipart()
    ensures { (boundary : List ℕ) (texts lines : List (List ℕ)) → SectionsStand boundary texts lines
        → texts ≡ section_of boundary lines ∷ sections_of boundary lines }
{}
