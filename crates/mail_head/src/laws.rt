//! Laws of the definitions, each the contract of a function that does nothing.
ghost use Rattle.std.specs.Prelude.{◌≡◌, ◌↔◌, ℕ, List, Some, drop, map};
ghost use Rattle.mail_head.specs.Fields.{FieldText, IsField, field_of};
ghost use Rattle.mail_head.specs.Heads.{body_of, body_start, fields_of, places_of, text_at};
ghost use Rattle.mail_head.specs.Lines.{AreLines, HasEnd, end_of, lines_of, without_end};

/// A text has exactly one list of lines.
pub fn lines_of_a_text()
    ensures found { (text : List ℕ) → AreLines (lines_of text) text }
    ensures only { (text : List ℕ) (lines : List (List ℕ)) → AreLines lines text → lines ≡ lines_of text }
{}

/// A line has one text and one line end.
pub fn end_of_a_line()
    ensures found { (line : List ℕ) → HasEnd line (without_end line) (end_of line) }
    ensures only { (line text ending : List ℕ) → HasEnd line text ending → (text ≡ without_end line) × (ending ≡ end_of line) }
{}

/// A logical line is a field exactly if it has a field's form, and then it is only one field.
pub fn form_of_a_field()
    ensures { (line : List ℕ) (field : FieldText) → (field_of line ≡ Some field) ↔ IsField line field }
{}

/// The fields are in the message at their places.
pub fn places_of_the_fields()
    ensures { (message : List ℕ) → map (text_at message) (places_of message) ≡ fields_of message }
{}

/// The body is the end of the message.
pub fn place_of_the_body()
    ensures { (message : List ℕ) → drop (body_start message) message ≡ body_of message }
{}
