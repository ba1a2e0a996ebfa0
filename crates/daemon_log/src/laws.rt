//! Laws of lines, each the contract of a function that does nothing.
ghost use Rattle.std.specs.Prelude.{◌≡◌, ℕ, List, true};
ghost use Rattle.std.specs.List.{list_all};
ghost use Rattle.daemon_log.specs.Values.{is_octet, is_visible, spelled};
ghost use Rattle.daemon_log.specs.Lines.{Pair, names_of, are_right, log_line_of, IsOneLine};

/// A value as it is written in a line has no blank, no LF and no other control octet.
pub fn visible_values()
    ensures { (value : List ℕ) → list_all is_octet value ≡ true → list_all is_visible (spelled value) ≡ true }
{}

/// A line is one line, whatever its values contain.
pub fn one_line()
    ensures { (word : List ℕ) → (pairs : List Pair) → list_all is_visible word ≡ true → are_right pairs ≡ true → IsOneLine (log_line_of word pairs) }
{}

/// Two lines with the same names that read alike have the same values: so no value forges another value, or another pair.
pub fn one_reading()
    ensures { (word : List ℕ) → (pairs others : List Pair) → are_right pairs ≡ true → are_right others ≡ true → names_of pairs ≡ names_of others
        → log_line_of word pairs ≡ log_line_of word others → pairs ≡ others }
{}
