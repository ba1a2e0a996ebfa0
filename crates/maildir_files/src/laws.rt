//! Laws of the definitions, each the contract of a function that does nothing.
ghost use Rattle.std.specs.Prelude.{◌≡◌, ℕ, List, ◌∷◌, ◌++◌, length, IsUtf8};
ghost use Rattle.maildir_files.specs.declared.separator.Separator.{Separator};
ghost use Rattle.maildir_files.specs.Directory.{MayShare, digest_form, directory};
ghost use Rattle.maildir_files.specs.Inside.{IsInsideMaildir};
ghost use Rattle.maildir_files.specs.Spelling.{separator_octet, spelled_name};

/// No directory lies outside of the Maildir, whatever the name.
pub fn directories_inside()
    ensures inside { (separator : Separator) (name : List ℕ) → IsInsideMaildir (directory separator name) }
    ensures digest { (name : List ℕ) → length (digest_form name) ≡ 72 }
{}

/// Two names have two directories, but for INBOX, or a first level INBOX, in letters of either case, and but for a collision of SHA-256.
pub fn directories_differ()
    ensures { (separator : Separator) (one two : List ℕ) → directory separator one ≡ directory separator two → MayShare separator one two }
{}

/// Levels have a `.` between them: what comes before a separator and what comes after it are each written as if alone.
pub fn levels_between_dots()
    ensures { (separator : Separator) (front rest : List ℕ) → IsUtf8 front → IsUtf8 rest
        → spelled_name separator (front ++ separator_octet separator ∷ rest) ≡ spelled_name separator front ++ 46 ∷ spelled_name separator rest }
{}
