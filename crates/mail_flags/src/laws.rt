//! Laws of the definitions, each the contract of a function that does nothing.
ghost use Rattle.std.specs.Prelude.{◌≡◌, ◌↔◌, ◌⊎◌, ◌<◌, ℕ, true, false, List, [], length};
ghost use Rattle.mail_flags.specs.Names.{are_same, is_flag};
ghost use Rattle.mail_flags.specs.Flags.{AreFlags, with_all_named, has, max_flags, named_flags, without_all_named, with_one, without_one, flags_text};

/// Whatever texts are added or removed, the flags stay names of flags, none twice, and at most a hundred.
pub fn flags_stay_flags()
    ensures none { AreFlags [] }
    ensures added { (flags texts : List (List ℕ)) → AreFlags flags → AreFlags (with_all_named flags texts) }
    ensures removed { (flags texts : List (List ℕ)) → AreFlags flags → AreFlags (without_all_named flags texts) }
{}

/// Flags that are written are read back as the same flags.
pub fn written_and_read()
    ensures { (flags : List (List ℕ)) → AreFlags flags → named_flags (flags_text flags) ≡ flags }
{}

/// A flag that was added is there, and one that was removed isn't; each other one is there as before.
pub fn one_more_one_less()
    ensures there { (flags : List (List ℕ)) (name : List ℕ) → is_flag name ≡ true → length flags < max_flags → has (with_one flags name) name ≡ true }
    ensures gone { (flags : List (List ℕ)) (name : List ℕ) → has (without_one flags name) name ≡ false }
    ensures others { (flags : List (List ℕ)) (name other : List ℕ) → are_same other name ≡ false → has (without_one flags name) other ≡ has flags other }
{}
