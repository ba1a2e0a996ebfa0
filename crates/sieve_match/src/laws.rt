//! Laws of the definitions, each the contract of a function that does nothing.
ghost use Rattle.std.specs.Prelude.{◌≡◌, ◌↔◌, ◌⊎◌, ℕ, ◌*◌, ◌≤◌, true, List, length, Option};
ghost use Rattle.sieve_match.specs.Comparators.{EqualBy};
ghost use Rattle.sieve_match.specs.Costs.{search_steps, pattern_steps, is_long_key};
ghost use Rattle.sieve_match.specs.Units.{key_units, pattern_units};
ghost use Rattle.sieve_match.specs.Sorting.{ComesBefore};
ghost use Rattle.sieve_match.specs.Numbers.{StandsForNumber, number_at, IsBelow, EqualNumbers};
ghost use Rattle.sieve_match.specs.Glob.{Glob};
ghost use Rattle.sieve_match.specs.Captures.{AreCaptures};
ghost use Rattle.sieve_match.specs.declared.pattern.GlobItem.{GlobItem};

/// The order of texts by images is total and transitive, and of two equal texts neither comes before the other.
pub fn order_of_texts()
    ensures total { (image : ℕ → ℕ) (one other : List ℕ) → ComesBefore image one other ⊎ (EqualBy image one other ⊎ ComesBefore image other one) }
    ensures transitive { (image : ℕ → ℕ) (a b c : List ℕ) → ComesBefore image a b → ComesBefore image b c → ComesBefore image a c }
    ensures strict { (image : ℕ → ℕ) (one other : List ℕ) → ComesBefore image one other → EqualBy image one other → ⊥ }
{}

/// So is the order of numbers.
pub fn order_of_numbers()
    ensures total { (one other : List ℕ) → IsBelow one other ⊎ (EqualNumbers one other ⊎ IsBelow other one) }
    ensures transitive { (a b c : List ℕ) → IsBelow a b → IsBelow b c → IsBelow a c }
    ensures strict { (one other : List ℕ) → IsBelow one other → EqualNumbers one other → ⊥ }
{}

/// A text stands for exactly one number, or for infinity.
pub fn number_of_a_text()
    ensures { (text : List ℕ) (number : Option ℕ) → StandsForNumber text number ↔ number ≡ number_at text }
{}

/// The bounds on the steps of a search are at most three times the work that a run counts for it, and for a key or pattern of more
/// than 63 octets at most that work.
pub fn steps_and_work()
    ensures long_key { (key : List ℕ) (n : ℕ) → is_long_key key ≡ true → search_steps (length key) n ≤ key_units key n }
    ensures key { (key : List ℕ) (n : ℕ) → search_steps (length key) n ≤ 2 * key_units key n }
    ensures long_pattern { (pattern : List ℕ) (n : ℕ) → is_long_key pattern ≡ true → pattern_steps pattern n ≤ pattern_units pattern n }
    ensures pattern { (pattern : List ℕ) (n : ℕ) → pattern_steps pattern n ≤ 3 * pattern_units pattern n }
{}

/// Items that match a text have exactly one list of captures in it, and items that don't have none.
pub fn captures_of_a_match()
    ensures some { (image : ℕ → ℕ) (items : List GlobItem) (text : List ℕ) → Glob image items text
        → (captured : List (List ℕ)) × AreCaptures image items text captured }
    ensures matching { (image : ℕ → ℕ) (items : List GlobItem) (text : List ℕ) (captured : List (List ℕ))
        → AreCaptures image items text captured → Glob image items text }
    ensures one { (image : ℕ → ℕ) (items : List GlobItem) (text : List ℕ) (captured others : List (List ℕ))
        → AreCaptures image items text captured → AreCaptures image items text others → captured ≡ others }
{}
