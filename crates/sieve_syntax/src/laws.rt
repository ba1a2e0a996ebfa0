//! Laws of the definitions, each the contract of a function that does nothing.
ghost use Rattle.std.specs.Prelude.{◌≡◌, ◌↔◌, ℕ, Bool, true, List, All};
ghost use Rattle.sieve_syntax.specs.declared.tree.checks.MailCheck.{MailCheck};
ghost use Rattle.sieve_syntax.specs.Capabilities.{Capabilities, IsWithin};
ghost use Rattle.sieve_syntax.specs.Growth.{StillMeans};
ghost use Rattle.sieve_syntax.specs.Looking.{outcome_by, all_take_by};
ghost use Rattle.sieve_syntax.specs.Meaning.{TestAsking, OnlyLooks, outcome_after, outcome};
ghost use Rattle.sieve_syntax.specs.Means.{MeansIn, Means};
ghost use Rattle.sieve_syntax.specs.Extension.Vacation.Reasons.{is_entity, IsEntity};
ghost use Rattle.sieve_syntax.specs.RunState.{RunState, at_first};
ghost use Rattle.sieve_syntax.specs.Trace.{actions_run, in_turn, KeepsImplicitly, OnDone, NamesWithoutRepeats, FilesIntoInboxAlone, FilesWithFlags};
ghost use Rattle.sieve_syntax.specs.Tree.{Commands};
ghost use Rattle.sieve_syntax.specs.Work.{all_take};

/// A text means at most one tree (RFC 5228, 8.2).
pub fn tree_of_a_text()
    ensures { (text : List ℕ) (one two : Commands) → Means text one → Means text two → one ≡ two }
{}

/// Where tests only look, the outcome of a script is that by their truth: all tests of a condition are asked at one state.
pub fn tests_that_only_look()
    ensures { (asking : TestAsking) (truth : RunState → MailCheck → Bool) (tree : Commands) → OnlyLooks asking truth → outcome asking tree ≡ outcome_by truth tree }
{}

/// And so is the work that it takes.
pub fn work_of_tests_that_only_look()
    ensures { (asking : TestAsking) (truth : RunState → MailCheck → Bool) (work : RunState → MailCheck → ℕ) (tree : Commands) (so_far : RunState) → OnlyLooks asking truth
        → all_take asking work tree so_far ≡ all_take_by truth work tree so_far }
{}

/// Where tests only look, the outcome of a script is that of the actions that it runs, one after the other.
pub fn outcome_of_the_actions()
    ensures { (asking : TestAsking) (truth : RunState → MailCheck → Bool) (tree : Commands) → OnlyLooks asking truth
        → outcome asking tree ≡ outcome_after (in_turn (actions_run truth tree) at_first) }
{}

/// If a script doesn't fail, each mailbox and each address occurs once, and there are at most 100 mailboxes and 16 addresses
/// (RFC 5228, 2.10.3), where tests only look.
pub fn without_repeats()
    ensures { (asking : TestAsking) (truth : RunState → MailCheck → Bool) (tree : Commands) → OnlyLooks asking truth → OnDone NamesWithoutRepeats (outcome asking tree) }
{}

/// If a script doesn't fail, the flags of each copy are flags, whatever the texts of the script are: at most 100 names, of at most 128
/// octets each, and none twice (RFC 5232, 2; RFC 3501, 2.3.2), where tests only look.
pub fn flags_of_copies()
    ensures { (asking : TestAsking) (truth : RunState → MailCheck → Bool) (tree : Commands) → OnlyLooks asking truth → OnDone FilesWithFlags (outcome asking tree) }
{}

/// Where tests only look, a run without `keep`, `fileinto`, `redirect` and `discard` files the message into INBOX and does nothing else with it
/// (RFC 5228, 2.10.2).
pub fn implicit_keep()
    ensures { (asking : TestAsking) (truth : RunState → MailCheck → Bool) (tree : Commands) → OnlyLooks asking truth → All KeepsImplicitly (actions_run truth tree)
        → OnDone FilesIntoInboxAlone (outcome asking tree) }
{}

/// The reason of a `vacation` with `:mime` is accepted exactly if it is a MIME entity (RFC 5230, 4.4).
pub fn entity_of_a_reason()
    ensures { (text : List ℕ) → (is_entity text ≡ true) ↔ IsEntity text }
{}

/// A text that is a script where some capabilities are offered is one where more are: it means the same tree, so the outcome on every
/// mail is the same, and that tree uses nothing that came with the others.
pub fn scripts_of_a_smaller_language()
    ensures { (few more : Capabilities) (text : List ℕ) (tree : Commands) → IsWithin few more → MeansIn few text tree → StillMeans few more text tree }
{}
