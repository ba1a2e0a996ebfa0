//! Laws of the definitions, each the contract of a function that does nothing.
ghost use Rattle.std.specs.Prelude.{◌≡◌, ◌↔◌, ◌⊎◌, ℕ, ◌+◌, ◌*◌, ◌≤◌, List, [], Some, IsTrue, true, false, length, sum_by};
ghost use Rattle.std.specs.List.{list_all};
ghost use Rattle.mail_head.specs.Fields.{is_name};
ghost use Rattle.mail_head.specs.Heads.{fields_of, size_of};
ghost use Rattle.mail_head.specs.Prefixes.{IsHeaderPrefix};
ghost use Rattle.sieve_syntax.specs.RunState.{RunState};
ghost use Rattle.sieve_syntax.specs.Tree.{Commands};
ghost use Rattle.sieve_syntax.specs.declared.tree.checks.MailCheck.{MailCheck};
ghost use Rattle.sieve_exec.specs.declared.envelope.Envelope.{Envelope};
ghost use Rattle.sieve_exec.specs.declared.when.When.{When};
ghost use Rattle.sieve_exec.specs.Mails.{MailSpec, mail_spec_of, field_values, with_size};
ghost use Rattle.sieve_exec.specs.Outcomes.{outcome_at};
ghost use Rattle.sieve_exec.specs.Extension.Subaddress.{IsUser, IsDetail, user_of, detail_of};
ghost use Rattle.sieve_exec.specs.Parts.{Cuts, local_of, domain_of};
ghost use Rattle.sieve_exec.specs.Holding.{TestHolds};
ghost use Rattle.sieve_exec.specs.Truth.{truth_at};
ghost use Rattle.sieve_exec.specs.Sizes.{is_long, sizes_of, contains_work, pattern_work};
ghost use Rattle.sieve_match.specs.Costs.{search_steps, pattern_steps};

/// A test that looks at the message, its envelope or the flags is true exactly if it holds.
pub fn truth_of_a_check()
    ensures { (mail : MailSpec) (so_far : RunState) (check : MailCheck) → IsTrue (truth_at mail so_far check) ↔ TestHolds mail so_far.flags check }
{}

/// The outcome of a script on a message depends only on the message's fields and its size.
pub fn outcome_by_fields_and_size()
    ensures { (one other : List ℕ) (envelope : Envelope) (when : When) (tree : Commands) → fields_of one ≡ fields_of other → size_of one ≡ size_of other
        → outcome_at (mail_spec_of one envelope when) tree ≡ outcome_at (mail_spec_of other envelope when) tree }
{}

/// So its outcome is the same on a prefix of the message that has an empty line, given the message's size.
pub fn outcome_of_a_front()
    ensures { (front message : List ℕ) (envelope : Envelope) (when : When) (tree : Commands) → IsHeaderPrefix front message
        → outcome_at (with_size (Some (size_of message)) (mail_spec_of front envelope when)) tree ≡ outcome_at (mail_spec_of message envelope when) tree }
{}

/// An address of the envelope is cut in exactly one way.
pub fn parts_of_an_address()
    ensures found { (text : List ℕ) → Cuts text (local_of text) (domain_of text) }
    ensures only { (text local domain : List ℕ) → Cuts text local domain → (local ≡ local_of text) × (domain ≡ domain_of text) }
{}

/// A local part has exactly one user and at most one detail (RFC 5233, 4).
pub fn parts_of_a_local_part()
    ensures user { (local : List ℕ) → IsUser local (user_of local) }
    ensures only { (local user : List ℕ) → IsUser local user → user ≡ user_of local }
    ensures detail { (local detail : List ℕ) → IsDetail local detail ↔ detail_of local ≡ Some detail }
{}

/// A name that can't be a field's name, since it is empty or has an octet that such a name can't have, names no field.
pub fn invalid_names()
    ensures { (message : List ℕ) (envelope : Envelope) (when : When) (name : List ℕ) → (list_all is_name name ≡ false) ⊎ (name ≡ [])
        → field_values (mail_spec_of message envelope when) name ≡ [] }
{}

/// The steps that `contains` and `matches` take with a key and all values are at most the work that is counted for it, and at most three
/// times that for a pattern of at most 63 octets. A table for a shorter key is made once for each name of fields.
pub fn steps_of_keys()
    ensures long_key { (names : ℕ) (key : List ℕ) (values : List (List ℕ)) → is_long key ≡ true
        → sum_by (λ value. search_steps (length key) (length value)) values ≤ contains_work names (sizes_of values) key }
    ensures short_key { (names : ℕ) (key : List ℕ) (values : List (List ℕ)) → is_long key ≡ false
        → sum_by length values + names * (length key + 256) ≤ contains_work names (sizes_of values) key }
    ensures long_pattern { (pattern : List ℕ) (values : List (List ℕ)) → is_long pattern ≡ true
        → sum_by (λ value. pattern_steps pattern (length value)) values ≤ pattern_work (sizes_of values) pattern }
    ensures pattern { (pattern : List ℕ) (values : List (List ℕ))
        → sum_by (λ value. pattern_steps pattern (length value)) values ≤ 3 * pattern_work (sizes_of values) pattern }
{}
