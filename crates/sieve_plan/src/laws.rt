//! Laws of the definitions, each the contract of a function that does nothing.
ghost use Rattle.std.specs.Prelude.{◌≡◌, ◌↔◌, ◌+◌, ◌++◌, ◌-◌, ◌<◌, ◌≤◌, ◌^◌, ℕ, true, false, length, List, [], ◌∷◌, Option, Some};
ghost use Rattle.std.specs.FinMap.{get};
ghost use Rattle.std.specs.List.{AllByRecursion};
ghost use Rattle.mail_address.specs.declared.address.Addr.{Addr};
ghost use Rattle.mail_address.specs.Spelling.{address_spelling};
ghost use Rattle.mail_head.specs.Heads.{body_of};
ghost use Rattle.sieve_syntax.specs.declared.tree.action.Action.TheVariants.{Discard};
ghost use Rattle.sieve_syntax.specs.Meaning.{Actions};
ghost use Rattle.sieve_syntax.specs.Means.{Means};
ghost use Rattle.sieve_syntax.specs.RunState.{inbox, is_filed};
ghost use Rattle.sieve_syntax.specs.Trace.{NamesWithoutRepeats};
ghost use Rattle.sieve_syntax.specs.Tree.{act, no_commands, command};
ghost use Rattle.sieve_exec.specs.Mails.{MailSpec};
ghost use Rattle.store_accounts.specs.Account.{Account};
ghost use Rattle.store_accounts.specs.declared.report.Report.{Report};
ghost use Rattle.store_accounts.specs.ReplyRows.{is_key_between};
ghost use Rattle.store_accounts.specs.declared.reply.ReplyKey.{ReplyKey};
ghost use Rattle.sieve_plan.specs.Delivered.{Delivers, acts};
ghost use Rattle.sieve_plan.specs.Few.{AreFew};
ghost use Rattle.sieve_plan.specs.declared.scripts.HostScripts.{HostScripts};
ghost use Rattle.sieve_plan.specs.declared.scripts.Whose.TheVariants.{Own};
ghost use Rattle.sieve_plan.specs.Handover.{for_good, StandsAmong};
ghost use Rattle.sieve_plan.specs.Sequences.{SequenceScript, no_host_scripts, SequenceState, at_beginning, RunsToEnd, FailsFor, told_of, Settled, settled_well, SettlesInTurn, RunInTurn, DeliversInSequence};
ghost use Rattle.sieve_plan.specs.Sent.{going, half_handle, half_of, is_among_texts, is_near, key_of, redirect_key, sent_handle, known_targets};

/// A delivery has exactly one report, and the account afterwards is determined.
pub fn delivery_of_a_mail()
    ensures { (own : Addr) (mail : MailSpec) (text : Option (List ℕ)) (a : Account) (one two : Report) (after other : Account)
        → Delivers own mail text a one after → Delivers own mail text a two other → (one ≡ two) × (after ≡ other) }
{}

/// A message goes on at most 16 times within 12 hours, those times counted that the account knows, and to no address that it knows
/// the message went to; of each to which it goes its moment is kept; and what is forgotten has no moment within them.
pub fn sent_on_within_bounds()
    ensures often { (a : Account) (mail : MailSpec) (targets : List Addr) → length (known_targets a mail) ≤ 16 → length (known_targets a mail) + length (going a mail targets) ≤ 16 }
    ensures once { (a : Account) (mail : MailSpec) (targets : List Addr) → AllByRecursion (λ target. is_among_texts (known_targets a mail) (address_spelling target) ≡ false) (going a mail targets) }
    ensures kept { (mail : MailSpec) (deeds : Actions) (over : List ReplyKey) (a : Account)
        → AllByRecursion (λ target. get (acts mail deeds over a).replies (sent_handle (half_of mail.moment) (redirect_key mail) (address_spelling target), redirect_key mail) ≡ Some mail.moment) deeds.sent }
    ensures over { (moment kept : ℕ) (key target sender : List ℕ) → half_of kept < 2 ^ 32 → is_near moment kept ≡ true
        → is_key_between (3 ∷ []) (half_handle (half_of moment - 1)) (sent_handle (half_of kept) key target, sender) ≡ false }
{}

/// A message that comes again within 12 hours is known to have gone to each address of which a moment is kept, under its own name or,
/// where it had no Message-ID then, under that of its body: as long as at most 32 keys of it are kept in a half day.
pub fn sent_on_is_found()
    ensures again { (a : Account) (mail : MailSpec) (kept : ℕ) (target : List ℕ) → get a.replies (sent_handle (half_of kept) (redirect_key mail) target, redirect_key mail) ≡ Some kept
        → is_near mail.moment kept ≡ true → AreFew a (redirect_key mail) (half_of kept) → is_among_texts (known_targets a mail) target ≡ true }
    ensures by_body { (a : Account) (mail : MailSpec) (kept : ℕ) (target : List ℕ)
        → get a.replies (sent_handle (half_of kept) (key_of (2 ∷ body_of mail.octets)) target, key_of (2 ∷ body_of mail.octets)) ≡ Some kept
        → is_near mail.moment kept ≡ true → AreFew a (key_of (2 ∷ body_of mail.octets)) (half_of kept) → is_among_texts (known_targets a mail) target ≡ true }
{}

/// Without scripts of the host's a delivery is what it is by the user's script alone, or without one: the same report, and the same
/// account afterwards.
pub fn delivery_without_host_scripts()
    ensures { (own : Addr) (mail : MailSpec) (text : Option (List ℕ)) (a : Account) (report : Report) (after : Account)
        → Delivers own mail text a report after ↔ DeliversInSequence own no_host_scripts mail text a report after }
{}

/// A delivery by the host's scripts and the user's has exactly one report, and the account afterwards is determined.
pub fn delivery_in_sequence()
    ensures { (own : Addr) (host : HostScripts) (mail : MailSpec) (text : Option (List ℕ)) (a : Account) (one two : Report) (after other : Account)
        → DeliversInSequence own host mail text a one after → DeliversInSequence own host mail text a two other → (one ≡ two) × (after ≡ other) }
{}

/// What scripts did for good stands, whatever runs behind them. Each mailbox and each address is there once, so INBOX too, at most 100
/// and 16 of all together. Where the user is told of a failure INBOX has the message. The host's scripts take a quarter of a run's work among them all.
pub fn scripts_in_sequence()
    ensures stands { (mail : MailSpec) (ran more : List SequenceScript) (state : SequenceState) (settled : Settled) → RunInTurn mail ran at_beginning state
        → SettlesInTurn mail (ran ++ more) at_beginning settled → StandsAmong (for_good state.left) settled.deeds }
    ensures once { (mail : MailSpec) (scripts : List SequenceScript) (settled : Settled) → SettlesInTurn mail scripts at_beginning settled → NamesWithoutRepeats settled.deeds }
    ensures told { (mail : MailSpec) (scripts : List SequenceScript) (settled : Settled) (text : List ℕ) → SettlesInTurn mail scripts at_beginning settled
        → settled.notice ≡ Some text → is_filed settled.deeds.filed inbox ≡ true }
    ensures work { (mail : MailSpec) (ran : List SequenceScript) (state : SequenceState) → RunInTurn mail ran at_beginning state → state.host_work ≤ 50_000_000 }
{}

/// Where a script fails, what those before it did stands, and nothing else is done; a script that doesn't leave the message to be kept
/// is the last that runs, so none of the host's runs behind a `discard` of the user's.
pub fn end_of_a_sequence()
    ensures failure { (mail : MailSpec) (ran more : List SequenceScript) (script : SequenceScript) (state : SequenceState) (why : List ℕ) (settled : Settled) → RunInTurn mail ran at_beginning state
        → FailsFor mail script state why → SettlesInTurn mail (ran ++ script ∷ more) at_beginning settled → settled ≡ record { deeds = state.done; notice = Some (told_of script.whose why) } }
    ensures without { (mail : MailSpec) (ran : List SequenceScript) (state : SequenceState) → RunInTurn mail ran at_beginning state → SettlesInTurn mail ran at_beginning (settled_well state.done) }
    ensures last { (mail : MailSpec) (ran more : List SequenceScript) (script : SequenceScript) (state next : SequenceState) (settled : Settled) → RunInTurn mail ran at_beginning state
        → RunsToEnd mail script state next → next.left.is_kept ≡ false → SettlesInTurn mail (ran ++ script ∷ more) at_beginning settled → settled ≡ settled_well next.done }
    ensures discarded { (mail : MailSpec) (before after : List SequenceScript) (text : List ℕ) (state : SequenceState) (settled : Settled) → RunInTurn mail before at_beginning state
        → Means text (command (act Discard) no_commands) → SettlesInTurn mail (before ++ record { whose = Own; text = text } ∷ after) at_beginning settled → settled ≡ settled_well (for_good state.left) }
{}
