//! Laws of the definitions, each the contract of a function that does nothing.
ghost use Rattle.std.specs.Prelude.{◌≡◌, ℕ, true, List, length, Option, Some, None};
ghost use Rattle.std.specs.FinMap.{empty, get, insert};
ghost use Rattle.store_text.specs.Text.{IsAccountText};
ghost use Rattle.store_text.specs.declared.head.AccountHead.{AccountHead};
ghost use Rattle.store_text.specs.declared.part.Part.{Part};
ghost use Rattle.store_engine.specs.declared.event.Event.{Event};
ghost use Rattle.store_engine.specs.declared.answer.Answer.{Answer};
ghost use Rattle.store_engine.specs.declared.answer.Answer.TheVariants.{Imported};
ghost use Rattle.store_engine.specs.AccountEvents.{Importing};
ghost use Rattle.store_engine.specs.Importable.{may_guard, have_short_flags};
ghost use Rattle.store_engine.specs.Limits.{is_user_name};
ghost use Rattle.store_engine.specs.Sound.{IsSoundAccount, AreSound};
ghost use Rattle.store_engine.specs.World.{World, Next, Runs};
ghost use Rattle.store_tables.specs.Rows.{Tables};
ghost use Rattle.store_accounts.specs.Account.{Account, Accounts, folder_flags, messages_in};
ghost use Rattle.store_accounts.specs.Shows.{ShowsAccounts};
ghost use Rattle.store_accounts.specs.Whole.{whole, IsCopyOf};
ghost use Rattle.store_engine.specs.OwnActs.{UserAct, ActsInTurn, IsAlone};
ghost use Rattle.store_engine.specs.Spacing.{SentReply, GoOn, IsMove, IsSpaced, IsSpacing};

/// What happens to a user's account, and what is answered to the user's own acts, depends on these acts alone.
pub fn each_user_alone()
    ensures { (events : List Event) (told : List Answer) (w end : World) (run : Runs w events told end) → IsAlone w events told end run }
{}

/// The same acts leave a user with the same account, whatever others did in between and in whatever order.
pub fn account_by_acts()
    ensures { (user : List ℕ) (acts : List UserAct) (account one two : Option Account) → ActsInTurn user account acts one → ActsInTurn user account acts two → one ≡ two }
{}

/// Two replies of one user to one sender under one handle are apart by at least the later one's period.
pub fn answers_spaced()
    ensures { (events : List Event) (told : List Answer) (w end : World) (run : Runs w events told end) → IsSpaced w events told end run }
{}

/// This holds too if the user's account moves from one machine to another: the replies of the other one keep their distance from
/// those of the first.
pub fn spaced_across_a_move()
    ensures { (user : List ℕ) (start left here came end : Accounts) (first second : List SentReply)
        → IsSpacing start left first → IsMove user left here came → IsSpacing came end second → GoOn user first second }
{}

/// A text of an account, imported under a name that nobody has, is that account again, however it is read. Its password is one
/// that accounts may have, and its copies have no longer flags than deliveries give.
pub fn copy_comes_back()
    ensures read { (text user : List ℕ) (a : Account) (head : AccountHead) (parts : List Part) → IsCopyOf text user a → IsAccountText text head parts → (head.owner.name ≡ user) × (whole head parts empty ≡ a) }
    ensures imported { (text user : List ℕ) (a : Account) (head : AccountHead) (parts : List Part) (accounts later : Accounts) (answer : Answer)
        → IsCopyOf text user a → IsAccountText text head parts → is_user_name user ≡ true → may_guard a.password ≡ true → have_short_flags parts ≡ true → IsSoundAccount a → get accounts user ≡ None
        → Importing accounts head parts answer later → (answer ≡ Imported) × (later ≡ insert accounts user a) }
{}

/// Each message of an account that tables show has its flags: each folder has as many of them as messages.
pub fn flags_beside_messages()
    ensures { (tables : Tables) (accounts : Accounts) (user : List ℕ) (a : Account) → ShowsAccounts tables accounts → get accounts user ≡ Some a
        → (folder : List ℕ) → length (folder_flags a.flags folder) ≡ length (messages_in a.folders folder) }
{}

/// Sound accounts stay sound, whatever happens to them and whatever is answered.
pub fn sound_accounts()
    ensures next { (w next : World) (event : Event) (answer : Answer) → AreSound w.accounts → Next w event answer next → AreSound next.accounts }
    ensures runs { (events : List Event) (told : List Answer) (w end : World) → AreSound w.accounts → Runs w events told end → AreSound end.accounts }
{}
