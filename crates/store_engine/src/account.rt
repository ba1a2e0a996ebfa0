//! What the engine reads of one user's account.
ghost use Rattle.std.specs.Prelude.{◌≡◌};
ghost use Rattle.std.specs.FinMap.{keys};
ghost use Rattle.sqlite.specs.Held.{state};
ghost use Rattle.store_accounts.specs.AccountRows.{profile_of};
ghost use Rattle.store_accounts.specs.CopyRows.{IsFirstIn};
ghost use Rattle.store_accounts.specs.Account.{row_with};
ghost use Rattle.store_accounts.specs.Promises.{ReadsOwn};
ghost use Rattle.store_accounts.specs.Shows.{IsFirstOf};
ghost use Rattle.managesieve_sessions.specs.Decisions.{AreScripts};
ghost use Rattle.store_engine.specs.Lookups.{LooksUp, IsActiveScript};

use octets::{Octets, Texts};
use sqlite::Alter;
use store_accounts::{NumberedMessage, Profile, QueuedMessage, Refusal, Store};

/// What the store has of an account, with the text of its active script.
#[derive(Drop)]
pub(crate) struct ActiveScript {
    pub profile: Profile,
    /// The script's text, if a script is active.
    pub text: Option<Octets>,
}

/// The names of an account's scripts, in the order of their octets, and the active one.
#[derive(Drop)]
pub(crate) struct NamedScripts {
    pub names: Texts,
    pub active: Option<Octets>,
}

/// What the store has of the user's open account.
pub(crate) fn profile<S: Alter>(store: &mut Store<S>, user: &[u8]) -> Result<Profile, Refusal>
    ensures { LooksUp user.now (λ profile a. profile ≡ profile_of a) (state S.Store store.old) (state S.Store store.new) result }
{
    store.enter(user)
}

/// The names of the scripts of the user's open account, in the order of their octets.
pub(crate) fn script_names<S: Alter>(store: &mut Store<S>, user: &[u8]) -> Result<Texts, Refusal>
    ensures { LooksUp user.now (λ names a. names ≡ keys a.scripts) (state S.Store store.old) (state S.Store store.new) result }
{
    store.scripts(user)
}

/// The names of the scripts of the user's open account, in the order of their octets, and the active one.
pub(crate) fn named_scripts<S: Alter>(
    store: &mut Store<S>,
    user: &[u8],
) -> Result<NamedScripts, Refusal>
    ensures { LooksUp user.now (λ there a. AreScripts there.names there.active a) (state S.Store store.old) (state S.Store store.new) result }
{
    let profile = profile(store, user)?;
    let names = store.scripts_of(user)?;
    Ok(NamedScripts {
        names,
        active: profile.active,
    })
}

/// What the store has of the user's open account, with the text of the active script. It is read by its key.
pub(crate) fn active_script<S: Alter>(
    store: &mut Store<S>,
    user: &[u8],
) -> Result<ActiveScript, Refusal>
    ensures { LooksUp user.now IsActiveScript (state S.Store store.old) (state S.Store store.new) result }
{
    let profile = profile(store, user)?;
    let Some(name) = &profile.active else {
        return Ok(ActiveScript {
            profile,
            text: None,
        });
    };
    let text = store.script_of(user, name.as_slice())?;
    Ok(ActiveScript { profile, text })
}

/// The user's message on its way out with the number, if there is one. No other is read.
pub(crate) fn outgoing<S: Alter>(
    store: &mut Store<S>,
    user: &[u8],
    id: u64,
) -> Result<Option<QueuedMessage>, Refusal>
    ensures { LooksUp user.now (λ row a. row ≡ row_with id a.queue) (state S.Store store.old) (state S.Store store.new) result }
{
    let _ = profile(store, user)?;
    store.outgoing_of(user, id)
}

/// The first message of the user's folder, with its number; `None` if the folder is absent. No other message is read: memory is in
/// proportion to it.
///
/// # Errors
///
/// [`Refusal::NoUser`]; [`Refusal::Memory`] and [`Refusal::Store`] may come at any point.
pub fn first_message<S: Alter>(
    store: &mut Store<S>,
    user: &[u8],
    folder: &[u8],
) -> Result<Option<NumberedMessage>, Refusal>
    ensures first { LooksUp user.now (IsFirstIn folder.now) (state S.Store store.old) (state S.Store store.new) result }
    ensures numbered { ReadsOwn user.now (IsFirstOf user.now folder.now) (state S.Store store.old) (state S.Store store.new) result }
{
    let _ = profile(store, user)?;
    store.first_message_of(user, folder)
}
