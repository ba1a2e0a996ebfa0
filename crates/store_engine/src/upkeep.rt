//! Maintains one account, for an administrator.
ghost use Rattle.std.specs.Prelude.{◌≡◌, ◌&&◌, not};
ghost use Rattle.sqlite.specs.Held.{state};
ghost use Rattle.store_accounts.specs.Promises.{WritesUser};
ghost use Rattle.store_engine.specs.declared.upkeep.Upkeep.TheVariants as upkeep;
ghost use Rattle.store_engine.specs.Hosts.{ActsKeeping};
ghost use Rattle.store_engine.specs.Upkeep.{stores};

use crate::account::{profile, script_names};
use crate::answer::Answer;
use crate::script_edit::{ScriptEdit, edit_scripts};
use crate::standing::{Standing, read_standing};
use crate::user::{is_own_address, is_password};
use managesieve_sessions::script_name::is_script_name;
use managesieve_sessions::scripts::{MAX_SCRIPT, fault_in, has_room};
use octets::Octets;
use sasl_plain::{ROUNDS, digest};
use sqlite::Alter;
use std::alloc::Global;
use store_accounts::{Refusal, Store};

/// What is done to one account, with all that comes from outside. For a user without an open account only `OpenAccount` and
/// `RemoveAccount` do anything, and for a removed one nothing does.
#[derive(Drop)]
pub enum Upkeep {
    /// Replaces the password.
    SetPassword {
        /// Octets that no other account has, hashed before the password.
        salt: [u8; 16],
        /// The password; its digest is stored.
        password: Octets,
    },
    /// Replaces the address.
    SetAddress {
        /// The user's own address, an addr-spec (RFC 5322, 3.4.1).
        address: Octets,
    },
    /// Stores a script, as PUTSCRIPT does (RFC 5804, 2.6).
    StoreScript {
        /// The script's name.
        name: Octets,
        /// The script.
        text: Octets,
        /// Whether the script becomes the active one.
        activate: bool,
    },
    /// Changes what scripts there are, or which one is active.
    EditScripts(ScriptEdit),
    /// Closes the account; nothing of it is removed.
    CloseAccount,
    /// Opens a closed account as it was.
    OpenAccount,
    /// Closes the account, and removes all but its address, the moments of its replies and its numbers.
    RemoveAccount {
        /// Whether messages in folders and on their way out are removed too.
        mail: bool,
    },
    /// Takes notices.
    TakeNotices {
        /// The moment of the last one that is taken, in seconds since 1970-01-01 UTC.
        until: u64,
    },
}

/// Does this to the user's account, in at most one transaction, which is the last step. Whoever is logged in stays logged in: a
/// session whose account was closed is told so at its next command about scripts.
///
/// A password is stored as its digest after 10,000 rounds under the salt, some milliseconds of work. The moments of replies to
/// senders stay, whatever is done to the account. Memory is in proportion to the names of the scripts, and if the account
/// is removed also to its queue without the messages; a script is also checked.
///
/// # Errors
///
/// In this order, and before the store is asked: [`Refusal::BadUser`] for a password or an address that no account may have,
/// [`Refusal::BadScriptName`], [`Refusal::ScriptTooLarge`]. Then [`Refusal::NoUser`] without an account and if it is
/// removed, and for a closed one unless this is `OpenAccount` or `RemoveAccount`. Then [`Refusal::TooManyScripts`],
/// [`Refusal::UserIsOpen`], [`Refusal::UserHasMail`]. [`Refusal::Memory`] and [`Refusal::Store`] may come at any point after
/// the first ones, and lack of memory also when an address is checked. The store then stays as it was. A text that is no script
/// is not an error: [`Answer::Invalid`]; nor is what stands against another change of the scripts: [`Answer::Objected`].
pub fn do_upkeep<S: Alter>(
    alloc: Global,
    store: &mut Store<S>,
    user: &[u8],
    upkeep: &Upkeep,
) -> Result<Answer, Refusal>
    ensures { ActsKeeping user.now upkeep.now (state S.Store store.old) (state S.Store store.new) result }
{
    match upkeep {
        Upkeep::SetPassword { salt, password } => {
            set_password(store, user, salt, password.as_slice())
        }
        Upkeep::SetAddress { address } => set_address(alloc, store, user, address.as_slice()),
        Upkeep::StoreScript {
            name,
            text,
            activate,
        } => store_script(
            alloc,
            store,
            user,
            name.as_slice(),
            text.as_slice(),
            *activate,
        ),
        Upkeep::EditScripts(edit) => edit_scripts(store, user, edit),
        Upkeep::CloseAccount => close_account(store, user),
        Upkeep::OpenAccount => open_account(store, user),
        Upkeep::RemoveAccount { mail } => remove_account(store, user, *mail),
        Upkeep::TakeNotices { until } => take_notices(store, user, *until),
    }
}

/// Replaces the password.
fn set_password<S: Alter>(
    store: &mut Store<S>,
    user: &[u8],
    salt: &[u8; 16],
    password: &[u8],
) -> Result<Answer, Refusal>
    ensures { ActsKeeping user.now (upkeep.SetPassword salt.now password.now) (state S.Store store.old) (state S.Store store.new) result }
{
    if !is_password(password) {
        return Err(Refusal::BadUser);
    }
    let _ = profile(store, user)?;
    let digest = digest(salt, ROUNDS, password);
    let changed = store.set_password(user, salt, ROUNDS, &digest);
    changed.and(Ok(Answer::Changed))
}

/// Replaces the address.
fn set_address<S: Alter>(
    alloc: Global,
    store: &mut Store<S>,
    user: &[u8],
    address: &[u8],
) -> Result<Answer, Refusal>
    ensures { ActsKeeping user.now (upkeep.SetAddress address.now) (state S.Store store.old) (state S.Store store.new) result }
{
    if !is_own_address(alloc, address)? {
        return Err(Refusal::BadUser);
    }
    profile(store, user)?;
    let changed = store.set_address(user, address);
    changed.and(Ok(Answer::Changed))
}

/// Stores a script, as PUTSCRIPT does (RFC 5804, 2.6).
fn store_script<S: Alter>(
    alloc: Global,
    store: &mut Store<S>,
    user: &[u8],
    name: &[u8],
    text: &[u8],
    activate: bool,
) -> Result<Answer, Refusal>
    ensures { ActsKeeping user.now (upkeep.StoreScript name.now text.now activate) (state S.Store store.old) (state S.Store store.new) result }
{
    if !is_script_name(name) {
        return Err(Refusal::BadScriptName);
    }
    if text.len() > MAX_SCRIPT {
        return Err(Refusal::ScriptTooLarge);
    }
    let names = script_names(store, user)?;
    if !has_room(names.as_slice(), name) {
        return Err(Refusal::TooManyScripts);
    }
    if let Some(fault) = fault_in(alloc, text)? {
        return Ok(Answer::Invalid(fault));
    }
    let stored = put(store, user, name, text, activate);
    stored.and(Ok(Answer::Stored))
}

/// Writes a script, and makes it the active one if asked to.
fn put<S: Alter>(
    store: &mut Store<S>,
    user: &[u8],
    name: &[u8],
    text: &[u8],
    activate: bool,
) -> Result<(), Refusal>
    ensures { WritesUser user.now (stores name.now text.now activate) (state S.Store store.old) (state S.Store store.new) result }
{
    if activate {
        return store.put_active(user, name, text);
    }
    store.put_script(user, name, text)
}

/// Closes the account; all of it stays.
fn close_account<S: Alter>(store: &mut Store<S>, user: &[u8]) -> Result<Answer, Refusal>
    ensures { ActsKeeping user.now upkeep.CloseAccount (state S.Store store.old) (state S.Store store.new) result }
{
    let _ = profile(store, user)?;
    let closed = store.close_account(user);
    closed.and(Ok(Answer::Closed))
}

/// Opens a closed account as it was.
fn open_account<S: Alter>(store: &mut Store<S>, user: &[u8]) -> Result<Answer, Refusal>
    ensures { ActsKeeping user.now upkeep.OpenAccount (state S.Store store.old) (state S.Store store.new) result }
{
    let Some(standing) = read_standing(store, user)? else {
        return Err(Refusal::NoUser);
    };
    if standing.is_removed {
        return Err(Refusal::NoUser);
    }
    if !standing.is_closed {
        return Err(Refusal::UserIsOpen);
    }
    let opened = store.open_account(user, ROUNDS);
    opened.and(Ok(Answer::Opened))
}

/// Removes the account, its mail only if asked to.
fn remove_account<S: Alter>(
    store: &mut Store<S>,
    user: &[u8],
    mail: bool,
) -> Result<Answer, Refusal>
    ensures { ActsKeeping user.now (upkeep.RemoveAccount mail) (state S.Store store.old) (state S.Store store.new) result }
{
    let Some(standing) = read_standing(store, user)? else {
        return Err(Refusal::NoUser);
    };
    if standing.is_removed {
        return Err(Refusal::NoUser);
    }
    if is_in_the_way(standing, mail) {
        return Err(Refusal::UserHasMail);
    }
    let removed = store.remove_account(user);
    removed.and(Ok(Answer::Removed))
}

/// Whether the account's mail forbids its removal.
fn is_in_the_way(standing: Standing, mail: bool) -> bool
    ensures { result ≡ (not mail && standing.has_mail) }
{
    !mail && standing.has_mail
}

/// Takes the notices up to the moment.
fn take_notices<S: Alter>(store: &mut Store<S>, user: &[u8], until: u64) -> Result<Answer, Refusal>
    ensures { ActsKeeping user.now (upkeep.TakeNotices until) (state S.Store store.old) (state S.Store store.new) result }
{
    let _ = profile(store, user)?;
    let taken = store.take_notices(user, until);
    taken.and(Ok(Answer::NoticesTaken))
}
