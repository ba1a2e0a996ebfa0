//! Adds users.
ghost use Rattle.std.specs.Prelude.{◌≡◌, ◌==◌, OnOk, IfOk, IfErr, MatchBool};
ghost use Rattle.std.specs.List.{list_all, list_any};
ghost use Rattle.sqlite.specs.Held.{state};
ghost use Rattle.sqlite.specs.State.{HasCleanDisk};
ghost use Rattle.store_accounts.specs.Connection.{IsSettled};
ghost use Rattle.store_accounts.specs.declared.refusal.Refusal.TheVariants.{BadUser};
ghost use Rattle.store_engine.specs.Hosts.{ActsAddition, RefusesAddition};
ghost use Rattle.store_engine.specs.Lookups.{over_standing};
ghost use Rattle.store_engine.specs.Limits as limits;
ghost use Rattle.store_engine.specs.Limits.{IsNewUser, IsOwnAddress};

use crate::standing::{Standing, read_standing};
use mail_address::bare_address;
use octets::is_letter;
use sasl_plain::{ROUNDS, digest};
use sqlite::Alter;
use std::alloc::{AllocError, Global};
use store_accounts::{Refusal, Store};

/// The longest name of a user, in octets: names are arguments and file names of other programs.
pub const MAX_USER_NAME: usize = 64;
/// The longest password, in octets: each round of its digest hashes all of it.
pub const MAX_PASSWORD: usize = 1_024;

/// Makes an account without scripts, folders and replies, in one transaction, which is the last step. A closed account of the
/// name that has no mail is opened again: its scripts and notices are removed, and the moments of its replies to senders stay.
///
/// The password is stored as its digest after 10,000 rounds under the salt, some milliseconds of work. The salt has to be
/// random, a different one for each user.
///
/// # Errors
///
/// In this order: [`Refusal::BadUser`] for a name that isn't 1 to 64 letters, digits and `. _ - @`, an address that
/// isn't an addr-spec alone (RFC 5322, 3.4.1), or a password that isn't 1 to 1,024 octets without NUL: the store isn't
/// asked then. Then [`Refusal::UserExists`] for a name whose account is open, and [`Refusal::UserHasMail`] for a closed one
/// with messages, which would be lost or come to another person. [`Refusal::Memory`] may come at any point, [`Refusal::Store`] at any
/// point after the first. The store then stays as it was.
pub fn add_user<S: Alter>(
    alloc: Global,
    store: &mut Store<S>,
    name: &[u8],
    address: &[u8],
    salt: [u8; 16],
    password: &[u8],
) -> Result<(), Refusal>
    ensures acts { ActsAddition name.now address.now salt password.now (state S.Store store.old) (state S.Store store.new) result }
    ensures settled { HasCleanDisk (state S.Store store.new) → OnOk result (IsSettled (state S.Store store.new)) }
    ensures early { IfErr result (λ e. e ≡ BadUser → store.new ≡ store.old) }
    ensures unasked { (IsNewUser name.now address.now password.now → ⊥) → store.new ≡ store.old }
    ensures named { IfErr result (RefusesAddition name.now address.now password.now) }
{
    if !is_new_user(alloc, name, address, password)? {
        return Err(Refusal::BadUser);
    }
    let found = read_standing(store, name)?;
    if let Some(refusal) = refusal_over(found) {
        return Err(refusal);
    }
    let digest = digest(&salt, ROUNDS, password);
    if found.is_some() {
        return store.renew_user(name, address, &salt, ROUNDS, &digest);
    }
    store.add_user(name, address, &salt, ROUNDS, &digest)
}

/// Why no new account can have the name, given the state of the one that has it; `None` if one can.
pub(crate) fn refusal_over(found: Option<Standing>) -> Option<Refusal>
    ensures { result ≡ over_standing found }
{
    let standing = found?;
    if !standing.is_closed {
        return Some(Refusal::UserExists);
    }
    if standing.has_mail {
        return Some(Refusal::UserHasMail);
    }
    None
}

/// Whether these may be an account's name, address and password.
fn is_new_user(
    alloc: Global,
    name: &[u8],
    address: &[u8],
    password: &[u8],
) -> Result<bool, AllocError>
    ensures { IfOk result (λ holds. MatchBool holds (IsNewUser name.now address.now password.now) (IsNewUser name.now address.now password.now → ⊥)) }
{
    if !is_user_name(name) || !is_password(password) {
        return Ok(false);
    }
    is_own_address(alloc, address)
}

/// Whether a text is an addr-spec alone.
pub(crate) fn is_own_address(alloc: Global, text: &[u8]) -> Result<bool, AllocError>
    ensures { IfOk result (λ holds. MatchBool holds (IsOwnAddress text.now) (IsOwnAddress text.now → ⊥)) }
{
    if let Some(_) = bare_address(alloc, text)? {
        return Ok(true);
    }
    Ok(false)
}

pub(crate) fn is_user_name(name: &[u8]) -> bool
    ensures { result ≡ limits.is_user_name name.now }
{
    1 <= name.len() && name.len() <= MAX_USER_NAME && has_name_octets(name)
}

fn has_name_octets(name: &[u8]) -> bool
    ensures { result ≡ list_all limits.is_user_octet name.now }
{
    name.iter().all(|octet| is_name_octet(*octet))
}

fn is_name_octet(octet: u8) -> bool
    ensures { result ≡ limits.is_user_octet octet }
{
    is_letter(octet)
        || octet.is_ascii_digit()
        || octet == b'.'
        || octet == b'_'
        || octet == b'-'
        || octet == b'@'
}

pub(crate) fn is_password(password: &[u8]) -> bool
    ensures { result ≡ limits.is_password password.now }
{
    1 <= password.len() && password.len() <= MAX_PASSWORD && !has_nul(password)
}

fn has_nul(text: &[u8]) -> bool
    ensures { result ≡ list_any (λ octet. octet == 0) text.now }
{
    text.iter().any(|octet| *octet == 0)
}
