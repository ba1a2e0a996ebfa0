//! The contents of an account, without its texts and messages.
ghost use Rattle.std.specs.Prelude.{◌≡◌, true, IfOk, IfErr};
ghost use Rattle.sqlite.specs.Held.{state};
ghost use Rattle.store_text.specs.Text.{IsHead};
ghost use Rattle.store_accounts.specs.Refusals.{IsTransient};
ghost use Rattle.store_export.specs.Parts.{head_by};
ghost use Rattle.store_export.specs.Places.{has_active_place as has_active_in};
ghost use Rattle.store_export.specs.Reading.{ListsContents, ListsEntered};

use crate::place::{PartPlace, has_active, list_places};
use octets::{List, Octets};
use sqlite::Alter;
use std::alloc::{AllocError, Global};
use store_accounts::{Counters, Profile, Refusal, Store};
use store_text::{AccountHead, AccountOwner, Numbers, is_head};

/// The contents of an account: what it has once, and the place of each of its parts, in the order of its text. Memory is in
/// proportion to names and numbers only: it holds no script's text, no message, and no notice's text.
#[derive(Debug, Drop)]
pub struct Contents {
    pub head: AccountHead,
    pub places: List<PartPlace>,
}

/// Lists the contents of the user's open account.
///
/// Time is linear in the rows of the account, memory in their names and numbers.
///
/// # Errors
///
/// `NoUser` if there is no account or it is closed; `Memory`; `Store`, also if the account can't have a text: a counter is past
/// 2^63 - 1, or the active script isn't there.
pub fn list_contents<S: Alter>(
    alloc: Global,
    store: &mut Store<S>,
    user: &[u8],
) -> Result<Contents, Refusal>
    ensures reads { ListsContents user.now (state S.Store store.old) (state S.Store store.new) result }
    ensures named { IfOk result (λ contents. contents.head.owner.name ≡ user.now) }
{
    let profile = store.enter(user)?;
    list_of(alloc, store, user, profile)
}

/// The contents of the account that was entered and has this profile.
fn list_of<S: Alter>(
    alloc: Global,
    store: &mut Store<S>,
    user: &[u8],
    profile: Profile,
) -> Result<Contents, Refusal>
    ensures reads { ListsEntered user.now profile (state S.Store store.old) (state S.Store store.new) result }
    ensures named { IfOk result (λ contents. contents.head.owner.name ≡ user.now) }
{
    let counters = store.counters_of(user)?;
    let places = list_places(alloc, store, user)?;
    let head = head_of(alloc, user, profile, counters)?;
    contents_of(head, places)
}

/// What the account has once.
fn head_of(
    alloc: Global,
    user: &[u8],
    profile: Profile,
    counters: Counters,
) -> Result<AccountHead, AllocError>
    ensures { IfOk result (λ head. head ≡ head_by user.now profile counters) }
{
    let owner = AccountOwner {
        name: Octets::from_slice(alloc, user)?,
        address: profile.address,
        salt: profile.salt,
        digest: profile.digest,
        active: profile.active,
    };
    let numbers = Numbers {
        rounds: profile.rounds,
        next_copy: counters.copy,
        next_out: counters.out,
        next_notice: counters.notice,
    };
    Ok(AccountHead { owner, numbers })
}

/// Both, if a text can have this head and the active script has a place.
fn contents_of(head: AccountHead, places: List<PartPlace>) -> Result<Contents, Refusal>
    ensures made { IfOk result (λ contents. contents ≡ record { head = head; places = places }) }
    ensures head { IfOk result (λ contents. IsHead contents.head) }
    ensures active { IfOk result (λ contents. has_active_in contents.head.owner.active contents.places ≡ true) }
    ensures named { IfErr result IsTransient }
{
    if !is_head(&head) || !has_active(head.owner.active.as_ref(), places.as_slice()) {
        return Err(Refusal::Store);
    }
    Ok(Contents { head, places })
}
