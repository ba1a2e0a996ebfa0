//! An account that is looked for in a store.
ghost use Rattle.lmtp_connections.specs.Connections.{IsFinding};
ghost use Rattle.sqlite.specs.Held.{state};
ghost use Rattle.daemon_core.specs.StoreAccess.{StoreFindsAccount};

use lmtp_dialogue::Lookup;
use sqlite::Alter;
use store_accounts::{Refusal, Store};

/// Whether the store has an account of that name, open or closed; one that was removed isn't there. A name that it can't look for now
/// is a fault, or lacks memory. Nothing changes.
///
/// Time is that of one row that is read by its key.
pub fn find_account<S: Alter>(store: &mut Store<S>, user: &[u8]) -> Lookup
    ensures found { IsFinding result }
    ensures finds { StoreFindsAccount user.now result (state S.Store store.old) (state S.Store store.new) }
{
    match store.account(user) {
        Ok(Some(profile)) => {
            if profile.is_removed() {
                Lookup::Unknown
            } else {
                Lookup::Known
            }
        }
        Ok(None) => Lookup::Unknown,
        Err(Refusal::Memory) => Lookup::NoRoom,
        Err(_) => Lookup::Fault,
    }
}
