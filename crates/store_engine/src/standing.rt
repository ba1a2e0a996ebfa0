//! The state of a user's account.
ghost use Rattle.sqlite.specs.Held.{state};
ghost use Rattle.store_engine.specs.Lookups.{ReadsStanding};

use sqlite::Alter;
use store_accounts::{Refusal, Store};

/// The state of an account: what decides whether it can be opened, removed or made again.
#[derive(Clone, Copy)]
pub(crate) struct Standing {
    pub is_closed: bool,
    /// It is closed, and its password is gone.
    pub is_removed: bool,
    /// A message is in a folder, or on its way out.
    pub has_mail: bool,
}

/// The state of the user's account, open or closed; `None` without an account. Time is linear in its messages.
pub(crate) fn read_standing<S: Alter>(
    store: &mut Store<S>,
    user: &[u8],
) -> Result<Option<Standing>, Refusal>
    ensures { ReadsStanding user.now (state S.Store store.old) (state S.Store store.new) result }
{
    let Some(profile) = store.account(user)? else {
        return Ok(None);
    };
    let has_mail = store.has_mail_of(user)?;
    Ok(Some(Standing {
        is_closed: profile.is_closed(),
        is_removed: profile.is_removed(),
        has_mail,
    }))
}
