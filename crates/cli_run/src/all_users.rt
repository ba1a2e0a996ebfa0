//! Listings of all users, one account after the other.
ghost use Rattle.std.specs.Prelude.{◌≡◌, ◌≢◌, ◌++◌, ℕ, List, false, IsTrue, IfErr, OnOk};
ghost use Rattle.std.specs.FinMap.{entries, get};
ghost use Rattle.sqlite.specs.Held.{state};
ghost use Rattle.store_accounts.specs.Account.{Account};
ghost use Rattle.store_accounts.specs.Refusals.{IsTransient};
ghost use Rattle.store_accounts.specs.Users.{FindsOver};
ghost use Rattle.cli_run.specs.AllUsers.{AddsLines, lines_at, listing_of};
ghost use Rattle.cli_run.specs.Draining.{TurnsTables};
ghost use Rattle.cli_run.specs.Promise.{status_after};
ghost use Rattle.cli_run.specs.Serving.{HasDenied, HasGiven};
ghost use Rattle.cli_run.specs.Subcommands.{DoesListing, FindsAllLines};
ghost use Rattle.cli_run.specs.Transitions.{across};

use crate::commands::take_store;
use crate::fault::RunFault;
use crate::stream::write_all;
use cli_subcommands::StoreLocation;
use octets::Octets;
use sqlite::Alter;
use std::alloc::Global;
use std::io::Write;
use store_accounts::{Refusal, Store};
use store_lock::Keeper;

/// What is listed of each account.
pub trait AccountLines {
    /// The lines of an account, by its name.
    ghost lines: { Self → List ℕ → Account → List ℕ };

    /// Appends the lines of the user with this name, if there is an account, from a store.
    ///
    /// # Errors
    ///
    /// `Memory`, `Store`.
    fn add<S: Alter>(
        &self,
        store: &mut Store<S>,
        name: &[u8],
        text: &mut Octets,
    ) -> Result<(), Refusal>
        ensures adds { FindsOver (λ done accounts. text.new ≡ text.old ++ lines_at (lines self.now) name.now (get accounts name.now))
            (state S.Store store.old) (state S.Store store.new) result }
        ensures named { IfErr result IsTransient };
}

/// Prints the lines of all accounts, in the order of the octets of the names. Memory is that of the lines and of one account: the
/// store is handed back before they are written.
pub fn run_for_all<L: AccountLines, W: Write, K: Keeper>(
    alloc: Global,
    location: StoreLocation<'_>,
    lines: &L,
    output: &mut W,
    keeper: &mut K,
) -> Result<(), RunFault>
    ensures late { status_after result ≢ 64 }
    ensures back { K.is_out keeper.old ≡ false → K.is_out keeper.new ≡ false }
    ensures does { IsTrue K.tells → DoesListing (HasDenied K.refuses K.will_wait location.entry) (L.lines lines.now)
        (across W.contents output.old output.new) result (across K.holds keeper.old keeper.new) }
    ensures given { OnOk result (HasGiven K.gives K.will_wait location.entry) }
{
    let text = list_all(alloc, location, lines, keeper)?;
    write_all(output, text.as_slice())
}

/// The lines, read from a store that is taken and handed back.
fn list_all<L: AccountLines, K: Keeper>(
    alloc: Global,
    location: StoreLocation<'_>,
    lines: &L,
    keeper: &mut K,
) -> Result<Octets, RunFault>
    ensures late { status_after result ≢ 64 }
    ensures back { K.is_out keeper.old ≡ false → K.is_out keeper.new ≡ false }
    ensures found { IsTrue K.tells → TurnsTables
        (λ accounts later. (later ≡ accounts)
        × FindsAllLines (HasDenied K.refuses K.will_wait location.entry) (L.lines lines.now) result accounts)
        (K.holds keeper.old) (K.holds keeper.new) }
    ensures given { OnOk result (HasGiven K.gives K.will_wait location.entry) }
{
    let mut store = take_store(location, false, keeper)?;
    let listed = all_lines(alloc, &mut store, lines);
    keeper.hand_back(store);
    Ok(listed?)
}

/// The lines of all accounts, in the order of the octets of the names. One account is read at a time.
fn all_lines<S: Alter, L: AccountLines>(
    alloc: Global,
    store: &mut Store<S>,
    lines: &L,
) -> Result<Octets, Refusal>
    ensures lists { FindsOver (λ text accounts. text ≡ listing_of (L.lines lines.now) (entries accounts)) (state S.Store store.old)
        (state S.Store store.new) result }
    ensures named { IfErr result IsTransient }
{
    let mut text = Octets::new(alloc);
    let mut next = add_user(store, lines, b"", &mut text)?;
    'users: for _ in 0..u64::MAX {
        let Some(name) = next else {
            return Ok(text);
        };
        next = add_user(store, lines, name.as_slice(), &mut text)?;
    }
    // No store has that many accounts.
    Err(Refusal::Store)
}

/// Appends the lines of the user with this name, if there is an account, and returns the name of the next user.
fn add_user<S: Alter, L: AccountLines>(
    store: &mut Store<S>,
    lines: &L,
    name: &[u8],
    text: &mut Octets,
) -> Result<Option<Octets>, Refusal>
    ensures adds { FindsOver (AddsLines (L.lines lines.now) name.now text.old text.new) (state S.Store store.old)
        (state S.Store store.new) result }
    ensures named { IfErr result IsTransient }
{
    lines.add(store, name, text)?;
    store.next_user(name)
}
