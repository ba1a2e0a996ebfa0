//! The subcommand on notices, of a user or of all, which may take a user's after they are printed.
ghost use Rattle.std.specs.Prelude.{◌≡◌, ◌≢◌, false, true, None, Some, IsTrue, IfOk, OnOk, option_copied};
ghost use Rattle.sqlite.specs.Held.{state};
ghost use Rattle.cli_reports.specs.Listings.{notice_listing};
ghost use Rattle.cli_run.specs.Promise.{status_after};
ghost use Rattle.cli_run.specs.Serving.{HasDenied, HasGiven};
ghost use Rattle.cli_run.specs.Subcommands.{DoesNotices, TakesListed, TakesNotices, TurnsStore, notices_until};
ghost use Rattle.cli_run.specs.Transitions.{across};

use crate::account_read::NoticesOf;
use crate::all_queues::NoticeLines;
use crate::all_users::run_for_all;
use crate::commands::take_store;
use crate::fault::RunFault;
use crate::listing::{Listing, run_listing};
use crate::stream::write_all;
use crate::upkeep::done_by;
use crate::values::until_of;
use cli_reports::list_user_notices;
use cli_subcommands::{NoticesArgs, StoreLocation};
use octets::{List, Octets};
use sqlite::Alter;
use std::alloc::{AllocError, Global};
use std::io::Write;
use store_accounts::{Notice, Store};
use store_engine::{Upkeep, do_upkeep};
use store_lock::Keeper;

impl Listing for NoticesOf<'_> {
    ghost use Rattle.cli_run.specs.Subcommands.{ListsNotices};

    ghost shows = { λ wanted a text. ListsNotices a text };

    fn lines(&self, alloc: Global, found: &List<Notice>) -> Result<Octets, AllocError> {
        list_user_notices(alloc, found.as_slice())
    }
}

/// `notices`: what went wrong in the user's deliveries; with `--all` in those of all users. With a moment the notices up to it are
/// printed, and then taken.
pub fn run_notices<W: Write, K: Keeper>(
    alloc: Global,
    asked: NoticesArgs<'_>,
    output: &mut W,
    keeper: &mut K,
) -> Result<(), RunFault>
    ensures back { K.is_out keeper.old ≡ false → K.is_out keeper.new ≡ false }
    ensures does { IsTrue K.tells → DoesNotices (HasDenied K.refuses K.will_wait asked.entry.location) asked.entry.all
        (option_copied asked.entry.user) (option_copied asked.entry.until) (across W.contents output.old output.new) result
        (across K.holds keeper.old keeper.new) }
    ensures given { OnOk result (HasGiven K.gives K.will_wait asked.entry.location) }
{
    if asked.all {
        return match asked.user {
            None => run_all_notices(alloc, asked.location, asked.until, output, keeper),
            Some(_) => Err(RunFault::BadArgument),
        };
    }
    match asked.user {
        Some(user) => run_notices_of(alloc, asked.location, user, asked.until, output, keeper),
        None => Err(RunFault::BadArgument),
    }
}

/// `notices --all`, with which no moment is asked for.
fn run_all_notices<W: Write, K: Keeper>(
    alloc: Global,
    location: StoreLocation<'_>,
    until: Option<&str>,
    output: &mut W,
    keeper: &mut K,
) -> Result<(), RunFault>
    ensures back { K.is_out keeper.old ≡ false → K.is_out keeper.new ≡ false }
    ensures does { IsTrue K.tells → DoesNotices (HasDenied K.refuses K.will_wait location.entry) true None
        (option_copied until.entry) (across W.contents output.old output.new) result (across K.holds keeper.old keeper.new) }
    ensures given { OnOk result (HasGiven K.gives K.will_wait location.entry) }
{
    match until {
        None => run_for_all(alloc, location, &NoticeLines, output, keeper),
        Some(_) => Err(RunFault::BadArgument),
    }
}

/// `notices` of one user: all of them, or those up to the moment, which are taken then.
fn run_notices_of<W: Write, K: Keeper>(
    alloc: Global,
    location: StoreLocation<'_>,
    user: &str,
    until: Option<&str>,
    output: &mut W,
    keeper: &mut K,
) -> Result<(), RunFault>
    ensures back { K.is_out keeper.old ≡ false → K.is_out keeper.new ≡ false }
    ensures does { IsTrue K.tells → DoesNotices (HasDenied K.refuses K.will_wait location.entry) false (Some user.now)
        (option_copied until.entry) (across W.contents output.old output.new) result (across K.holds keeper.old keeper.new) }
    ensures given { OnOk result (HasGiven K.gives K.will_wait location.entry) }
{
    match until {
        None => run_listing(alloc, location, &NoticesOf(user), output, keeper),
        Some(until) => run_taking(alloc, location, user, until, output, keeper),
    }
}

/// `notices --until`: prints the notices and takes them, without giving the store back in between.
fn run_taking<W: Write, K: Keeper>(
    alloc: Global,
    location: StoreLocation<'_>,
    user: &str,
    until: &str,
    output: &mut W,
    keeper: &mut K,
) -> Result<(), RunFault>
    ensures back { K.is_out keeper.old ≡ false → K.is_out keeper.new ≡ false }
    ensures does { IsTrue K.tells → TakesNotices (HasDenied K.refuses K.will_wait location.entry) user.now until.now
        (across W.contents output.old output.new) result (across K.holds keeper.old keeper.new) }
    ensures given { OnOk result (HasGiven K.gives K.will_wait location.entry) }
{
    let until = until_of(until)?;
    let mut store = take_store(location, false, keeper)?;
    let taken = print_and_take(alloc, &mut store, user.as_bytes(), until, output);
    keeper.hand_back(store);
    taken
}

/// Prints the notices up to the moment, and takes them after they are written and flushed.
fn print_and_take<S: Alter, W: Write>(
    alloc: Global,
    store: &mut Store<S>,
    user: &[u8],
    until: u64,
    output: &mut W,
) -> Result<(), RunFault>
    ensures late { status_after result ≢ 64 }
    ensures takes { TurnsStore (TakesListed user.now until (W.contents output.old) (W.contents output.new) result)
        (state S.Store store.old) (state S.Store store.new) }
{
    let notices = store.notices(user)?;
    let text = lines_until(alloc, notices, until)?;
    write_all(output, text.as_slice())?;
    done_by(do_upkeep(alloc, store, user, &Upkeep::TakeNotices { until }))
}

/// A line for each notice up to the moment, in their order. The notices aren't copied.
fn lines_until(alloc: Global, notices: List<Notice>, until: u64) -> Result<Octets, AllocError>
    ensures { IfOk result (λ text. text ≡ notice_listing (notices_until until notices)) }
{
    let mut early = List::new(alloc);
    for notice in notices.into_vec() {
        if notice.moment <= until {
            early.push(notice)?;
        }
    }
    list_user_notices(alloc, early.as_slice())
}
