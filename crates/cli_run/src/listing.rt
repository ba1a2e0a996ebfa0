//! The subcommands that list what is in a user's account.
ghost use Rattle.std.specs.Prelude.{◌≡◌, ◌++◌, ℕ, List, codes, decimal, map, false, IsTrue, IfOk, OnOk, option_copied};
ghost use Rattle.store_accounts.specs.Account.{Account};
ghost use Rattle.store_accounts.specs.Tally.{folder_count};
ghost use Rattle.cli_reports.specs.Reports.{ended_line};
ghost use Rattle.cli_run.specs.Serving.{HasDenied, HasGiven};
ghost use Rattle.cli_run.specs.Subcommands.{DoesFolders, DoesRead, LacksNothing, folder_line, directory_line, folder_listing, account_part};
ghost use Rattle.cli_run.specs.Transitions.{across};

use crate::account_read::{AccountRead, DirectoriesOf, FoldersOf, QueueOf, read_once};
use crate::fault::RunFault;
use crate::stream::write_all;
use crate::values::separator_of;
use cli_reports::list_queue;
use cli_subcommands::{FoldersArgs, StoreLocation};
use maildir_files::{Separator, directory_of};
use octets::{List, Octets, write_decimal};
use std::alloc::{AllocError, Global};
use std::io::Write;
use store_accounts::{Folder, QueuedEnvelope};
use store_lock::Keeper;

/// A listing of a user's account, a line for each thing that is found.
pub trait Listing: AccountRead {
    /// The lines that show an account.
    ghost shows: { Self → Account → List ℕ → Type 0 };

    /// The lines. Lack of memory is the only error.
    fn lines(&self, alloc: Global, found: &Self::Found) -> Result<Octets, AllocError>
        ensures { IfOk result (λ text. (a : Account) → Self.finds self.now found.now a → shows self.now a text) };
}

impl Listing for FoldersOf<'_> {
    ghost use Rattle.cli_run.specs.Subcommands.{ListsFolders, folder_line};

    ghost shows = { λ wanted a text. ListsFolders folder_line a text };

    fn lines(&self, alloc: Global, found: &List<Folder>) -> Result<Octets, AllocError> {
        folder_lines(alloc, found.as_slice())
    }
}

impl Listing for DirectoriesOf<'_> {
    ghost use Rattle.cli_run.specs.Subcommands.{ListsFolders, directory_line};

    ghost shows = { λ wanted a text. ListsFolders (directory_line wanted.1) a text };

    fn lines(&self, alloc: Global, found: &List<Folder>) -> Result<Octets, AllocError> {
        directory_lines(alloc, found.as_slice(), self.1)
    }
}

impl Listing for QueueOf<'_> {
    ghost use Rattle.cli_run.specs.Subcommands.{ListsQueue};

    ghost shows = { λ wanted a text. ListsQueue a text };

    fn lines(&self, alloc: Global, found: &List<QueuedEnvelope>) -> Result<Octets, AllocError> {
        list_queue(alloc, found.as_slice())
    }
}

/// The line of each folder, with the number of its messages.
fn folder_lines(alloc: Global, folders: &[Folder]) -> Result<Octets, AllocError>
    ensures { IfOk result (λ text. text ≡ folder_listing folder_line (map folder_count folders.now)) }
{
    let mut text = Octets::new(alloc);
    for folder in folders {
        add_folder(&mut text, folder)?;
    }
    Ok(text)
}

/// Appends the line of a folder.
fn add_folder(text: &mut Octets, folder: &Folder) -> Result<(), AllocError>
    ensures { OnOk result (text.new ≡ text.old ++ ended_line (folder_line (folder_count folder.now))) }
{
    text.extend_from_slice(folder.name.as_slice())?;
    text.push(b' ')?;
    write_decimal(text, folder.count)?;
    text.push(b'\n')
}

/// For each folder its directory in a Maildir, the number of its messages, and its name.
fn directory_lines(
    alloc: Global,
    folders: &[Folder],
    separator: Separator,
) -> Result<Octets, AllocError>
    ensures { IfOk result (λ text. text ≡ folder_listing (directory_line separator) (map folder_count folders.now)) }
{
    let mut text = Octets::new(alloc);
    for folder in folders {
        let directory = directory_of(alloc, folder.name.as_slice(), separator)?;
        add_directory(&mut text, directory.as_slice(), folder)?;
    }
    Ok(text)
}

/// Appends the line of a folder, which begins with its directory.
fn add_directory(text: &mut Octets, directory: &[u8], folder: &Folder) -> Result<(), AllocError>
    ensures { OnOk result (text.new ≡ text.old
        ++ ended_line (directory.now ++ (codes " " ++ (decimal folder.now.count ++ (codes " " ++ folder.now.name))))) }
{
    text.extend_from_slice(directory)?;
    text.push(b' ')?;
    write_decimal(text, folder.count)?;
    text.push(b' ')?;
    text.extend_from_slice(folder.name.as_slice())?;
    text.push(b'\n')
}

/// Prints the listing.
pub fn run_listing<Q: Listing, W: Write, K: Keeper>(
    alloc: Global,
    location: StoreLocation<'_>,
    wanted: &Q,
    output: &mut W,
    keeper: &mut K,
) -> Result<(), RunFault>
    ensures back { K.is_out keeper.old ≡ false → K.is_out keeper.new ≡ false }
    ensures does { IsTrue K.tells → DoesRead ⊥ (HasDenied K.refuses K.will_wait location.entry)
        (account_part (Q.user wanted.now) (Q.shows wanted.now) LacksNothing) (across W.contents output.old output.new) result
        (across K.holds keeper.old keeper.new) }
    ensures given { OnOk result (HasGiven K.gives K.will_wait location.entry) }
{
    let found = read_once(location, wanted, keeper)?;
    let text = wanted.lines(alloc, &found)?;
    write_all(output, text.as_slice())
}

/// `folders`: the user's folders, each with its directory in a Maildir if asked for. A separator of levels may be given only
/// with these.
pub fn run_folders<W: Write, K: Keeper>(
    alloc: Global,
    asked: FoldersArgs<'_>,
    output: &mut W,
    keeper: &mut K,
) -> Result<(), RunFault>
    ensures back { K.is_out keeper.old ≡ false → K.is_out keeper.new ≡ false }
    ensures does { IsTrue K.tells → DoesFolders (HasDenied K.refuses K.will_wait asked.entry.location) asked.entry.user.now
        asked.entry.directories (option_copied asked.entry.separator) (across W.contents output.old output.new) result
        (across K.holds keeper.old keeper.new) }
    ensures given { OnOk result (HasGiven K.gives K.will_wait asked.entry.location) }
{
    if asked.directories {
        let separator = separator_of(asked.separator)?;
        let wanted = DirectoriesOf(asked.user, separator);
        return run_listing(alloc, asked.location, &wanted, output, keeper);
    }
    match asked.separator {
        None => run_listing(
            alloc,
            asked.location,
            &FoldersOf(asked.user),
            output,
            keeper,
        ),
        Some(_) => Err(RunFault::BadArgument),
    }
}
