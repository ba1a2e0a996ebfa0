//! The subcommand that prints an account as a text, and may close it after that.
ghost use Rattle.std.specs.Prelude.{◌≡◌, ◌+◌, ◌<◌, false, length, IsTrue, OnOk};
ghost use Rattle.store_text.specs.Writing.{line_octets};
ghost use Rattle.sqlite.specs.Held.{state};
ghost use Rattle.sqlite.specs.State.{HasCleanDisk};
ghost use Rattle.cli_run.specs.Exports.{PutsParts};
ghost use Rattle.cli_run.specs.Faults.{IsTextPut};
ghost use Rattle.cli_run.specs.Serving.{HasDenied, HasGiven};
ghost use Rattle.cli_run.specs.Subcommands.{DoesExport, Exports, PrintsText, TurnsStore};
ghost use Rattle.cli_run.specs.Transitions.{across, from_to};

use crate::commands::take_store;
use crate::fault::RunFault;
use crate::stream::{put, write_all};
use crate::upkeep::done_by;
use cli_subcommands::ExportArgs;
use sqlite::Alter;
use std::alloc::Global;
use std::io::Write;
use store_accounts::Store;
use store_engine::{Upkeep, do_upkeep};
use store_export::{Contents, list_contents, read_part};
use store_lock::Keeper;
use store_text::{AccountLine, Writer};

/// `export`: prints the text of the user's account, and closes the account after that if asked to, without giving the store back
/// in between.
///
/// Time is linear in the text. Memory is that of the names and numbers of what the account has, and one to four times its largest
/// text or message, nearly all of it SQLite's.
pub fn run_export<W: Write, K: Keeper>(
    alloc: Global,
    asked: ExportArgs<'_>,
    output: &mut W,
    keeper: &mut K,
) -> Result<(), RunFault>
    ensures back { K.is_out keeper.old ≡ false → K.is_out keeper.new ≡ false }
    ensures does { IsTrue K.tells → DoesExport (HasDenied K.refuses K.will_wait asked.entry.location) asked.entry.and_close
        asked.entry.user.now (across W.contents output.old output.new) result (across K.holds keeper.old keeper.new) }
    ensures given { OnOk result (HasGiven K.gives K.will_wait asked.entry.location) }
{
    let mut store = take_store(asked.location, false, keeper)?;
    let exported = export(
        alloc,
        &mut store,
        asked.user.as_bytes(),
        asked.and_close,
        output,
    );
    keeper.hand_back(store);
    exported
}

/// Prints the text of the user's account, and if asked to closes it after the text is written and flushed.
fn export<S: Alter, W: Write>(
    alloc: Global,
    store: &mut Store<S>,
    user: &[u8],
    closes: bool,
    output: &mut W,
) -> Result<(), RunFault>
    ensures { TurnsStore (Exports closes user.now (W.contents output.old) (W.contents output.new) result)
        (state S.Store store.old) (state S.Store store.new) }
{
    print_text(alloc, store, user, output)?;
    if !closes {
        return Ok(());
    }
    done_by(do_upkeep(alloc, store, user, &Upkeep::CloseAccount))
}

/// Prints the text of the user's account, a part at a time, and flushes.
fn print_text<S: Alter, W: Write>(
    alloc: Global,
    store: &mut Store<S>,
    user: &[u8],
    output: &mut W,
) -> Result<(), RunFault>
    ensures { PrintsText user.now (W.contents output.old) (W.contents output.new) (state S.Store store.old)
        (state S.Store store.new) result }
{
    let contents = list_contents(alloc, store, user)?;
    let (mut writer, head) = Writer::begin(alloc, &contents.head)?;
    put(output, head.as_slice())?;
    put_parts(alloc, store, &contents, &mut writer, output)?;
    let end = writer.end(alloc)?;
    write_all(output, end.as_slice())
}

/// Reads each part, and writes its line.
fn put_parts<S: Alter, W: Write>(
    alloc: Global,
    store: &mut Store<S>,
    contents: &Contents,
    writer: &mut Writer,
    output: &mut W,
) -> Result<(), RunFault>
    requires live { HasCleanDisk (state S.Store store.old) → IsTrue (state S.Store store.old).is_open }
    ensures { PutsParts contents.now 0 (length contents.now.places) (from_to writer.old writer.new)
        (across W.contents output.old output.new) (from_to (state S.Store store.old) (state S.Store store.new)) result }
{
    for at in 0..contents.places.len() {
        put_part(alloc, store, contents, at, writer, output)?;
    }
    Ok(())
}

/// Reads the part at a place, and writes its line.
fn put_part<S: Alter, W: Write>(
    alloc: Global,
    store: &mut Store<S>,
    contents: &Contents,
    at: usize,
    writer: &mut Writer,
    output: &mut W,
) -> Result<(), RunFault>
    requires { at < length contents.now.places }
    ensures { PutsParts contents.now at (at + 1) (from_to writer.old writer.new) (across W.contents output.old output.new)
        (from_to (state S.Store store.old) (state S.Store store.new)) result }
{
    let part = read_part(alloc, store, contents, at)?;
    let line = writer.part(alloc, &part)?;
    put_pieces(output, &line)
}

/// Writes a line, without flushing.
fn put_pieces<W: Write>(output: &mut W, line: &AccountLine<'_>) -> Result<(), RunFault>
    ensures { IsTextPut result (W.contents output.old) (W.contents output.new) (line_octets line.now) }
{
    put(output, line.front.as_slice())?;
    put(output, line.last)?;
    put(output, line.back.as_slice())
}
