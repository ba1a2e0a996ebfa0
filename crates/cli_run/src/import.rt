//! The subcommand that adds the account of a text.
ghost use Rattle.std.specs.Prelude.{◌≡◌, ◌≢◌, ◌⊎◌, false, IsTrue, IfErr, IfOk, OnOk, option_copied};
ghost use Rattle.std.specs.Io.KnownBytes.{IsAtEnd};
ghost use Rattle.store_engine.specs.declared.answer.Answer.TheVariants.{Imported};
ghost use Rattle.store_engine.specs.declared.event.Event.TheVariants as machine;
ghost use Rattle.cli_run.specs.Promise.{status_after};
ghost use Rattle.cli_run.specs.Serving.{HasDenied, HasGiven};
ghost use Rattle.cli_run.specs.Streams.{ReadsToEnd};
ghost use Rattle.cli_run.specs.Subcommands.{IsImportEvent, DeniedAtEnd, DoesImport, IsNotRead, PutsInTables, renamed_head};
ghost use Rattle.cli_run.specs.Transitions.{across};

use crate::commands::take_store;
use crate::fault::RunFault;
use crate::stream::{read_all, write_line};
use cli_subcommands::{ImportArgs, StoreLocation};
use octets::Octets;
use std::alloc::{AllocError, Global};
use std::io::{Read, Write};
use store_lock::Keeper;
use store_text::{AccountFile, AccountHead, AccountOwner};

/// `import`: adds the account whose text is the input.
///
/// Time is linear in the text. Memory is that of the text and of its parts, and, after the text was freed, of its parts and of
/// what the transaction takes.
pub fn run_import<R: Read, W: Write, K: Keeper>(
    alloc: Global,
    asked: ImportArgs<'_>,
    input: &mut R,
    output: &mut W,
    keeper: &mut K,
) -> Result<(), RunFault>
    ensures unread { status_after result ≡ 64 → input.new ≡ input.old }
    ensures reads { OnOk result (ReadsToEnd R.remaining input.old input.new) }
    ensures back { K.is_out keeper.old ≡ false → K.is_out keeper.new ≡ false }
    ensures does { IsTrue K.tells → DoesImport
        (DeniedAtEnd (HasDenied K.refuses K.will_wait asked.entry.location) (R.remaining input.new))
        (option_copied asked.entry.name) (R.remaining input.old)
        (across W.contents output.old output.new) result (across K.holds keeper.old keeper.new) }
    ensures given { OnOk result (HasGiven K.gives K.will_wait asked.entry.location) }
{
    let file = read_file(alloc, asked.name, input)?;
    add_file(alloc, asked.location, &file, keeper)?;
    write_line(output, b"imported ", file.head.owner.name.as_slice())
}

/// The account whose text is all of the input, under another name if there is one.
fn read_file<R: Read>(
    alloc: Global,
    name: Option<&str>,
    input: &mut R,
) -> Result<AccountFile, RunFault>
    ensures late { status_after result ≢ 64 }
    ensures read { IfOk result (λ file. IsImportEvent (option_copied name.entry) (R.remaining input.old) (machine.Import file)) }
    ensures end { OnOk result (IsAtEnd (R.remaining input.new)) }
    ensures reads { OnOk result (ReadsToEnd R.remaining input.old input.new) }
    ensures fault { IfErr result (IsNotRead (R.remaining input.old)) }
{
    let octets = read_all(alloc, input)?;
    let file = store_text::read_account_file(alloc, octets.as_slice())?;
    Ok(rename(alloc, name, file)?)
}

/// The account under another name, if there is one. Its name is nowhere else in it: addresses, scripts, moments of replies and mail
/// stay as they are.
fn rename(alloc: Global, name: Option<&str>, file: AccountFile) -> Result<AccountFile, AllocError>
    ensures head { IfOk result (λ renamed. renamed.head ≡ renamed_head (option_copied name.entry) file.head) }
    ensures parts { IfOk result (λ renamed. renamed.parts ≡ file.parts) }
{
    let Some(name) = name else {
        return Ok(file);
    };
    let AccountFile { head, parts } = file;
    let AccountHead { owner, numbers } = head;
    let owner = AccountOwner {
        name: Octets::from_slice(alloc, name.as_bytes())?,
        ..owner
    };
    Ok(AccountFile {
        head: AccountHead { owner, numbers },
        parts,
    })
}

/// Adds the account, in a store that is taken and handed back.
fn add_file<K: Keeper>(
    alloc: Global,
    location: StoreLocation<'_>,
    file: &AccountFile,
    keeper: &mut K,
) -> Result<(), RunFault>
    ensures late { status_after result ≢ 64 }
    ensures back { K.is_out keeper.old ≡ false → K.is_out keeper.new ≡ false }
    ensures puts { IsTrue K.tells → PutsInTables (HasDenied K.refuses K.will_wait location.entry) (machine.Import file.now)
        (λ done. Imported) result (across K.holds keeper.old keeper.new) }
    ensures given { OnOk result (HasGiven K.gives K.will_wait location.entry) }
{
    let mut store = take_store(location, false, keeper)?;
    let added = store_engine::import(alloc, &mut store, file);
    keeper.hand_back(store);
    Ok(added?)
}
