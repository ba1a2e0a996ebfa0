//! The subcommands that change which scripts a user has, what they are called, and which one is active: each is one event of the
//! engine.
ghost use Rattle.std.specs.Prelude.{◌≡◌, ◌≢◌, ◌++◌, false, IsTrue, OnOk};
ghost use Rattle.store_engine.specs.Hosts.{answer_of};
ghost use Rattle.store_engine.specs.declared.script_edit.ScriptEdit.TheVariants as edit;
ghost use Rattle.cli_run.specs.Draining.{TurnsTables};
ghost use Rattle.cli_run.specs.EditReports.{IsEditedBy, edit_text, objection_fault};
ghost use Rattle.cli_run.specs.Promise.{status_after};
ghost use Rattle.cli_run.specs.Serving.{HasDenied, HasGiven};
ghost use Rattle.cli_run.specs.Subcommands.{DoesEdit, PutsEdit};
ghost use Rattle.cli_run.specs.Transitions.{across};

use crate::commands::take_store;
use crate::fault::RunFault;
use crate::stream::write_line;
use cli_subcommands::{ActivateArgs, DeactivateArgs, DeleteArgs, RenameArgs, StoreLocation};
use octets::Octets;
use std::alloc::Global;
use std::io::Write;
use store_accounts::Refusal;
use store_engine::{Answer, ScriptEdit, ScriptObjection, Upkeep, do_upkeep};
use store_lock::Keeper;

/// `activate`: the script is the active one.
pub fn run_activate<W: Write, K: Keeper>(
    alloc: Global,
    asked: ActivateArgs<'_>,
    output: &mut W,
    keeper: &mut K,
) -> Result<(), RunFault>
    ensures late { status_after result ≢ 64 }
    ensures back { K.is_out keeper.old ≡ false → K.is_out keeper.new ≡ false }
    ensures does { IsTrue K.tells → DoesEdit (HasDenied K.refuses K.will_wait asked.entry.location) asked.entry.user.now
        (edit.Activate asked.entry.script.now) (across W.contents output.old output.new) result
        (across K.holds keeper.old keeper.new) }
    ensures given { OnOk result (HasGiven K.gives K.will_wait asked.entry.location) }
{
    let name = Octets::from_slice(alloc, asked.script.as_bytes())?;
    let edit = ScriptEdit::Activate(name);
    let user = asked.user.as_bytes();
    let told = asked.script.as_bytes();
    edit_and_tell(
        alloc,
        asked.location,
        user,
        edit,
        b"activated ",
        told,
        output,
        keeper,
    )
}

/// `deactivate`: no script is active.
pub fn run_deactivate<W: Write, K: Keeper>(
    alloc: Global,
    asked: DeactivateArgs<'_>,
    output: &mut W,
    keeper: &mut K,
) -> Result<(), RunFault>
    ensures late { status_after result ≢ 64 }
    ensures back { K.is_out keeper.old ≡ false → K.is_out keeper.new ≡ false }
    ensures does { IsTrue K.tells → DoesEdit (HasDenied K.refuses K.will_wait asked.entry.location) asked.entry.user.now
        edit.Deactivate (across W.contents output.old output.new) result (across K.holds keeper.old keeper.new) }
    ensures given { OnOk result (HasGiven K.gives K.will_wait asked.entry.location) }
{
    let edit = ScriptEdit::Deactivate;
    let user = asked.user.as_bytes();
    edit_and_tell(
        alloc,
        asked.location,
        user,
        edit,
        b"deactivated ",
        user,
        output,
        keeper,
    )
}

/// `delete`: the script is gone, unless it is the active one.
pub fn run_delete<W: Write, K: Keeper>(
    alloc: Global,
    asked: DeleteArgs<'_>,
    output: &mut W,
    keeper: &mut K,
) -> Result<(), RunFault>
    ensures late { status_after result ≢ 64 }
    ensures back { K.is_out keeper.old ≡ false → K.is_out keeper.new ≡ false }
    ensures does { IsTrue K.tells → DoesEdit (HasDenied K.refuses K.will_wait asked.entry.location) asked.entry.user.now
        (edit.Delete asked.entry.script.now) (across W.contents output.old output.new) result
        (across K.holds keeper.old keeper.new) }
    ensures given { OnOk result (HasGiven K.gives K.will_wait asked.entry.location) }
{
    let name = Octets::from_slice(alloc, asked.script.as_bytes())?;
    let edit = ScriptEdit::Delete(name);
    let user = asked.user.as_bytes();
    let told = asked.script.as_bytes();
    edit_and_tell(
        alloc,
        asked.location,
        user,
        edit,
        b"deleted ",
        told,
        output,
        keeper,
    )
}

/// `rename`: the script has another name, which no script had.
pub fn run_rename<W: Write, K: Keeper>(
    alloc: Global,
    asked: RenameArgs<'_>,
    output: &mut W,
    keeper: &mut K,
) -> Result<(), RunFault>
    ensures late { status_after result ≢ 64 }
    ensures back { K.is_out keeper.old ≡ false → K.is_out keeper.new ≡ false }
    ensures does { IsTrue K.tells → DoesEdit (HasDenied K.refuses K.will_wait asked.entry.location) asked.entry.user.now
        (edit.Rename asked.entry.script.now asked.entry.new_name.now) (across W.contents output.old output.new) result
        (across K.holds keeper.old keeper.new) }
    ensures given { OnOk result (HasGiven K.gives K.will_wait asked.entry.location) }
{
    let name = Octets::from_slice(alloc, asked.script.as_bytes())?;
    let other = Octets::from_slice(alloc, asked.new_name.as_bytes())?;
    let edit = ScriptEdit::Rename { name, other };
    let user = asked.user.as_bytes();
    let told = asked.new_name.as_bytes();
    edit_and_tell(
        alloc,
        asked.location,
        user,
        edit,
        b"renamed ",
        told,
        output,
        keeper,
    )
}

/// Makes the change, and then prints these two as a line.
fn edit_and_tell<W: Write, K: Keeper>(
    alloc: Global,
    location: StoreLocation<'_>,
    user: &[u8],
    edit: ScriptEdit,
    word: &[u8],
    what: &[u8],
    output: &mut W,
    keeper: &mut K,
) -> Result<(), RunFault>
    requires told { edit_text user.now edit ≡ word.now ++ what.now }
    ensures late { status_after result ≢ 64 }
    ensures back { K.is_out keeper.old ≡ false → K.is_out keeper.new ≡ false }
    ensures does { IsTrue K.tells → DoesEdit (HasDenied K.refuses K.will_wait location.entry) user.now edit
        (across W.contents output.old output.new) result (across K.holds keeper.old keeper.new) }
    ensures given { OnOk result (HasGiven K.gives K.will_wait location.entry) }
{
    edit_in_store(alloc, location, user, edit, keeper)?;
    write_line(output, word, what)
}

/// Makes the change, in a store that is taken and handed back. `Ok` says that it was made.
fn edit_in_store<K: Keeper>(
    alloc: Global,
    location: StoreLocation<'_>,
    user: &[u8],
    edit: ScriptEdit,
    keeper: &mut K,
) -> Result<(), RunFault>
    ensures late { status_after result ≢ 64 }
    ensures back { K.is_out keeper.old ≡ false → K.is_out keeper.new ≡ false }
    ensures puts { IsTrue K.tells → TurnsTables (PutsEdit (HasDenied K.refuses K.will_wait location.entry) user.now edit result)
        (K.holds keeper.old) (K.holds keeper.new) }
    ensures given { OnOk result (HasGiven K.gives K.will_wait location.entry) }
{
    let upkeep = Upkeep::EditScripts(edit);
    let mut store = take_store(location, false, keeper)?;
    let kept = do_upkeep(alloc, &mut store, user, &upkeep);
    keeper.hand_back(store);
    edited_by(kept)
}

/// Whether it was made: what stands against it, or a refusal of the engine, is the fault.
fn edited_by(kept: Result<Answer, Refusal>) -> Result<(), RunFault>
    ensures edited { IsEditedBy (answer_of kept) result }
    ensures late { status_after result ≢ 64 }
{
    match kept {
        Ok(Answer::Refused(refusal)) => Err(RunFault::Refused(refusal)),
        Ok(Answer::Objected(objection)) => Err(fault_of(objection)),
        Ok(_) => Ok(()),
        Err(refusal) => Err(RunFault::Refused(refusal)),
    }
}

/// How what stands against a change is reported.
fn fault_of(objection: ScriptObjection) -> RunFault
    ensures { result ≡ objection_fault objection }
{
    match objection {
        ScriptObjection::NoScript => RunFault::NoScript,
        ScriptObjection::IsActive => RunFault::ScriptActive,
        ScriptObjection::NameTaken => RunFault::ScriptExists,
    }
}
