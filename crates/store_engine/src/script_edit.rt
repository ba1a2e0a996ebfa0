//! Changes what scripts a user has and which one is active, for an administrator.
ghost use Rattle.std.specs.Prelude.{◌≡◌, MatchBool, nat_eq};
ghost use Rattle.std.specs.Cmp.Lexicographic.{pointwise};
ghost use Rattle.std.specs.List.{list_any};
ghost use Rattle.sqlite.specs.Held.{state};
ghost use Rattle.managesieve_sessions.specs.Decisions.{AreNames, AreScripts};
ghost use Rattle.managesieve_sessions.specs.Scripts as scripts;
ghost use Rattle.store_accounts.specs.Account.{Account, renames_script};
ghost use Rattle.store_accounts.specs.Refusals.{IsTransient};
ghost use Rattle.store_engine.specs.declared.script_edit.ScriptEdit.TheVariants as edit;
ghost use Rattle.store_engine.specs.declared.upkeep.Upkeep.TheVariants as upkeep;
ghost use Rattle.store_engine.specs.Hosts.{ActsKeeping};
ghost use Rattle.store_engine.specs.ScriptEdits as edits;
ghost use Rattle.store_engine.specs.ScriptEdits.{GivesScriptName, WritesFound, edited, objection_to};

use crate::account::{NamedScripts, named_scripts};
use crate::answer::Answer;
use managesieve_sessions::script_name::is_script_name;
use octets::Octets;
use sqlite::Alter;
use store_accounts::{Refusal, Store};

/// A change of what scripts a user has, or of which one is active. No text changes.
#[derive(Drop)]
pub enum ScriptEdit {
    /// The script of this name is the active one, as SETACTIVE has it (RFC 5804, 2.8).
    Activate(Octets),
    /// None is active, as SETACTIVE with the empty name has it (RFC 5804, 2.8).
    Deactivate,
    /// The script of this name is gone, as DELETESCRIPT has it (RFC 5804, 2.10).
    Delete(Octets),
    /// The script has another name, as RENAMESCRIPT has it (RFC 5804, 2.11); it stays active if it was.
    Rename {
        /// The script's name as it is.
        name: Octets,
        /// The name that it gets.
        other: Octets,
    },
}

/// What stands against a change: the scripts stay as they are.
#[derive(Clone, Copy, Debug, PartialEq, Eq)]
pub enum ScriptObjection {
    /// No script has the name.
    NoScript,
    /// The script is the active one, which is not deleted (RFC 5804, 2.10).
    IsActive,
    /// A script has the new name already.
    NameTaken,
}

/// Makes the change, in at most one transaction, which is the last step. Memory is in proportion to the names of the scripts, and to
/// the text of one that is renamed.
///
/// # Errors
///
/// As [`do_upkeep`](crate::do_upkeep): [`Refusal::BadScriptName`] for a new name that no script may have, before the store is asked;
/// then [`Refusal::NoUser`] without an open account. What stands against the change is no error: [`Answer::Objected`].
pub(crate) fn edit_scripts<S: Alter>(
    store: &mut Store<S>,
    user: &[u8],
    edit: &ScriptEdit,
) -> Result<Answer, Refusal>
    ensures { ActsKeeping user.now (upkeep.EditScripts edit.now) (state S.Store store.old) (state S.Store store.new) result }
{
    if !gives_script_name(edit) {
        return Err(Refusal::BadScriptName);
    }
    let scripts = named_scripts(store, user)?;
    if let Some(objection) = objection(&scripts, edit) {
        return Ok(Answer::Objected(objection));
    }
    let made = make(store, user, edit);
    made.and(Ok(Answer::Edited))
}

/// Whether a name that a script gets by the change is one that scripts may have.
fn gives_script_name(edit: &ScriptEdit) -> bool
    ensures { MatchBool result (GivesScriptName edit.now) (GivesScriptName edit.now → ⊥) }
{
    match edit {
        ScriptEdit::Activate(_) | ScriptEdit::Deactivate | ScriptEdit::Delete(_) => true,
        ScriptEdit::Rename { other, .. } => is_script_name(other.as_slice()),
    }
}

/// What stands against the change, by the names of the scripts and by which one is active. Takes no memory.
fn objection(there: &NamedScripts, edit: &ScriptEdit) -> Option<ScriptObjection>
    ensures { (a : Account) → AreScripts there.now.names there.now.active a → result ≡ objection_to edit.now a }
{
    let names = there.names.as_slice();
    match edit {
        ScriptEdit::Activate(name) => absence(names, name.as_slice()),
        ScriptEdit::Deactivate => None,
        ScriptEdit::Delete(name) => objection_to_deletion(names, &there.active, name.as_slice()),
        ScriptEdit::Rename { name, other } => {
            objection_to_name(names, name.as_slice(), other.as_slice())
        }
    }
}

/// That no script has the name, if none has it.
fn absence(names: &[Octets], name: &[u8]) -> Option<ScriptObjection>
    ensures { (a : Account) → AreNames names.now a → result ≡ objection_to (edit.Activate name.now) a }
{
    if has_script(names, name) {
        return None;
    }
    Some(ScriptObjection::NoScript)
}

/// What stands against the deletion of a script.
fn objection_to_deletion(
    names: &[Octets],
    active: &Option<Octets>,
    name: &[u8],
) -> Option<ScriptObjection>
    ensures { (a : Account) → AreScripts names.now active.now a → result ≡ objection_to (edit.Delete name.now) a }
{
    if !has_script(names, name) {
        return Some(ScriptObjection::NoScript);
    }
    if is_active(active, name) {
        return Some(ScriptObjection::IsActive);
    }
    None
}

/// What stands against another name for a script.
fn objection_to_name(names: &[Octets], name: &[u8], other: &[u8]) -> Option<ScriptObjection>
    ensures { (a : Account) → AreNames names.now a → result ≡ objection_to (edit.Rename name.now other.now) a }
{
    if !has_script(names, name) {
        return Some(ScriptObjection::NoScript);
    }
    if has_script(names, other) {
        return Some(ScriptObjection::NameTaken);
    }
    None
}

/// Whether a script has the name.
fn has_script(names: &[Octets], name: &[u8]) -> bool
    ensures { (a : Account) → AreNames names.now a → result ≡ edits.has_script a name.now }
{
    has_name(names, name)
}

fn has_name(names: &[Octets], name: &[u8]) -> bool
    ensures { result ≡ list_any (pointwise nat_eq name.now) names.now }
{
    names.iter().any(|there| name == there.as_slice())
}

/// Whether the name is the active script's.
fn is_active(active: &Option<Octets>, name: &[u8]) -> bool
    ensures { result ≡ scripts.is_active active.now name.now }
{
    match active {
        Some(active) => active.as_slice() == name,
        None => false,
    }
}

/// Writes the change, in one transaction.
fn make<S: Alter>(store: &mut Store<S>, user: &[u8], edit: &ScriptEdit) -> Result<(), Refusal>
    ensures { WritesFound user.now (edited edit.now) (state S.Store store.old) (state S.Store store.new) result }
{
    match edit {
        ScriptEdit::Activate(name) => store.set_active(user, Some(name.as_slice())),
        ScriptEdit::Deactivate => store.set_active(user, None),
        ScriptEdit::Delete(name) => store.delete(user, name.as_slice()),
        ScriptEdit::Rename { name, other } => {
            rename(store, user, name.as_slice(), other.as_slice())
        }
    }
}

/// Gives a script another name, in an account that was found open.
fn rename<S: Alter>(
    store: &mut Store<S>,
    user: &[u8],
    name: &[u8],
    other: &[u8],
) -> Result<(), Refusal>
    ensures { WritesFound user.now (renames_script name.now other.now) (state S.Store store.old) (state S.Store store.new) result }
{
    match store.rename(user, name, other) {
        Ok(()) => Ok(()),
        Err(refusal) => Err(unforeseen(refusal)),
    }
}

/// A refusal after the account was found: lack of memory stays, any other is `Store`, since the account was there a moment ago.
fn unforeseen(refusal: Refusal) -> Refusal
    ensures { IsTransient result }
{
    match refusal {
        Refusal::Memory => Refusal::Memory,
        _ => Refusal::Store,
    }
}
