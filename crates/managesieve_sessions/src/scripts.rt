//! Answers the commands about scripts (RFC 5804, sections 2.5 to 2.12), and says what they change.
ghost use Rattle.std.specs.Prelude.{◌≡◌, ℕ, ◌++◌, Bool, None, Some, IfOk, IsTrue, MatchBool, nat_eq, map};
ghost use Rattle.std.specs.List.{list_any};
ghost use Rattle.std.specs.Cmp.Lexicographic.{pointwise};
ghost use Rattle.managesieve_protocol.specs.declared.commands.ClientCommand.TheVariants as command;
ghost use Rattle.sieve_lex.specs.Faults.{fault_line};
ghost use Rattle.store_accounts.specs.Account.{Account};
ghost use Rattle.managesieve_sessions.specs.Decisions.{AreNames, AreScripts, IsDecision};
ghost use Rattle.managesieve_sessions.specs.Replies as r;
ghost use Rattle.managesieve_sessions.specs.Scripts as s;
ghost use Rattle.managesieve_sessions.specs.CommandClasses.{of_named};

use crate::command_class::NamedCommand;
use crate::decision::{Decision, ScriptChange};
use crate::replies::{faulty, listed, negative_reply, ok_reply};
use crate::script_name::is_script_name;
use managesieve_protocol::{DataLine, ReplyCode, ServerReply};
use octets::{List, Octets, Texts};
use sieve_lex::{ScriptError, ScriptFault};
use sieve_syntax::check;
use std::alloc::{AllocError, Global};

/// The largest size of a script in octets: a limit of this project.
pub const MAX_SCRIPT: usize = 262_144;

/// The largest number of a user's scripts: a limit of this project.
pub const MAX_SCRIPTS: usize = 32;

/// Decides a command by the names of the account's scripts, in the order of their octets, and by which one is active.
///
/// Time is linear in the names, plus that of `check` for `PUTSCRIPT`. The names that are listed aren't copied. Lack of memory is
/// the only error.
pub fn decide_script_command<'a>(
    alloc: Global,
    names: Texts,
    active: Option<&[u8]>,
    command: &'a NamedCommand,
) -> Result<Decision<'a>, AllocError>
    ensures { IfOk result (IsDecision (AreScripts names (r.borrowed_text active.entry)) (of_named command.now)) }
{
    let there = names.as_slice();
    match command {
        NamedCommand::HaveSpace { name, size } => have_space(alloc, there, name.as_slice(), *size),
        NamedCommand::PutScript { name, script } => {
            put_script(alloc, there, name.as_slice(), script.as_slice())
        }
        NamedCommand::ListScripts => list_scripts(alloc, names, active),
        NamedCommand::SetActive(name) => set_active(alloc, there, name.as_slice()),
        NamedCommand::DeleteScript(name) => delete_script(alloc, there, active, name.as_slice()),
        NamedCommand::RenameScript { old, new } => {
            rename_script(alloc, there, old.as_slice(), new.as_slice())
        }
    }
}

/// `GETSCRIPT` (RFC 5804, 2.9), given the text of the script of that name, which isn't copied.
pub fn get_script(alloc: Global, text: Option<Octets>) -> Result<ServerReply, AllocError>
    ensures { IfOk result (λ reply. reply ≡ s.get_reply text) }
{
    let Some(text) = text else {
        return negative_reply(alloc, Some(ReplyCode::NonExistent), b"No such script.");
    };
    let mut lines = List::new(alloc);
    lines.push(DataLine::Text(text))?;
    Ok(listed(lines))
}

/// `CHECKSCRIPT` (RFC 5804, 2.12): looks at the size and the text, and at no account.
pub fn check_script(alloc: Global, script: &[u8]) -> Result<ServerReply, AllocError>
    ensures { IfOk result (s.RepliesToCheck script.now) }
{
    if script.len() > MAX_SCRIPT {
        return negative_reply(alloc, Some(ReplyCode::MaxSize), b"Script too large.");
    }
    if let Some(fault) = fault_in(alloc, script)? {
        return faulty(alloc, fault);
    }
    ok_reply(alloc, b"Valid.")
}

// `HAVESPACE` (RFC 5804, 2.5).
fn have_space<'a>(
    alloc: Global,
    names: &[Octets],
    name: &[u8],
    size: u32,
) -> Result<Decision<'a>, AllocError>
    ensures { IfOk result (IsDecision (AreNames names.now) (command.HaveSpace name.now size)) }
{
    if !is_script_name(name) {
        return refuse(alloc, None, b"Bad script name.");
    }
    if size as usize > MAX_SCRIPT {
        return refuse(alloc, Some(ReplyCode::MaxSize), b"Script too large.");
    }
    if !has_room(names, name) {
        return refuse(alloc, Some(ReplyCode::MaxScripts), b"Too many scripts.");
    }
    agree(alloc, b"Done.", None)
}

// `PUTSCRIPT` (RFC 5804, 2.6).
fn put_script<'a>(
    alloc: Global,
    names: &[Octets],
    name: &'a [u8],
    script: &'a [u8],
) -> Result<Decision<'a>, AllocError>
    ensures { IfOk result (IsDecision (AreNames names.now) (command.PutScript name.entry.now script.entry.now)) }
{
    if !is_script_name(name) {
        return refuse(alloc, None, b"Bad script name.");
    }
    if script.len() > MAX_SCRIPT {
        return refuse(alloc, Some(ReplyCode::MaxSize), b"Script too large.");
    }
    if !has_room(names, name) {
        return refuse(alloc, Some(ReplyCode::MaxScripts), b"Too many scripts.");
    }
    if let Some(fault) = fault_in(alloc, script)? {
        return tell(alloc, fault);
    }
    agree(alloc, b"Stored.", Some(ScriptChange::Put { name, script }))
}

// `LISTSCRIPTS` (RFC 5804, 2.7).
fn list_scripts<'a>(
    alloc: Global,
    names: Texts,
    active: Option<&[u8]>,
) -> Result<Decision<'a>, AllocError>
    ensures { IfOk result (IsDecision (AreScripts names (r.borrowed_text active.entry)) command.ListScripts) }
{
    let lines = lines_of(alloc, names, active)?;
    Ok(Decision {
        reply: listed(lines),
        change: None,
    })
}

fn lines_of(
    alloc: Global,
    names: Texts,
    active: Option<&[u8]>,
) -> Result<List<DataLine>, AllocError>
    ensures { IfOk result (λ lines. lines ≡ s.script_lines (r.borrowed_text active.entry) names) }
{
    let mut lines = List::from_vec(Vec::with_capacity(alloc, names.len())?);
    for name in names.into_vec() {
        let active = is_active(active, name.as_slice());
        lines.push(DataLine::Script { name, active })?;
    }
    Ok(lines)
}

// `SETACTIVE` (RFC 5804, 2.8): the empty name makes none active. A text that can't be a script's name is one that no script has.
fn set_active<'a>(
    alloc: Global,
    names: &[Octets],
    name: &'a [u8],
) -> Result<Decision<'a>, AllocError>
    ensures { IfOk result (IsDecision (AreNames names.now) (command.SetActive name.entry.now)) }
{
    if name.is_empty() {
        return agree(alloc, b"Done.", Some(ScriptChange::Activate(None)));
    }
    if !has_script(names, name) {
        return refuse(alloc, Some(ReplyCode::NonExistent), b"No such script.");
    }
    agree(alloc, b"Done.", Some(ScriptChange::Activate(Some(name))))
}

// `DELETESCRIPT` (RFC 5804, 2.10).
fn delete_script<'a>(
    alloc: Global,
    names: &[Octets],
    active: Option<&[u8]>,
    name: &'a [u8],
) -> Result<Decision<'a>, AllocError>
    ensures { IfOk result (IsDecision (AreScripts names.now (r.borrowed_text active.entry)) (command.DeleteScript name.entry.now)) }
{
    if !has_script(names, name) {
        return refuse(alloc, Some(ReplyCode::NonExistent), b"No such script.");
    }
    if is_active(active, name) {
        return refuse(alloc, Some(ReplyCode::Active), b"Script is active.");
    }
    agree(alloc, b"Done.", Some(ScriptChange::Delete(name)))
}

// `RENAMESCRIPT` (RFC 5804, 2.11).
fn rename_script<'a>(
    alloc: Global,
    names: &[Octets],
    old: &'a [u8],
    new: &'a [u8],
) -> Result<Decision<'a>, AllocError>
    ensures { IfOk result (IsDecision (AreNames names.now) (command.RenameScript old.entry.now new.entry.now)) }
{
    if !has_script(names, old) {
        return refuse(alloc, Some(ReplyCode::NonExistent), b"No such script.");
    }
    if !is_script_name(new) {
        return refuse(alloc, None, b"Bad script name.");
    }
    if has_script(names, new) {
        return refuse(alloc, Some(ReplyCode::AlreadyExists), b"Name is taken.");
    }
    agree(alloc, b"Done.", Some(ScriptChange::Rename { old, new }))
}

// `NO`, and nothing changes.
fn refuse<'a>(
    alloc: Global,
    code: Option<ReplyCode>,
    text: &[u8],
) -> Result<Decision<'a>, AllocError>
    ensures { IfOk result (λ decision. decision ≡ record { reply = r.negative_reply code text.now; change = None }) }
{
    Ok(Decision {
        reply: negative_reply(alloc, code, text)?,
        change: None,
    })
}

// `NO` and the fault, and nothing changes.
fn tell<'a>(alloc: Global, fault: ScriptFault) -> Result<Decision<'a>, AllocError>
    ensures { IfOk result (λ decision. decision ≡ record { reply = r.negative_reply None (fault_line fault.line fault.kind); change = None }) }
{
    Ok(Decision {
        reply: faulty(alloc, fault)?,
        change: None,
    })
}

// `OK`, and what changes.
fn agree<'a>(
    alloc: Global,
    text: &[u8],
    change: Option<ScriptChange<'a>>,
) -> Result<Decision<'a>, AllocError>
    ensures { IfOk result (λ decision. decision ≡ record { reply = r.ok_reply text.now; change = change.entry }) }
{
    Ok(Decision {
        reply: ok_reply(alloc, text)?,
        change,
    })
}

/// What is wrong with a text as a script, if anything. Lack of memory is the only error.
pub fn fault_in(alloc: Global, script: &[u8]) -> Result<Option<ScriptFault>, AllocError>
    ensures { IfOk result (s.IsVerdict script.now) }
{
    match check(alloc, script) {
        Ok(_) => Ok(None),
        Err(ScriptError::Fault(fault)) => Ok(Some(fault)),
        Err(ScriptError::Memory) => Err(AllocError),
    }
}

/// Whether a script of that name may be stored beside those that are there. Takes no memory.
pub fn has_room(names: &[Octets], name: &[u8]) -> bool
    ensures { (a : Account) → AreNames names.now a → MatchBool result (s.HasRoom a name.now) (s.HasRoom a name.now → ⊥) }
{
    has_script(names, name) || names.len() < MAX_SCRIPTS
}

// Whether a script has the name.
fn has_script(names: &[Octets], name: &[u8]) -> bool
    ensures { (a : Account) → AreNames names.now a → MatchBool result (s.HasScript a name.now) (s.HasScript a name.now → ⊥) }
{
    has_name(names, name)
}

fn has_name(names: &[Octets], name: &[u8]) -> bool
    ensures { result ≡ list_any (pointwise nat_eq name.now) names.now }
{
    names.iter().any(|there| name == there.as_slice())
}

// Whether the name is the active script's.
fn is_active(active: Option<&[u8]>, name: &[u8]) -> bool
    ensures { result ≡ s.is_active (r.borrowed_text active.entry) name.now }
{
    match active {
        Some(active) => active == name,
        None => false,
    }
}
