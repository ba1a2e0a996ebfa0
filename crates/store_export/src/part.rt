//! One part of an account.
ghost use Rattle.std.specs.Prelude.{◌≡◌, ◌<◌, length, true, Some, option_map, IfOk, IfErr};
ghost use Rattle.sqlite.specs.Held.{state};
ghost use Rattle.store_text.specs.declared.part.Part.{Part};
ghost use Rattle.store_tables.specs.declared.queue.QueuedKind.{QueuedKind};
ghost use Rattle.store_accounts.specs.Refusals.{IsTransient};
ghost use Rattle.store_export.specs.Parts.{letter_part, way_of as way_by};
ghost use Rattle.store_export.specs.Reading.{ReadsNextPart};
ghost use Rattle.store_export.specs.Saying.{ReadsPlace};

use crate::contents::Contents;
use crate::place::PartPlace;
use octets::Octets;
use sqlite::Alter;
use std::alloc::Global;
use store_accounts::{Filing, Notice, QueuedKind, QueuedMessage, Refusal, ReplyKey, Store};
use store_text::{LetterKind, Part, may_have};

/// Reads the part at a place, in an account whose contents were listed and that hasn't changed since.
///
/// One row is found by its key, two for a message in a folder; no other text is read. Memory is in proportion to the part.
///
/// # Errors
///
/// `Memory`; `Store`, also if the part isn't there, or if no text can have it: a moment is past 2^63 - 1.
pub fn read_part<S: Alter>(
    alloc: Global,
    store: &mut Store<S>,
    contents: &Contents,
    at: usize,
) -> Result<Part, Refusal>
    requires { at < length contents.now.places }
    ensures { ReadsNextPart contents.now at (state S.Store store.old) (state S.Store store.new) result }
{
    let user = contents.head.owner.name.as_slice();
    let part = part_at(alloc, store, user, &contents.places.as_slice()[at])?;
    if !may_have(contents.head.numbers, &part) {
        return Err(Refusal::Store);
    }
    Ok(part)
}

/// The part of the account that was entered at the place.
fn part_at<S: Alter>(
    alloc: Global,
    store: &mut Store<S>,
    user: &[u8],
    place: &PartPlace,
) -> Result<Part, Refusal>
    ensures { ReadsPlace user.now place.now (state S.Store store.old) (state S.Store store.new) result }
{
    match place {
        PartPlace::Script(name) => read_script(alloc, store, user, name),
        PartPlace::Reply(key) => read_reply(alloc, store, user, key),
        PartPlace::Mail(copy) => read_mail(alloc, store, user, copy),
        PartPlace::Copy { copy, first } => read_copy(alloc, store, user, copy, *first),
        PartPlace::Letter(id) => read_letter(store, user, *id),
        PartPlace::Notice(number) => read_notice(store, user, *number),
    }
}

fn read_script<S: Alter>(
    alloc: Global,
    store: &mut Store<S>,
    user: &[u8],
    name: &Octets,
) -> Result<Part, Refusal>
    ensures { ReadsPlace user.now (PartPlace.Script name.now) (state S.Store store.old) (state S.Store store.new) result }
{
    let text = store.script_of(user, name.as_slice())?;
    script(alloc, name, text)
}

fn read_reply<S: Alter>(
    alloc: Global,
    store: &mut Store<S>,
    user: &[u8],
    key: &ReplyKey,
) -> Result<Part, Refusal>
    ensures { ReadsPlace user.now (PartPlace.Reply key.now) (state S.Store store.old) (state S.Store store.new) result }
{
    let moment = store.moment_of(user, key.handle.as_slice(), key.sender.as_slice())?;
    reply(alloc, key, moment)
}

fn read_mail<S: Alter>(
    alloc: Global,
    store: &mut Store<S>,
    user: &[u8],
    copy: &Filing,
) -> Result<Part, Refusal>
    ensures { ReadsPlace user.now (PartPlace.Mail copy.now) (state S.Store store.old) (state S.Store store.new) result }
{
    let message = store.message_of(user, copy.id)?;
    mail(alloc, copy, message)
}

/// A copy after another one of the same message, which is there.
fn read_copy<S: Alter>(
    alloc: Global,
    store: &mut Store<S>,
    user: &[u8],
    copy: &Filing,
    first: u64,
) -> Result<Part, Refusal>
    ensures { ReadsPlace user.now (PartPlace.Copy copy.now first) (state S.Store store.old) (state S.Store store.new) result }
{
    let is_shared = store.has_other_copy(user, copy)?;
    copy_behind(alloc, copy, first, is_shared)
}

fn read_letter<S: Alter>(store: &mut Store<S>, user: &[u8], id: u64) -> Result<Part, Refusal>
    ensures { ReadsPlace user.now (PartPlace.Letter id) (state S.Store store.old) (state S.Store store.new) result }
{
    let row = store.outgoing_of(user, id)?;
    letter(row)
}

fn read_notice<S: Alter>(store: &mut Store<S>, user: &[u8], number: u64) -> Result<Part, Refusal>
    ensures { ReadsPlace user.now (PartPlace.Notice number) (state S.Store store.old) (state S.Store store.new) result }
{
    let found = store.notice_of(user, number)?;
    notice(number, found)
}

fn script(alloc: Global, name: &Octets, text: Option<Octets>) -> Result<Part, Refusal>
    ensures made { IfOk result (λ part. Some part ≡ option_map (Part.Script name.now) text) }
    ensures named { IfErr result IsTransient }
{
    let Some(text) = text else {
        return Err(Refusal::Store);
    };
    Ok(Part::Script {
        name: name.try_clone(alloc)?,
        text,
    })
}

fn reply(alloc: Global, key: &ReplyKey, moment: Option<u64>) -> Result<Part, Refusal>
    ensures made { IfOk result (λ part. Some part ≡ option_map (Part.Reply key.now.handle key.now.sender) moment) }
    ensures named { IfErr result IsTransient }
{
    let Some(moment) = moment else {
        return Err(Refusal::Store);
    };
    Ok(Part::Reply {
        handle: key.handle.try_clone(alloc)?,
        sender: key.sender.try_clone(alloc)?,
        moment,
    })
}

fn mail(alloc: Global, copy: &Filing, message: Octets) -> Result<Part, Refusal>
    ensures made { IfOk result (λ part. part ≡ Part.Mail copy.now.n copy.now.folder message copy.now.flags) }
    ensures named { IfErr result IsTransient }
{
    Ok(Part::Mail {
        number: copy.n,
        folder: copy.folder.try_clone(alloc)?,
        message,
        flags: copy.flags.try_clone(alloc)?,
    })
}

/// A copy after another one; without another one it is refused.
fn copy_behind(alloc: Global, copy: &Filing, first: u64, is_shared: bool) -> Result<Part, Refusal>
    ensures made { IfOk result (λ part. part ≡ Part.Copy copy.now.n copy.now.folder first copy.now.flags) }
    ensures named { IfErr result IsTransient }
{
    if !is_shared {
        return Err(Refusal::Store);
    }
    Ok(Part::Copy {
        number: copy.n,
        folder: copy.folder.try_clone(alloc)?,
        first,
        flags: copy.flags.try_clone(alloc)?,
    })
}

fn letter(row: Option<QueuedMessage>) -> Result<Part, Refusal>
    ensures made { IfOk result (λ part. Some part ≡ option_map letter_part row) }
    ensures named { IfErr result IsTransient }
{
    let Some(row) = row else {
        return Err(Refusal::Store);
    };
    Ok(Part::Letter {
        id: row.id,
        kind: way_of(row.kind),
        sender: row.sender,
        target: row.target,
        message: row.message,
    })
}

fn way_of(kind: QueuedKind) -> LetterKind
    ensures { result ≡ way_by kind }
{
    match kind {
        QueuedKind::Redirect => LetterKind::Redirect,
        QueuedKind::Reply => LetterKind::Answer,
    }
}

fn notice(number: u64, found: Option<Notice>) -> Result<Part, Refusal>
    ensures made { IfOk result (λ part. Some part ≡ option_map (λ e. Part.Notice number e.moment e.text) found) }
    ensures named { IfErr result IsTransient }
{
    let Some(found) = found else {
        return Err(Refusal::Store);
    };
    Ok(Part::Notice {
        number,
        moment: found.moment,
        text: found.text,
    })
}
