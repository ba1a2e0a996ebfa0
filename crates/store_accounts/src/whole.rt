//! An account that is written whole.
ghost use Rattle.std.specs.Prelude.{◌≡◌, ◌∷◌, ◌++◌, [], IfOk, IfErr, OnOk, option_copied};
ghost use Rattle.std.specs.FinMap.{empty, insert};
ghost use Rattle.sqlite.specs.Held.{state};
ghost use Rattle.store_text.specs.Text.{IsAccount};
ghost use Rattle.store_tables.specs.Changes.{active_set};
ghost use Rattle.store_accounts.specs.Delivery.{Pushes, moment_put};
ghost use Rattle.store_accounts.specs.Promises.{IsFree, WritesStore, WritesAccount};
ghost use Rattle.store_accounts.specs.Refusals.{IsTransient};
ghost use Rattle.store_accounts.specs.Whole.{whole, takes_whole, queued_kind as kind_by};
ghost use Rattle.store_accounts.specs.WholeRows.{script_put, mail_put, part_made, parts_made, part_over, parts_over, emptied_by, numbers_made, owner_made, head_made, account_made, IsMaking, PushesOver};

use crate::cell::number;
use crate::refusal::Refusal;
use crate::reply::latest;
use crate::store::Store;
use octets::Octets;
use sqlite::Alter;
use std::alloc::Global;
use store_tables::{Change, QueuedKind};
use store_text::{AccountHead, LetterKind, Part};

fn kind_of(kind: LetterKind) -> QueuedKind
    ensures { result ≡ kind_by kind }
{
    match kind {
        LetterKind::Redirect => QueuedKind::Redirect,
        LetterKind::Answer => QueuedKind::Reply,
    }
}

/// The script takes the place of one with its name.
fn push_script<'a>(
    changes: &mut Vec<Change<'a>>,
    user: &'a [u8],
    name: &'a [u8],
    text: &'a [u8],
) -> Result<(), Refusal>
    ensures made { Pushes user.now (script_put user.now name.now text.now) changes.old.items changes.new.items result }
    ensures named { IfErr result IsTransient }
{
    changes.push(Change::RemoveScript { owner: user, name })?;
    changes.push(Change::AddScript {
        owner: user,
        name,
        text,
    })?;
    Ok(())
}

/// The moment takes the place of one under its handle for its sender.
pub(crate) fn put_moment<'a>(
    changes: &mut Vec<Change<'a>>,
    user: &'a [u8],
    handle: &'a [u8],
    sender: &'a [u8],
    moment: u64,
) -> Result<(), Refusal>
    ensures made { Pushes user.now (moment_put user.now handle.now sender.now moment) changes.old.items changes.new.items result }
    ensures named { IfErr result IsTransient }
{
    changes.push(Change::RemoveReply {
        owner: user,
        handle,
        sender,
    })?;
    changes.push(Change::AddReply {
        owner: user,
        handle,
        sender,
        moment: number(moment)?,
    })?;
    Ok(())
}

/// The message is kept under the number of its first copy, which is in a folder and has these flags.
fn push_mail<'a>(
    changes: &mut Vec<Change<'a>>,
    user: &'a [u8],
    folder: &'a [u8],
    n: u64,
    message: &'a [u8],
    flags: &'a [u8],
) -> Result<(), Refusal>
    ensures made { Pushes user.now (mail_put user.now folder.now n message.now flags.now) changes.old.items changes.new.items result }
    ensures named { IfErr result IsTransient }
{
    let n = number(n)?;
    changes.push(Change::AddMessage {
        owner: user,
        id: n,
        bytes: message,
    })?;
    changes.push(Change::AddCopy {
        owner: user,
        folder,
        n,
        id: n,
        flags,
    })?;
    Ok(())
}

/// What a part makes.
fn push_part<'a>(
    changes: &mut Vec<Change<'a>>,
    user: &'a [u8],
    part: &'a Part,
) -> Result<(), Refusal>
    ensures made { Pushes user.now (part_made user.now part.now) changes.old.items changes.new.items result }
    ensures named { IfErr result IsTransient }
{
    match part {
        Part::Script { name, text } => {
            push_script(changes, user, name.as_slice(), text.as_slice())
        }
        Part::Reply {
            handle,
            sender,
            moment,
        } => put_moment(changes, user, handle.as_slice(), sender.as_slice(), *moment),
        Part::Mail {
            number,
            folder,
            message,
            flags,
        } => push_mail(
            changes,
            user,
            folder.as_slice(),
            *number,
            message.as_slice(),
            flags.as_slice(),
        ),
        Part::Copy {
            number: n,
            folder,
            first,
            flags,
        } => push_one(
            changes,
            Change::AddCopy {
                owner: user,
                folder: folder.as_slice(),
                n: number(*n)?,
                id: number(*first)?,
                flags: flags.as_slice(),
            },
        ),
        Part::Letter {
            id,
            kind,
            sender,
            target,
            message,
        } => push_one(
            changes,
            Change::AddOutgoing {
                owner: user,
                id: number(*id)?,
                kind: kind_of(*kind),
                sender: sender.as_slice(),
                target: target.as_slice(),
                message: message.as_slice(),
            },
        ),
        Part::Notice {
            number: id,
            moment,
            text,
        } => push_one(
            changes,
            Change::AddNotice {
                owner: user,
                id: number(*id)?,
                moment: number(*moment)?,
                text: text.as_slice(),
            },
        ),
    }
}

/// One change more.
fn push_one<'a>(changes: &mut Vec<Change<'a>>, change: Change<'a>) -> Result<(), Refusal>
    ensures pushed { OnOk result (changes.new.items ≡ changes.old.items ++ change.entry ∷ []) }
    ensures named { IfErr result IsTransient }
{
    changes.push(change)?;
    Ok(())
}

/// What all parts make.
fn push_parts<'a>(
    changes: &mut Vec<Change<'a>>,
    user: &'a [u8],
    parts: &'a [Part],
) -> Result<(), Refusal>
    ensures made { Pushes user.now (parts_made user.now parts.now) changes.old.items changes.new.items result }
    ensures named { IfErr result IsTransient }
{
    for part in parts {
        push_part(changes, user, part)?;
    }
    Ok(())
}

/// The account's row has this address and this password.
fn push_owner<'a>(changes: &mut Vec<Change<'a>>, head: &'a AccountHead) -> Result<(), Refusal>
    ensures made { Pushes head.now.owner.name (owner_made head.now) changes.old.items changes.new.items result }
    ensures named { IfErr result IsTransient }
{
    let name = head.owner.name.as_slice();
    changes.push(Change::SetAddress {
        name,
        address: head.owner.address.as_slice(),
    })?;
    changes.push(Change::SetPassword {
        name,
        salt: head.owner.salt.as_slice(),
        rounds: head.numbers.rounds,
        digest: head.owner.digest.as_slice(),
    })?;
    Ok(())
}

/// The account's row has what is had once.
fn push_head<'a>(changes: &mut Vec<Change<'a>>, head: &'a AccountHead) -> Result<(), Refusal>
    ensures made { Pushes head.now.owner.name (head_made head.now) changes.old.items changes.new.items result }
    ensures named { IfErr result IsTransient }
{
    push_owner(changes, head)?;
    push_counters(changes, head)?;
    let owner = &head.owner;
    push_active(changes, owner.name.as_slice(), owner.active.as_ref())
}

/// The script with the name is the active one, or none is.
fn push_active<'a>(
    changes: &mut Vec<Change<'a>>,
    user: &'a [u8],
    active: Option<&'a Octets>,
) -> Result<(), Refusal>
    ensures made { Pushes user.now (active_set user.now (option_copied active.entry)) changes.old.items changes.new.items result }
    ensures named { IfErr result IsTransient }
{
    let active = match active {
        Some(name) => Some(name.as_slice()),
        None => None,
    };
    push_one(changes, Change::SetActive { name: user, active })
}

fn push_counters<'a>(changes: &mut Vec<Change<'a>>, head: &'a AccountHead) -> Result<(), Refusal>
    ensures made { Pushes head.now.owner.name (numbers_made head.now) changes.old.items changes.new.items result }
    ensures named { IfErr result IsTransient }
{
    let numbers = head.numbers;
    push_one(
        changes,
        Change::SetCounters {
            name: head.owner.name.as_slice(),
            copy: number(numbers.next_copy)?,
            out: number(numbers.next_out)?,
            notice: number(numbers.next_notice)?,
        },
    )
}

/// What a new account has before its parts.
fn push_account<'a>(changes: &mut Vec<Change<'a>>, head: &'a AccountHead) -> Result<(), Refusal>
    ensures made { Pushes head.now.owner.name (account_made head.now) changes.old.items changes.new.items result }
    ensures named { IfErr result IsTransient }
{
    changes.push(Change::AddAccount {
        name: head.owner.name.as_slice(),
        address: head.owner.address.as_slice(),
        salt: head.owner.salt.as_slice(),
        rounds: head.numbers.rounds,
        digest: head.owner.digest.as_slice(),
    })?;
    Ok(())
}

/// Scripts, queue, notices, copies and messages go, and no script is active.
fn push_emptying<'a>(changes: &mut Vec<Change<'a>>, user: &'a [u8]) -> Result<(), Refusal>
    ensures made { Pushes user.now (emptied_by user.now) changes.old.items changes.new.items result }
    ensures named { IfErr result IsTransient }
{
    changes.push(Change::RemoveScripts { owner: user })?;
    changes.push(Change::RemoveQueue { owner: user })?;
    changes.push(Change::RemoveNotices { owner: user })?;
    changes.push(Change::RemoveCopies { owner: user })?;
    changes.push(Change::RemoveMessages { owner: user })?;
    changes.push(Change::SetActive {
        name: user,
        active: None,
    })?;
    Ok(())
}

/// All changes of a new account.
fn added<'a>(
    alloc: Global,
    head: &'a AccountHead,
    parts: &'a [Part],
) -> Result<Vec<Change<'a>>, Refusal>
    ensures made { IfOk result (λ changes. IsMaking head.now.owner.name (account_made head.now) head.now parts.now changes.items) }
    ensures named { IfErr result IsTransient }
{
    let mut changes = Vec::new(alloc);
    push_account(&mut changes, head)?;
    push_head(&mut changes, head)?;
    push_parts(&mut changes, head.owner.name.as_slice(), parts)?;
    Ok(changes)
}

impl<S: Alter> Store<S> {
    /// Adds the account of a text whole, under a name that no account has: its scripts, folders, queue, moments of replies, notices and
    /// numbers, all or nothing. It is open or closed as the text says. Time and memory are in proportion to it.
    ///
    /// # Errors
    ///
    /// `Memory`, `Store`.
    pub fn add_whole(&mut self, head: &AccountHead, parts: &[Part]) -> Result<(), Refusal>
        requires { IsAccount head.now parts.now }
        ensures { WritesStore (IsFree head.now.owner.name) (λ all. insert all head.now.owner.name (whole head.now parts.now empty)) (state S.Store self.old) (state S.Store self.new) result }
    {
        let changes = added(self.alloc, head, parts)?;
        self.apply(&changes)
    }

    /// Puts the account of a text in place of one that was entered. What that has goes, but for its moments of replies: of two under one
    /// handle for one sender the later one stays. All or nothing, as `add_whole`; for each moment of the text the one that is there is
    /// found by its key.
    ///
    /// # Errors
    ///
    /// `Memory`, `Store`.
    pub fn renew_whole(&mut self, head: &AccountHead, parts: &[Part]) -> Result<(), Refusal>
        requires { IsAccount head.now parts.now }
        ensures writes { WritesAccount head.now.owner.name (takes_whole head.now parts.now) (state S.Store self.old) (state S.Store self.new) result }
        ensures named { IfErr result IsTransient }
    {
        let user = head.owner.name.as_slice();
        let mut changes = Vec::new(self.alloc);
        push_emptying(&mut changes, user)?;
        push_head(&mut changes, head)?;
        self.push_parts_over(&mut changes, user, parts)?;
        self.apply(&changes)
    }

    /// What all parts make, over the moments that are kept.
    fn push_parts_over<'a>(
        &mut self,
        changes: &mut Vec<Change<'a>>,
        user: &'a [u8],
        parts: &'a [Part],
    ) -> Result<(), Refusal>
        ensures { PushesOver user.now (parts_over user.now parts.now) (state S.Store self.old) (state S.Store self.new) changes.old.items changes.new.items result }
    {
        for part in parts {
            self.push_over(changes, user, part)?;
        }
        Ok(())
    }

    /// What a part makes; of a moment and the one that is kept the later one.
    fn push_over<'a>(
        &mut self,
        changes: &mut Vec<Change<'a>>,
        user: &'a [u8],
        part: &'a Part,
    ) -> Result<(), Refusal>
        ensures { PushesOver user.now (part_over user.now part.now) (state S.Store self.old) (state S.Store self.new) changes.old.items changes.new.items result }
    {
        let Part::Reply {
            handle,
            sender,
            moment,
        } = part
        else {
            return push_part(changes, user, part);
        };
        let (handle, sender) = (handle.as_slice(), sender.as_slice());
        let kept = self.moment_of(user, handle, sender)?;
        put_moment(changes, user, handle, sender, latest(kept, *moment))
    }
}
