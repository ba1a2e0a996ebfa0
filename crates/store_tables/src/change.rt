//! Changes of rows, and a list of them in one transaction.
ghost use Rattle.std.specs.Prelude.{◌≡◌, false, OnOk, OnErr};
ghost use Rattle.sqlite.specs.Held.{state};
ghost use Rattle.store_tables.specs.Changes.{MakesAll, CrashLeavesTables, made_one};
ghost use Rattle.sqlite.specs.State.{Survives, HasCleanDisk};
ghost use Rattle.store_tables.specs.Connection.{ChangesRows, IsSettled, StaysSame};

use crate::account::{
    add_account, set_active, set_address, set_counters, set_password, set_rounds,
};
use crate::copy::{add_copy, remove_copies, remove_copy};
use crate::message::{add_message, remove_message, remove_messages};
use crate::notice::{add_notice, remove_early_notices, remove_notices};
use crate::queue::{QueuedKind, add_outgoing, remove_outgoing, remove_queue};
use crate::reply::{add_reply, remove_reply};
use crate::script::{add_script, remove_script, remove_scripts};
use sqlite::{Alter, Connection, Error, Transaction};

/// A change of one row by its key, or of all rows of an owner. Names, texts and messages are borrowed.
#[derive(Drop)]
pub enum Change<'a> {
    AddAccount {
        name: &'a [u8],
        address: &'a [u8],
        salt: &'a [u8],
        rounds: u32,
        digest: &'a [u8],
    },
    SetActive {
        name: &'a [u8],
        active: Option<&'a [u8]>,
    },
    SetCounters {
        name: &'a [u8],
        copy: i64,
        out: i64,
        notice: i64,
    },
    SetAddress {
        name: &'a [u8],
        address: &'a [u8],
    },
    SetPassword {
        name: &'a [u8],
        salt: &'a [u8],
        rounds: u32,
        digest: &'a [u8],
    },
    SetRounds {
        name: &'a [u8],
        rounds: u32,
    },
    AddScript {
        owner: &'a [u8],
        name: &'a [u8],
        text: &'a [u8],
    },
    RemoveScript {
        owner: &'a [u8],
        name: &'a [u8],
    },
    RemoveScripts {
        owner: &'a [u8],
    },
    AddMessage {
        owner: &'a [u8],
        id: i64,
        bytes: &'a [u8],
    },
    RemoveMessage {
        owner: &'a [u8],
        id: i64,
    },
    RemoveMessages {
        owner: &'a [u8],
    },
    AddCopy {
        owner: &'a [u8],
        folder: &'a [u8],
        n: i64,
        id: i64,
        flags: &'a [u8],
    },
    RemoveCopy {
        owner: &'a [u8],
        folder: &'a [u8],
        n: i64,
    },
    RemoveCopies {
        owner: &'a [u8],
    },
    AddOutgoing {
        owner: &'a [u8],
        id: i64,
        kind: QueuedKind,
        sender: &'a [u8],
        target: &'a [u8],
        message: &'a [u8],
    },
    RemoveOutgoing {
        owner: &'a [u8],
        id: i64,
    },
    RemoveQueue {
        owner: &'a [u8],
    },
    AddReply {
        owner: &'a [u8],
        handle: &'a [u8],
        sender: &'a [u8],
        moment: i64,
    },
    RemoveReply {
        owner: &'a [u8],
        handle: &'a [u8],
        sender: &'a [u8],
    },
    AddNotice {
        owner: &'a [u8],
        id: i64,
        moment: i64,
        text: &'a [u8],
    },
    RemoveNotices {
        owner: &'a [u8],
    },
    RemoveEarlyNotices {
        owner: &'a [u8],
        until: i64,
    },
}

/// Makes the change, inside a transaction.
fn make<S: Alter>(tx: &mut Transaction<'_, S>, change: &Change<'_>) -> Result<(), Error>
    ensures { ChangesRows S.Store (made_one change.now) tx.old tx.new result }
{
    match *change {
        Change::AddAccount {
            name,
            address,
            salt,
            rounds,
            digest,
        } => add_account(tx, name, address, salt, rounds, digest),
        Change::SetActive { name, active } => set_active(tx, name, active),
        Change::SetCounters {
            name,
            ref copy,
            ref out,
            ref notice,
        } => set_counters(tx, name, copy, out, notice),
        Change::SetAddress { name, address } => set_address(tx, name, address),
        Change::SetPassword {
            name,
            salt,
            rounds,
            digest,
        } => set_password(tx, name, salt, rounds, digest),
        Change::SetRounds { name, rounds } => set_rounds(tx, name, rounds),
        Change::AddScript { owner, name, text } => add_script(tx, owner, name, text),
        Change::RemoveScript { owner, name } => remove_script(tx, owner, name),
        Change::RemoveScripts { owner } => remove_scripts(tx, owner),
        Change::AddMessage {
            owner,
            ref id,
            bytes,
        } => add_message(tx, owner, id, bytes),
        Change::RemoveMessage { owner, ref id } => remove_message(tx, owner, id),
        Change::RemoveMessages { owner } => remove_messages(tx, owner),
        Change::AddCopy {
            owner,
            folder,
            ref n,
            ref id,
            flags,
        } => add_copy(tx, owner, folder, n, id, flags),
        Change::RemoveCopy {
            owner,
            folder,
            ref n,
        } => remove_copy(tx, owner, folder, n),
        Change::RemoveCopies { owner } => remove_copies(tx, owner),
        Change::AddOutgoing {
            owner,
            ref id,
            kind,
            sender,
            target,
            message,
        } => add_outgoing(tx, owner, id, kind, sender, target, message),
        Change::RemoveOutgoing { owner, ref id } => remove_outgoing(tx, owner, id),
        Change::RemoveQueue { owner } => remove_queue(tx, owner),
        Change::AddReply {
            owner,
            handle,
            sender,
            ref moment,
        } => add_reply(tx, owner, handle, sender, moment),
        Change::RemoveReply {
            owner,
            handle,
            sender,
        } => remove_reply(tx, owner, handle, sender),
        Change::AddNotice {
            owner,
            ref id,
            ref moment,
            text,
        } => add_notice(tx, owner, id, moment, text),
        Change::RemoveNotices { owner } => remove_notices(tx, owner),
        Change::RemoveEarlyNotices { owner, ref until } => {
            remove_early_notices(tx, owner, until)
        }
    }
}

/// Makes the changes in order, in one transaction: all of them, or none.
pub fn make_all<S: Alter>(conn: &mut Connection<S>, changes: &[Change<'_>]) -> Result<(), Error>
    requires { conn.old.in_transaction ≡ false }
    ensures ended { conn.new.in_transaction ≡ false }
    ensures made { MakesAll changes.now (state S.Store conn.old) (state S.Store conn.new) result }
    ensures settled { HasCleanDisk (state S.Store conn.new) → OnOk result (IsSettled (state S.Store conn.new)) }
    ensures same { HasCleanDisk (state S.Store conn.new) → OnErr result (StaysSame (state S.Store conn.old) (state S.Store conn.new)) }
    ensures crash { Survives (state S.Store conn.old) (state S.Store conn.new) (CrashLeavesTables changes.now (state S.Store conn.old)) }
{
    let _settled = conn.is_autocommit();
    let mut tx = conn.transaction();
    for change in changes {
        make(&mut tx, change)?;
    }
    tx.commit()
}
