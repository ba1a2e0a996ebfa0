//! Messages that move together.
ghost use Rattle.std.specs.Prelude.{◌≡◌, ◌+◌, ◌++◌, ◌∷◌, [], ℕ, ◌<◌, List, drop, length, nat_le, take, IsTrue, IfOk, OnErr, OnOk};
ghost use Rattle.maildir_files.specs.Kept.{StaysPlaced, StaysTrue};
ghost use Rattle.maildir_moves.specs.Relying.{PutsOnly, StaysUnderway};
ghost use Rattle.maildir_moves.specs.Steps.{cut_batch, is_batch_of};

use maildir_files::{MailSink, SinkError};
use octets::{List, Octets};
use std::alloc::{AllocError, Global};
use store_accounts::NumberedMessage;

/// Messages of one folder of a user, in order, that move together.
#[derive(Drop)]
pub struct MailBatch {
    pub user: Octets,
    pub folder: Octets,
    pub mails: List<NumberedMessage>,
}

impl MailBatch {
    /// Whether it is of this folder.
    pub fn is_of(&self, user: &[u8], folder: &[u8]) -> bool
        ensures { result ≡ is_batch_of user.now folder.now self.now }
    {
        self.user.as_slice() == user && self.folder.as_slice() == folder
    }

    pub fn try_clone(&self, alloc: Global) -> Result<MailBatch, AllocError>
        ensures { IfOk result (λ copy. copy ≡ self.now) }
    {
        Ok(MailBatch {
            user: self.user.try_clone(alloc)?,
            folder: self.folder.try_clone(alloc)?,
            mails: copy_mails(alloc, self.mails.as_slice())?,
        })
    }

    /// Its first messages, so many.
    pub fn front(self, count: usize) -> MailBatch
        ensures { result ≡ record self { mails = take count self.mails } }
    {
        let MailBatch {
            user,
            folder,
            mails,
        } = self;
        let mut left = mails.into_vec();
        left.truncate(count);
        MailBatch {
            user,
            folder,
            mails: List::from_vec(left),
        }
    }

    /// Without its first messages, so many.
    pub fn behind(self, count: usize) -> MailBatch
        ensures { result ≡ record self { mails = drop count self.mails } }
    {
        let MailBatch {
            user,
            folder,
            mails,
        } = self;
        MailBatch {
            user,
            folder,
            mails: mails_behind(mails, count),
        }
    }
}

/// The messages after the first ones, so many.
fn mails_behind(mails: List<NumberedMessage>, count: usize) -> List<NumberedMessage>
    ensures { result ≡ drop count mails }
{
    let mut left = mails.into_vec();
    for _gone in 0..count.min(left.len()) {
        drop(left.remove(0));
    }
    List::from_vec(left)
}

/// A copy of messages, in order.
fn copy_mails(alloc: Global, mails: &[NumberedMessage]) -> Result<List<NumberedMessage>, AllocError>
    ensures { IfOk result (λ copies. copies ≡ mails.now) }
{
    let mut copies = List::from_vec(Vec::with_capacity(alloc, mails.len())?);
    for mail in mails {
        copies.push(copy_mail(alloc, mail)?)?;
    }
    Ok(copies)
}

fn copy_mail(alloc: Global, mail: &NumberedMessage) -> Result<NumberedMessage, AllocError>
    ensures { IfOk result (λ copy. copy ≡ mail.now) }
{
    Ok(NumberedMessage {
        number: mail.number,
        message: mail.message.try_clone(alloc)?,
        flags: mail.flags.try_clone(alloc)?,
    })
}

/// A batch of which the first messages are put by the sink.
#[derive(Drop)]
pub struct BegunBatch {
    pub batch: MailBatch,
    /// How many messages are put.
    pub put: usize,
}

impl BegunBatch {
    /// Whether each message is put.
    pub fn is_put(&self) -> bool
        ensures { result ≡ nat_le (length self.now.batch.mails) self.now.put }
    {
        self.batch.mails.len() <= self.put
    }

    /// Has the sink put the next message.
    pub fn put_next<T: MailSink>(&mut self, sink: &mut T) -> Result<(), SinkError>
        requires { self.old.put < length self.old.batch.mails }
        ensures next { OnOk result (self.new ≡ record self.old { put = self.old.put + 1 }) }
        ensures batch { self.new.batch ≡ self.old.batch }
        ensures same_batch { OnErr result (self.new ≡ self.old) }
        ensures underway { OnOk result (StaysUnderway T.is_at T.has_put self.old sink.old self.new sink.new) }
        ensures stays { OnErr result (StaysTrue T.is_at sink.old sink.new) }
        ensures still_put { OnErr result (StaysPlaced T.has_put sink.old sink.new) }
        ensures waits { OnErr result (IsTrue T.tells → T.unsettled sink.new ≡ T.unsettled sink.old) }
        ensures only { OnOk result (PutsOnly T.tells T.unsettled self.old sink.old self.new sink.new) }
        ensures still_kept { StaysPlaced T.keeps_at sink.old sink.new }
        ensures same { IsTrue T.tells → T.kept sink.new ≡ T.kept sink.old }
    {
        let mail = &self.batch.mails.as_slice()[self.put];
        sink.put(
            self.batch.user.as_slice(),
            self.batch.folder.as_slice(),
            mail.number,
            mail.message.as_slice(),
            mail.flags.as_slice(),
        )?;
        self.put += 1;
        Ok(())
    }

    /// Without the messages that aren't put.
    pub fn without_rest(self) -> BegunBatch
        ensures { result ≡ cut_batch self }
    {
        let BegunBatch { batch, put } = self;
        BegunBatch {
            batch: batch.front(put),
            put,
        }
    }
}
