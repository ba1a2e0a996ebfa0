//! What is on its way from a store to a sink.
ghost use Rattle.std.specs.Prelude.{◌≡◌, ◌<◌, ◌++◌, ◌∷◌, [], None, Some, length, nat_le, slice_get, vec_capacity, vec_len, IsTrue, IfOk, OnOk};
ghost use Rattle.std.specs.List.{list_any};
ghost use Rattle.maildir_files.specs.Kept.{StaysPlaced};
ghost use Rattle.maildir_moves.specs.Relying.{IsOpenFor};
ghost use Rattle.maildir_moves.specs.Steps.{IsLoaded, RemovesFront, is_batch_of, max_settled};

use crate::batch::{BegunBatch, MailBatch};
use crate::maildir_path::place_in;
use crate::moving::StayReason;
use maildir_files::{MailSink, Separator, SinkError};
use maildir_homes::MailHomes;
use octets::Octets;
use std::alloc::{AllocError, Global};

/// How many batches may wait to be taken out, each with 1 MiB and a message at most. While that many do, none is begun: it is the
/// store that fails then, and not a folder.
const MAX_WAITING: usize = 4;

/// What is on its way, and where it goes.
#[derive(Drop)]
pub struct Load {
    alloc: Global,
    /// Where the users' Maildirs are.
    homes: MailHomes,
    /// What separates the levels of a folder's name.
    separator: Separator,
    /// The batch whose messages are being put.
    pub begun: Option<BegunBatch>,
    /// Those that are settled and wait to be taken out: they aren't put again.
    settled: Vec<MailBatch>,
}

impl Load {
    /// Nothing. Takes no memory.
    pub fn new(alloc: Global, homes: MailHomes, separator: Separator) -> Load
        ensures begun { result.begun ≡ None }
        ensures settled { result.settled.items ≡ [] }
        ensures homes { result.homes ≡ homes }
        ensures separator { result.separator ≡ separator }
    {
        Load {
            alloc,
            homes,
            separator,
            begun: None,
            settled: Vec::new(alloc),
        }
    }

    /// The batches that wait to be taken out, in the order in which they were settled.
    pub fn settled(&self) -> &[MailBatch]
        ensures { result.now ≡ self.now.settled.items }
    {
        self.settled.as_slice()
    }

    /// Whether as many batches wait as may.
    pub fn is_full(&self) -> bool
        ensures { result ≡ nat_le max_settled (length self.now.settled.items) }
    {
        MAX_WAITING <= self.settled.len()
    }

    /// Whether a batch of this folder waits.
    pub fn has_batch_of(&self, user: &[u8], folder: &[u8]) -> bool
        ensures { result ≡ list_any (is_batch_of user.now folder.now) self.now.settled.items }
    {
        self.settled.iter().any(|batch| batch.is_of(user, folder))
    }

    /// A copy of the batch that waits at this place.
    pub fn copy_of(&self, at: usize) -> Result<MailBatch, AllocError>
        requires { at < length self.now.settled.items }
        ensures { IfOk result (λ copy. slice_get self.now.settled.items at ≡ Some copy) }
    {
        self.settled[at].try_clone(self.alloc)
    }

    /// Makes room for one more batch that waits. Lack of memory is the only error.
    pub fn reserve(&mut self) -> Result<(), AllocError>
        ensures room { OnOk result (vec_len self.new.settled < vec_capacity self.new.settled) }
        ensures same { IsLoaded self.old.begun self.old.settled.items self.old self.new }
    {
        self.settled.try_reserve(1)
    }

    /// A batch is settled, and waits to be taken out.
    pub fn hold(&mut self, batch: MailBatch)
        requires { vec_len self.old.settled < vec_capacity self.old.settled }
        ensures { IsLoaded self.old.begun (self.old.settled.items ++ batch ∷ []) self.old self.new }
    {
        let _ = self.settled.push(batch);
    }

    /// The first messages of the batch that waits at this place, so many, left their folder or are gone; with the last of them the
    /// batch is removed.
    pub fn remove_front(&mut self, at: usize, count: usize)
        requires { at < length self.old.settled.items }
        ensures { RemovesFront at count self.old self.new }
    {
        let batch = self.settled.remove(at).behind(count);
        if !batch.mails.is_empty() {
            let _ = self.settled.insert(at, batch);
        }
    }

    /// Opens the place of a folder; one that isn't there is made.
    pub fn open<T: MailSink>(
        &self,
        sink: &mut T,
        user: &[u8],
        folder: &[u8],
    ) -> Result<(), StayReason>
        ensures placed { OnOk result (IsOpenFor T.is_at self.now user.now folder.now sink.new) }
        ensures fresh { OnOk result (IsTrue T.tells → T.unsettled sink.new ≡ []) }
        ensures still_kept { StaysPlaced T.keeps_at sink.old sink.new }
        ensures same { IsTrue T.tells → T.kept sink.new ≡ T.kept sink.old }
    {
        let Ok(home) = self.homes.home_of(self.alloc, user) else {
            return Err(StayReason::Sink(SinkError::Memory));
        };
        let Some(home) = home else {
            return Err(StayReason::Name);
        };
        let Ok(place) = place_in(self.alloc, home.as_slice(), folder, self.separator) else {
            return Err(StayReason::Sink(SinkError::Memory));
        };
        let (Ok(home), Ok(place)) = (
            str::from_utf8(home.as_slice()),
            str::from_utf8(place.as_slice()),
        ) else {
            return Err(StayReason::Name);
        };
        match self.open_or_make(sink, user, home, place) {
            Ok(()) => Ok(()),
            Err(error) => Err(StayReason::Sink(error)),
        }
    }

    /// Opens a place, which is made if it isn't there, with the user's before it.
    fn open_or_make<T: MailSink>(
        &self,
        sink: &mut T,
        user: &[u8],
        home: &str,
        place: &str,
    ) -> Result<(), SinkError>
        ensures placed { OnOk result (T.is_at sink.new place.now) }
        ensures fresh { OnOk result (IsTrue T.tells → T.unsettled sink.new ≡ []) }
        ensures still_kept { StaysPlaced T.keeps_at sink.old sink.new }
        ensures same { IsTrue T.tells → T.kept sink.new ≡ T.kept sink.old }
    {
        match sink.open(place) {
            Err(SinkError::NoMaildir) => {
                self.make_ways(sink, user)?;
                sink.make(home)?;
                sink.subscribe(home, place)?;
                sink.make(place)?;
                sink.open(place)
            }
            opened => opened,
        }
    }

    /// Makes the directories that lead to a user's Maildir.
    fn make_ways<T: MailSink>(&self, sink: &mut T, user: &[u8]) -> Result<(), SinkError>
        ensures still_kept { StaysPlaced T.keeps_at sink.old sink.new }
        ensures same { IsTrue T.tells → T.kept sink.new ≡ T.kept sink.old }
    {
        for count in 1..self.homes.parts.len() {
            let path = self.homes.front_of(self.alloc, user, count)?;
            let Ok(path) = str::from_utf8(path.as_slice()) else {
                return Err(SinkError::Failed);
            };
            sink.make_way(path)?;
        }
        Ok(())
    }
}
