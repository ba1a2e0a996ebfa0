//! Whose mail is next, and how it moves, step by step.
ghost use Rattle.std.specs.Prelude.{◌≡◌, ◌<◌, ◌≤◌, ◌++◌, ◌∷◌, [], ℕ, List, false, length, take, vec_capacity, vec_len, None, Some, IsTrue, OnErr, OnOk};
ghost use Rattle.std.specs.List.{list_any};
ghost use Rattle.sqlite.specs.Held.{state};
ghost use Rattle.maildir_moves.specs.Enduring.{OnlyReads};
ghost use Rattle.maildir_moves.specs.Moving.{IsStill, LeftAmong, MovesNext, WasClean};
ghost use Rattle.maildir_moves.specs.Order.{start_behind};
ghost use Rattle.maildir_files.specs.Kept.{StaysPlaced};
ghost use Rattle.maildir_files.specs.declared.kept.KeptMail.{KeptMail};
ghost use Rattle.maildir_moves.specs.Relying.{Carries, KeepsOnly, ReliesOn, SinkFollows};
ghost use Rattle.maildir_moves.specs.Rests.{rests_at};
ghost use Rattle.maildir_moves.specs.Steps.{BeginsWith, BatchGoesOn, IsLoaded, MayBegin, PutsOrDrops, RemovesFront, Steps, TakesBatchOut, due_at, is_batch_of, max_settled};
ghost use Rattle.maildir_moves.specs.Turns.{GoesByTurns, HasTurn, IsChosenByTurns, IsRoundEnd, IsOf, IsStayOf, IsTurnAt, PassesFolder, OrderStays, TurnEnds};
ghost use Rattle.maildir_moves.specs.Turns as turns;

use crate::batch::{BegunBatch, MailBatch};
use crate::first_mails::first_mails;
use crate::load::Load;
use crate::moving::{Moving, Stay, StayReason};
use crate::order::MoveOrder;
use crate::rest::Rests;
use maildir_files::{MailSink, Separator, SinkError};
use maildir_homes::MailHomes;
use octets::{List, Octets};
use sqlite::Alter;
use std::alloc::{AllocError, Global};
use store_accounts::{CopyKey, NumberedMessage, Refusal, Store};
use store_engine::{Answer, take_mails};

/// Whose turn it is, which folders rest, and what is on its way.
#[derive(Drop)]
pub struct Route {
    alloc: Global,
    order: MoveOrder,
    /// Something may have come since the round began, or moved or failed in it: another one follows.
    again: bool,
    rests: Rests,
    load: Load,
}

impl Route {
    /// To these Maildirs. Nothing moved yet. Takes no memory.
    pub fn new(alloc: Global, homes: MailHomes, separator: Separator) -> Route
        ensures begun { result.load.begun ≡ None }
        ensures settled { result.load.settled.items ≡ [] }
        ensures homes { result.load.homes ≡ homes }
        ensures separator { result.load.separator ≡ separator }
    {
        Route {
            alloc,
            order: MoveOrder::new(alloc),
            again: true,
            rests: Rests::new(alloc),
            load: Load::new(alloc, homes, separator),
        }
    }

    /// If `fresh`, mail may have come since: another round follows.
    fn hear(&mut self, fresh: bool)
        ensures order { self.new.order ≡ self.old.order }
        ensures rests { self.new.rests ≡ self.old.rests }
        ensures load { self.new.load ≡ self.old.load }
    {
        if fresh {
            self.again = true;
        }
    }

    /// The round is at its end.
    fn end_round(&mut self) -> Moving
        ensures still { IsStill result }
        ensures ends { IsRoundEnd self.old.order result self.new.order }
        ensures load { self.new.load ≡ self.old.load }
    {
        self.rests.forget_behind(&self.order.last);
        self.order.end_round();
        if self.again {
            self.again = false;
            return Moving::Passed;
        }
        Moving::Nothing
    }

    /// A user had the turn, at the folder of this place. Lack of memory is the only error.
    fn end_turn(&mut self, filed: &CopyKey) -> Result<(), AllocError>
        ensures ends { OnOk result (TurnEnds self.old.order filed.now.user filed.now.folder self.new.order) }
        ensures stays { OnErr result (OrderStays self.old.order self.new.order) }
        ensures load { self.new.load ≡ self.old.load }
    {
        let user = filed.user.as_slice();
        self.rests.forget_between(&self.order.last, user);
        self.order.end_turn(user, filed.folder.as_slice())
    }

    /// A folder rests: the user's next one has the turn, unless all rest.
    fn pass(&mut self, filed: &CopyKey) -> Moving
        ensures still { IsStill result }
        ensures passed { PassesFolder self.old.rests.entries.items self.old.order filed.now.user filed.now.folder result self.new.order }
        ensures load { self.new.load ≡ self.old.load }
    {
        let (user, folder) = (filed.user.as_slice(), filed.folder.as_slice());
        let passed = if self.order.passed < self.rests.count(user) {
            self.order.pass(user, folder)
        } else {
            self.end_turn(filed)
        };
        match passed {
            Ok(()) => Moving::Passed,
            Err(AllocError) => Moving::Failed(Refusal::Memory),
        }
    }

    /// Which of the batches that wait is to be taken out: the first whose folder doesn't rest.
    fn due(&self, now: u64) -> Option<usize>
        ensures { result ≡ due_at now self.now.rests.entries.items self.now.load.settled.items }
    {
        self.load.settled().iter().position(|batch| {
            !self
                .rests
                .last(batch.user.as_slice(), batch.folder.as_slice(), now)
        })
    }

    /// Whether a folder rests at a moment.
    fn has_rest(&self, filed: &CopyKey, now: u64) -> bool
        ensures { result ≡ rests_at now filed.now.user filed.now.folder self.now.rests.entries.items }
    {
        self.rests
            .last(filed.user.as_slice(), filed.folder.as_slice(), now)
    }

    /// A folder's messages stay where they are: the folder rests from now on. The user's other folders have their turns in another
    /// round.
    fn stay(&mut self, user: Octets, folder: Octets, why: StayReason, now: u64) -> Moving
        ensures still { IsStill result }
        ensures stays { IsStayOf user folder result }
        ensures order { self.new.order ≡ self.old.order }
        ensures load { self.new.load ≡ self.old.load }
    {
        let is_first = self.rest(user.as_slice(), folder.as_slice(), now);
        self.again = true;
        Moving::Stays(Stay {
            user,
            folder,
            why,
            is_first,
        })
    }

    /// Lets a folder rest from now on. Returns whether it hadn't failed since its last success.
    fn rest(&mut self, user: &[u8], folder: &[u8], now: u64) -> bool
        ensures order { self.new.order ≡ self.old.order }
        ensures load { self.new.load ≡ self.old.load }
    {
        match self.rests.begin(self.alloc, user, folder, now) {
            Ok(is_first) => is_first,
            Err(AllocError) => true,
        }
    }

    /// Messages of a folder left: it doesn't rest any more.
    fn wake(&mut self, user: &[u8], folder: &[u8])
        ensures order { self.new.order ≡ self.old.order }
        ensures load { self.new.load ≡ self.old.load }
    {
        self.again = true;
        self.rests.end(user, folder);
    }

    /// A batch of the folder is begun; or it stays, if it has no message.
    fn begin(&mut self, filed: CopyKey, mails: List<NumberedMessage>, now: u64) -> Moving
        ensures still { IsStill result }
        ensures of { IsOf filed.user filed.folder result self.new.load.begun }
        ensures order { self.new.order ≡ self.old.order }
        ensures begins { BeginsWith filed.user filed.folder mails self.old.load result self.new.load }
    {
        let CopyKey { user, folder, .. } = filed;
        if mails.is_empty() {
            return self.stay(user, folder, StayReason::Gone, now);
        }
        let batch = MailBatch {
            user,
            folder,
            mails,
        };
        self.load.begun = Some(BegunBatch { batch, put: 0 });
        Moving::Went
    }

    /// The first messages of the batch that waits at this place left, so many; `batch` is a copy of it.
    fn moved(&mut self, at: usize, batch: MailBatch, count: u64) -> Moving
        requires { at < length self.old.load.settled.items }
        ensures left { result ≡ Moving.Kept (record batch { mails = take count batch.mails }) Answer.MailTaken }
        ensures order { self.new.order ≡ self.old.order }
        ensures load { RemovesFront at count self.old.load self.new.load }
    {
        let MailBatch {
            user,
            folder,
            mails,
        } = batch;
        self.wake(user.as_slice(), folder.as_slice());
        self.load.remove_front(at, count as usize);
        let mut left = mails.into_vec();
        left.truncate(count as usize);
        let batch = MailBatch {
            user,
            folder,
            mails: List::from_vec(left),
        };
        Moving::Kept(batch, Answer::MailTaken)
    }

    /// The first messages of the batch that waits at this place, so many, can't be taken out any more.
    fn forget(&mut self, at: usize, count: usize) -> Moving
        requires { at < length self.old.load.settled.items }
        ensures passed { result ≡ Moving.Passed }
        ensures order { self.new.order ≡ self.old.order }
        ensures load { RemovesFront at count self.old.load self.new.load }
    {
        self.again = true;
        self.load.remove_front(at, count);
        Moving::Passed
    }

    /// The take-out of a batch was refused: it waits, and its folder rests. `batch` is a copy of it.
    fn refuse(&mut self, batch: MailBatch, refusal: Refusal, now: u64) -> Moving
        ensures left { result ≡ Moving.Kept batch (Answer.Refused refusal) }
        ensures order { self.new.order ≡ self.old.order }
        ensures load { self.new.load ≡ self.old.load }
    {
        let _ = self.rest(batch.user.as_slice(), batch.folder.as_slice(), now);
        Moving::Kept(batch, Answer::Refused(refusal))
    }
}

/// Does one step for the mail that moves on: one of the batch that is on its way; if none is, a batch that waits to be taken out is
/// tried, if its folder doesn't rest; and otherwise the batch of the folder whose turn it is begins. Users have a batch each a round,
/// and a user's folders take turns too. If `fresh`, mail may have come since the last call.
///
/// A batch has the first messages of a folder, at most 64, and 1 MiB and a message at most. A step reads them, or has the sink put one
/// message, or settle all; then they leave the store, in one transaction. A crash before that leaves them in both. A batch that is
/// settled isn't put again: if its take-out is refused it waits.
///
/// At most six rows are found by their keys, and 64 messages read. Memory: that of two batches, and of four that wait.
pub fn move_next<S: Alter, T: MailSink>(
    store: &mut Store<S>,
    sink: &mut T,
    route: &mut Route,
    now: u64,
    fresh: bool,
) -> Moving
    ensures moves { MovesNext result (state S.Store store.old) (state S.Store store.new) }
    ensures clean { WasClean (state S.Store store.old) (state S.Store store.new) }
    ensures steps { Steps now route.old result route.new (state S.Store store.old) (state S.Store store.new) }
    ensures turns { GoesByTurns now route.old result route.new (state S.Store store.old) (state S.Store store.new) }

    // What the sink has.
    ensures carries { Carries T.tells T.kept T.is_at T.has_put T.keeps_at
        route.old.load sink.old result route.new.load sink.new }
    ensures only { KeepsOnly T.tells route.old.load.begun (T.unsettled sink.old) (T.kept sink.old) result
        route.new.load.begun (T.unsettled sink.new) (T.kept sink.new) }
    ensures told { ReliesOn T.is_at T.has_put T.keeps_at route.old.load sink.old
        → IsTrue T.tells → LeftAmong result (T.kept sink.new) }
{
    route.hear(fresh);
    match route.load.begun.take() {
        Some(begun) => go_on(store, sink, route, begun, now),
        None => take_or_choose(store, sink, route, now),
    }
}

/// The next step of a batch.
fn go_on<S: Alter, T: MailSink>(
    store: &mut Store<S>,
    sink: &mut T,
    route: &mut Route,
    begun: BegunBatch,
    now: u64,
) -> Moving
    requires { route.old.load.begun ≡ None }
    ensures moves { MovesNext result (state S.Store store.old) (state S.Store store.new) }
    ensures clean { WasClean (state S.Store store.old) (state S.Store store.new) }
    ensures steps { BatchGoesOn begun route.old.load result route.new.load (state S.Store store.old) (state S.Store store.new) }
    ensures order { route.new.order ≡ route.old.order }
    ensures sinks { SinkFollows T.tells T.kept T.unsettled T.is_at T.has_put T.keeps_at
        (record route.old.load { begun = Some begun }) sink.old result route.new.load sink.new }
{
    if begun.is_put() {
        settle_batch(store, sink, route, begun, now)
    } else {
        put_next(sink, route, begun, now)
    }
}

/// Has the sink put the next message of a batch. If it can't, those before it are the batch from now on; if there is none, the batch is
/// dropped.
fn put_next<T: MailSink>(sink: &mut T, route: &mut Route, begun: BegunBatch, now: u64) -> Moving
    requires idle { route.old.load.begun ≡ None }
    requires more { begun.put < length begun.batch.mails }
    ensures still { IsStill result }
    ensures steps { PutsOrDrops begun route.old.load result route.new.load }
    ensures order { route.new.order ≡ route.old.order }
    ensures sinks { SinkFollows T.tells T.kept T.unsettled T.is_at T.has_put T.keeps_at
        (record route.old.load { begun = Some begun }) sink.old result route.new.load sink.new }
{
    let mut begun = begun;
    match begun.put_next(sink) {
        Ok(()) => {
            route.load.begun = Some(begun);
            Moving::Went
        }
        Err(_) if begun.put > 0 => {
            route.load.begun = Some(begun.without_rest());
            Moving::Went
        }
        Err(error) => {
            let MailBatch { user, folder, .. } = begun.batch;
            route.stay(user, folder, StayReason::Sink(error), now)
        }
    }
}

/// Settles a batch whose messages are put, and tries to take it out. If it can't be settled, it is dropped.
fn settle_batch<S: Alter, T: MailSink>(
    store: &mut Store<S>,
    sink: &mut T,
    route: &mut Route,
    begun: BegunBatch,
    now: u64,
) -> Moving
    requires idle { route.old.load.begun ≡ None }
    requires all_put { length begun.batch.mails ≤ begun.put }
    ensures moves { MovesNext result (state S.Store store.old) (state S.Store store.new) }
    ensures clean { WasClean (state S.Store store.old) (state S.Store store.new) }
    ensures steps { BatchGoesOn begun route.old.load result route.new.load (state S.Store store.old) (state S.Store store.new) }
    ensures order { route.new.order ≡ route.old.order }
    ensures sinks { SinkFollows T.tells T.kept T.unsettled T.is_at T.has_put T.keeps_at
        (record route.old.load { begun = Some begun }) sink.old result route.new.load sink.new }
{
    let batch = begun.batch;
    let at = route.load.settled().len();
    match settle_for(&mut route.load, sink) {
        Ok(()) => {
            route.load.hold(batch);
            take_out(store, route, at, now)
        }
        Err(error) => {
            let MailBatch { user, folder, .. } = batch;
            route.stay(user, folder, StayReason::Sink(error), now)
        }
    }
}

/// Has the sink settle what was put, once there is room for a batch that waits.
fn settle_for<T: MailSink>(load: &mut Load, sink: &mut T) -> Result<(), SinkError>
    ensures room { OnOk result (vec_len load.new.settled < vec_capacity load.new.settled) }
    ensures load { IsLoaded load.old.begun load.old.settled.items load.old load.new }
    ensures kept_there { OnOk result ((path : List ℕ) (mail : KeptMail) →
        T.has_put sink.old path mail → T.keeps_at sink.new path mail) }
    ensures still_kept { StaysPlaced T.keeps_at sink.old sink.new }
    ensures settled { OnOk result (IsTrue T.tells → T.kept sink.new ≡ T.kept sink.old ++ T.unsettled sink.old) }
    ensures refused { OnErr result (IsTrue T.tells → T.kept sink.new ≡ T.kept sink.old) }
{
    load.reserve()?;
    sink.settle()
}

/// Tries to take the batch that waits at this place out of its folder. Messages that somebody else took out meanwhile are no longer
/// tried, nor are those of an account that is away.
fn take_out<S: Alter>(store: &mut Store<S>, route: &mut Route, at: usize, now: u64) -> Moving
    requires idle { route.old.load.begun ≡ None }
    requires there { at < length route.old.load.settled.items }
    ensures moves { MovesNext result (state S.Store store.old) (state S.Store store.new) }
    ensures clean { WasClean (state S.Store store.old) (state S.Store store.new) }
    ensures takes { TakesBatchOut at route.old.load.settled.items route.old.load result route.new.load
        (state S.Store store.old) (state S.Store store.new) }
    ensures order { route.new.order ≡ route.old.order }
{
    let Ok(batch) = route.load.copy_of(at) else {
        return Moving::Failed(Refusal::Memory);
    };
    let (user, folder) = (batch.user.as_slice(), batch.folder.as_slice());
    match take_mails(store, user, folder, batch.mails.as_slice()) {
        Ok(count) => route.moved(at, batch, count),
        Err(refusal) => match refusal {
            Refusal::NoRow => route.forget(at, 1),
            Refusal::NoUser => route.forget(at, batch.mails.len()),
            refusal => route.refuse(batch, refusal, now),
        },
    }
}

/// Tries to take a batch out that waits, if its folder doesn't rest; otherwise begins the batch of the folder whose turn it is.
fn take_or_choose<S: Alter, T: MailSink>(
    store: &mut Store<S>,
    sink: &mut T,
    route: &mut Route,
    now: u64,
) -> Moving
    requires { route.old.load.begun ≡ None }
    ensures moves { MovesNext result (state S.Store store.old) (state S.Store store.new) }
    ensures clean { WasClean (state S.Store store.old) (state S.Store store.new) }
    ensures steps { Steps now route.old result route.new (state S.Store store.old) (state S.Store store.new) }
    ensures turns { GoesByTurns now route.old result route.new (state S.Store store.old) (state S.Store store.new) }
    ensures sinks { SinkFollows T.tells T.kept T.unsettled T.is_at T.has_put T.keeps_at
        route.old.load sink.old result route.new.load sink.new }
{
    match route.due(now) {
        Some(at) => take_out(store, route, at, now),
        None => choose(store, sink, route, now),
    }
}

/// Begins the batch of the folder whose turn it is.
fn choose<S: Alter, T: MailSink>(
    store: &mut Store<S>,
    sink: &mut T,
    route: &mut Route,
    now: u64,
) -> Moving
    requires { route.old.load.begun ≡ None }
    ensures still { IsStill result }
    ensures reads { OnlyReads (state S.Store store.old) (state S.Store store.new) }
    ensures begins { MayBegin route.old.load result route.new.load (state S.Store store.old) (state S.Store store.new) }
    ensures turns { IsChosenByTurns now route.old result route.new (state S.Store store.old) (state S.Store store.new) }
    ensures sinks { SinkFollows T.tells T.kept T.unsettled T.is_at T.has_put T.keeps_at
        route.old.load sink.old result route.new.load sink.new }
{
    let Ok(start) = route.order.start() else {
        return Moving::Failed(Refusal::Memory);
    };
    match store.next_filed(&start) {
        Ok(Some(first)) => choose_of_user(store, sink, route, first, now),
        Ok(None) => route.end_round(),
        Err(refusal) => Moving::Failed(refusal),
    }
}

/// Begins a batch of a user, whose first message this is.
fn choose_of_user<S: Alter, T: MailSink>(
    store: &mut Store<S>,
    sink: &mut T,
    route: &mut Route,
    first: CopyKey,
    now: u64,
) -> Moving
    requires { route.old.load.begun ≡ None }
    ensures still { IsStill result }
    ensures reads { OnlyReads (state S.Store store.old) (state S.Store store.new) }
    ensures begins { MayBegin route.old.load result route.new.load (state S.Store store.old) (state S.Store store.new) }
    ensures turns { HasTurn now first route.old result route.new (state S.Store store.old) (state S.Store store.new) }
    ensures sinks { SinkFollows T.tells T.kept T.unsettled T.is_at T.has_put T.keeps_at
        route.old.load sink.old result route.new.load sink.new }
{
    match route.order.start_in(first.user.as_slice()) {
        Ok(Some(start)) => choose_behind(store, sink, route, first, start, now),
        Ok(None) => choose_folder(store, sink, route, first, now),
        Err(AllocError) => Moving::Failed(Refusal::Memory),
    }
}

/// Begins a batch of the user's first folder after that place, which is after the folder of the last turn; of the first one again, if
/// there is none.
fn choose_behind<S: Alter, T: MailSink>(
    store: &mut Store<S>,
    sink: &mut T,
    route: &mut Route,
    first: CopyKey,
    start: CopyKey,
    now: u64,
) -> Moving
    requires idle { route.old.load.begun ≡ None }
    requires start { start_behind first.user route.old.order.marks.items ≡ Some start }
    ensures still { IsStill result }
    ensures reads { OnlyReads (state S.Store store.old) (state S.Store store.new) }
    ensures begins { MayBegin route.old.load result route.new.load (state S.Store store.old) (state S.Store store.new) }
    ensures turns { HasTurn now first route.old result route.new (state S.Store store.old) (state S.Store store.new) }
    ensures sinks { SinkFollows T.tells T.kept T.unsettled T.is_at T.has_put T.keeps_at
        route.old.load sink.old result route.new.load sink.new }
{
    match store.next_filed(&start) {
        Ok(next) => choose_folder(store, sink, route, chosen(next, first), now),
        Err(refusal) => Moving::Failed(refusal),
    }
}

/// The message that comes next, if it is of the same user as the first one, and otherwise that.
fn chosen(next: Option<CopyKey>, first: CopyKey) -> CopyKey
    ensures { result ≡ turns.chosen next first }
{
    let Some(next) = next else {
        return first;
    };
    if next.user.as_slice() == first.user.as_slice() {
        next
    } else {
        first
    }
}

/// Begins a batch of a folder that has a message, unless it rests.
fn choose_folder<S: Alter, T: MailSink>(
    store: &mut Store<S>,
    sink: &mut T,
    route: &mut Route,
    filed: CopyKey,
    now: u64,
) -> Moving
    requires { route.old.load.begun ≡ None }
    ensures still { IsStill result }
    ensures reads { OnlyReads (state S.Store store.old) (state S.Store store.new) }
    ensures begins { MayBegin route.old.load result route.new.load (state S.Store store.old) (state S.Store store.new) }
    ensures turn { IsTurnAt now route.old.rests.entries.items route.old.order filed.user filed.folder result
        route.new.order route.new.load.begun }
    ensures sinks { SinkFollows T.tells T.kept T.unsettled T.is_at T.has_put T.keeps_at
        route.old.load sink.old result route.new.load sink.new }
{
    if route.has_rest(&filed, now) {
        return route.pass(&filed);
    }
    match route.end_turn(&filed) {
        Ok(()) => begin_batch(store, sink, route, filed, now),
        Err(AllocError) => Moving::Failed(Refusal::Memory),
    }
}

/// Opens the place of a folder and begins a batch of it. If one of it waits to be taken out, or too many do, the folder is passed
/// over.
fn begin_batch<S: Alter, T: MailSink>(
    store: &mut Store<S>,
    sink: &mut T,
    route: &mut Route,
    filed: CopyKey,
    now: u64,
) -> Moving
    requires { route.old.load.begun ≡ None }
    ensures still { IsStill result }
    ensures reads { OnlyReads (state S.Store store.old) (state S.Store store.new) }
    ensures begins { MayBegin route.old.load result route.new.load (state S.Store store.old) (state S.Store store.new) }
    ensures of { IsOf filed.user filed.folder result route.new.load.begun }
    ensures order { route.new.order ≡ route.old.order }
    ensures sinks { SinkFollows T.tells T.kept T.unsettled T.is_at T.has_put T.keeps_at
        route.old.load sink.old result route.new.load sink.new }
{
    let (user, folder) = (filed.user.as_slice(), filed.folder.as_slice());
    if route.load.is_full() || route.load.has_batch_of(user, folder) {
        return Moving::Passed;
    }
    match route.load.open(sink, user, folder) {
        Ok(()) => read_batch(store, route, filed, now),
        Err(why) => route.stay(filed.user, filed.folder, why, now),
    }
}

/// Reads the first messages of a folder whose place is open, and of which no batch waits. Those of an account that is closed stay,
/// and are passed over.
fn read_batch<S: Alter>(store: &mut Store<S>, route: &mut Route, filed: CopyKey, now: u64) -> Moving
    requires apart { list_any (is_batch_of filed.user filed.folder) route.old.load.settled.items ≡ false }
    requires room { length route.old.load.settled.items < max_settled }
    ensures still { IsStill result }
    ensures reads { OnlyReads (state S.Store store.old) (state S.Store store.new) }
    ensures begins { MayBegin route.old.load result route.new.load (state S.Store store.old) (state S.Store store.new) }
    ensures of { IsOf filed.user filed.folder result route.new.load.begun }
    ensures order { route.new.order ≡ route.old.order }
{
    let (user, folder) = (filed.user.as_slice(), filed.folder.as_slice());
    match first_mails(store, route.alloc, user, folder) {
        Ok(mails) => route.begin(filed, mails, now),
        Err(Refusal::NoUser) => Moving::Passed,
        Err(refusal) => route.stay(filed.user, filed.folder, StayReason::Store(refusal), now),
    }
}
