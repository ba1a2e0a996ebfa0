//! One client's session over a reader and a writer, and a store that is taken for the commands that came together.
ghost use Rattle.std.specs.Prelude.{◌≡◌, ◌≢◌, ◌⊎◌, Some, None, is_ok, is_some, false, true, IsTrue, IfOk, IfErr, IfSome, OnOk, OnErr};
ghost use Rattle.store_lock.specs.declared.keeper.StoreUnavailable.TheVariants.{Busy};
ghost use Rattle.sqlite.specs.Held.{state};
ghost use Rattle.store_accounts.specs.Account.{Accounts};
ghost use Rattle.store_accounts.specs.Schema.{no_schema};
ghost use Rattle.store_accounts.specs.Opening.{IsKnown};
ghost use Rattle.store_accounts.specs.Shows.{OffersAccounts};
ghost use Rattle.managesieve_sessions.specs.Clients.{is_ready};
ghost use Rattle.managesieve_sessions.specs.Steps.{Asked};
ghost use Rattle.cli_run.specs.declared.fault.RunFault.TheVariants.{Stream};
ghost use Rattle.cli_run.specs.Faults.{IsCutShort};
ghost use Rattle.cli_run.specs.Serving.{AnswersAll, AnswersFirst, AnswersSeen, AreSeen, EndsSession, GoesOnToEnd, HasGiven};
ghost use Rattle.cli_run.specs.Serving.{HasNoted, HasOpenStore, Hinders, IsCauseNoted, IsDenialNoted, IsDenied, IsDeniedBy};
ghost use Rattle.cli_run.specs.Serving.{IsRefusalNoted, IsTold, KeepsFirst, PresentsSeen, RoundsAnswer, ServesTables, StepsSeen};
ghost use Rattle.cli_run.specs.Serving.{StopsAt, StopsServing, TellsOne, Unstopped, WasOut, database_seen};
ghost use Rattle.cli_run.specs.Streams.{OutputFailed, ReadsOn, ReadsToEnd};
ghost use Rattle.cli_run.specs.Transitions.{across, from_to};

use crate::fault::{RunFault, refuse};
use crate::fault_with_cause::{FaultWithCause, FirstFault};
use crate::stream::{MAX_READS, read_at, write_all};
use cli_subcommands::StoreLocation;
use managesieve_sessions::{FreeStep, Session, StoreCommand};
use octets::Octets;
use std::alloc::{AllocError, Global};
use std::io;
use std::io::{Read, Write};
use store_accounts::{Refusal, Store};
use store_lock::{Keeper, StoreUnavailable};

/// The largest number of octets that are read at once.
const PIECE: usize = 4096;

/// Once this many octets of answers wait, they are written, even if other commands are to be answered.
const MAX_WAITING: usize = 65_536;

/// Serves one client of ManageSieve (RFC 5804) over a reader and a writer: greets, and answers each command as soon as it is
/// whole. For the commands that came together the store's lock is asked for once, and the store is opened once, for the first
/// command that needs it; both are given back before anything is written or waited for. If the lock or the store can't be taken,
/// or the store refuses the step, the client is told to try later (`NO (TRYLATER)`), and the command is dropped.
///
/// Answers to commands that came together are written together, in their order, up to 64 KiB. Ends with the client's `LOGOUT`,
/// with a `BYE`, or with the input.
///
/// # Errors
///
/// `Memory` if there is none for the greeting or a piece of at most 4,096 octets, and `Stream` if a read or a write
/// fails, or after 40,000,000 reads. The session has ended then; the store has what its steps wrote.
pub fn serve_one<R: Read, W: Write, K: Keeper>(
    alloc: Global,
    location: StoreLocation<'_>,
    input: &mut R,
    output: &mut W,
    keeper: &mut K,
) -> Result<(), RunFault>
    ensures back { K.is_out keeper.old ≡ false → K.is_out keeper.new ≡ false }
    ensures serves { IsTrue K.tells → K.is_out keeper.old ≡ false → ServesTables
        (StopsServing K.refuses K.will_wait location.entry (Unit {0}))
        (WasOut K.gives K.will_wait K.closes location.entry (Unit {0})) (across R.remaining input.old input.new)
        (across W.contents output.old output.new) (across K.holds keeper.old keeper.new) result }
    ensures reads { OnOk result (ReadsToEnd R.remaining input.old input.new ⊎ ReadsOn R.remaining input.old input.new) }
    ensures fault { IfErr result IsCutShort }
{
    let mut errors = io::sink();
    serve_client(alloc, location, input, output, &mut errors, keeper)
}

/// Serves one client as `serve_one` does, with the same errors. The first fault of the store is reported on the errors: why
/// it can't be taken, refused a step or couldn't be closed. That another process has it is no fault, and passes.
pub fn serve_client<R: Read, W: Write, E: Write, K: Keeper>(
    alloc: Global,
    location: StoreLocation<'_>,
    input: &mut R,
    output: &mut W,
    errors: &mut E,
    keeper: &mut K,
) -> Result<(), RunFault>
    ensures back { K.is_out keeper.old ≡ false → K.is_out keeper.new ≡ false }
    ensures serves { IsTrue K.tells → K.is_out keeper.old ≡ false → ServesTables
        (StopsServing K.refuses K.will_wait location.entry (IsTold (E.contents errors.old) (E.contents errors.new)))
        (WasOut K.gives K.will_wait K.closes location.entry (IsTold (E.contents errors.old) (E.contents errors.new)))
        (across R.remaining input.old input.new) (across W.contents output.old output.new)
        (across K.holds keeper.old keeper.new) result }
    ensures told { TellsOne (E.contents errors.old) (E.contents errors.new) }
    ensures reads { OnOk result (ReadsToEnd R.remaining input.old input.new ⊎ ReadsOn R.remaining input.old input.new) }
    ensures fault { IfErr result IsCutShort }
{
    let mut greeting = Octets::new(alloc);
    let mut session = Session::new(alloc, &mut greeting)?;
    write_all(output, greeting.as_slice())?;
    converse(alloc, &mut session, location, input, output, errors, keeper)
}

/// `session`: serves one client, and returns the exit status. What goes wrong is reported on the errors.
pub fn run_session<R: Read, W: Write, E: Write, K: Keeper>(
    alloc: Global,
    location: StoreLocation<'_>,
    input: &mut R,
    output: &mut W,
    errors: &mut E,
    keeper: &mut K,
) -> u8
    ensures back { K.is_out keeper.old ≡ false → K.is_out keeper.new ≡ false }
    ensures reads { result ≡ 0 → ReadsToEnd R.remaining input.old input.new ⊎ ReadsOn R.remaining input.old input.new }
    ensures serves { IsTrue K.tells → K.is_out keeper.old ≡ false → EndsSession (λ Told ending. ServesTables
        (StopsServing K.refuses K.will_wait location.entry Told) (WasOut K.gives K.will_wait K.closes location.entry Told)
        (across R.remaining input.old input.new) (across W.contents output.old output.new)
        (across K.holds keeper.old keeper.new) ending) (across E.contents errors.old errors.new) result }
{
    match serve_client(alloc, location, input, output, errors, keeper) {
        Ok(()) => 0,
        Err(fault) => refuse(errors, fault),
    }
}

/// Serves a client after the greeting, piece by piece.
fn converse<R: Read, W: Write, E: Write, K: Keeper>(
    alloc: Global,
    session: &mut Session,
    location: StoreLocation<'_>,
    input: &mut R,
    output: &mut W,
    errors: &mut E,
    keeper: &mut K,
) -> Result<(), RunFault>
    requires { session.old.client.closed ≡ false }
    ensures reads { OnOk result (ReadsToEnd R.remaining input.old input.new
        ⊎ ((session.new.client.closed ≡ true) × ReadsOn R.remaining input.old input.new)) }
    ensures back { K.is_out keeper.old ≡ false → K.is_out keeper.new ≡ false }
    ensures serves { IsTrue K.tells → K.is_out keeper.old ≡ false → GoesOnToEnd
        (StopsServing K.refuses K.will_wait location.entry (IsTold (E.contents errors.old) (E.contents errors.new)))
        (WasOut K.gives K.will_wait K.closes location.entry (IsTold (E.contents errors.old) (E.contents errors.new)))
        session.old.client (across R.remaining input.old input.new) (across W.contents output.old output.new)
        (across K.holds keeper.old keeper.new) result }
    ensures told { TellsOne (E.contents errors.old) (E.contents errors.new) }
    ensures none { IsTrue K.tells → (K.holds keeper.old).schema ≡ no_schema → (K.holds keeper.new).schema ≡ no_schema }
    ensures fault { IfErr result IsCutShort }
{
    let mut piece = [0u8; PIECE];
    let mut first_fault = FirstFault::none();
    for _ in 0..MAX_READS {
        let Some(len) = read_at(input, &mut piece, 0)? else {
            return Ok(());
        };
        session.give(&piece[..len])?;
        let answered = answer_all(alloc, session, location, output, &mut first_fault, keeper);
        first_fault.tell(errors);
        answered?;
        let is_over = session.is_closed();
        if is_over {
            return Ok(());
        }
    }
    Err(RunFault::Stream)
}

/// Answers all that is whole, and writes the answers.
fn answer_all<W: Write, K: Keeper>(
    alloc: Global,
    session: &mut Session,
    location: StoreLocation<'_>,
    output: &mut W,
    first_fault: &mut FirstFault,
    keeper: &mut K,
) -> Result<(), RunFault>
    ensures kept { KeepsFirst first_fault.old first_fault.new }
    ensures back { K.is_out keeper.old ≡ false → K.is_out keeper.new ≡ false }
    ensures answers { IsTrue K.tells → K.is_out keeper.old ≡ false → AnswersAll
        (StopsServing K.refuses K.will_wait location.entry (HasNoted first_fault.new))
        (WasOut K.gives K.will_wait K.closes location.entry (HasNoted first_fault.new))
        (from_to session.old.client session.new.client) (across W.contents output.old output.new)
        (across K.holds keeper.old keeper.new) result }
    ensures none { IsTrue K.tells → (K.holds keeper.old).schema ≡ no_schema → (K.holds keeper.new).schema ≡ no_schema }
    ensures fault { IfErr result (λ fault. (fault ≡ Stream) × OutputFailed) }
{
    for _ in 0..u64::MAX {
        if !session.ready() {
            return Ok(());
        }
        answer_some(alloc, session, location, output, first_fault, keeper)?;
    }
    Err(RunFault::Stream)
}

/// Answers the items that are ready, and writes the answers after the lock and the store are given back. An item that can't be
/// answered now is given up, and that is written after them.
fn answer_some<W: Write, K: Keeper>(
    alloc: Global,
    session: &mut Session,
    location: StoreLocation<'_>,
    output: &mut W,
    first_fault: &mut FirstFault,
    keeper: &mut K,
) -> Result<(), RunFault>
    requires { is_ready session.old.client ≡ true }
    ensures kept { KeepsFirst first_fault.old first_fault.new }
    ensures back { K.is_out keeper.old ≡ false → K.is_out keeper.new ≡ false }
    ensures answers { IsTrue K.tells → K.is_out keeper.old ≡ false → AnswersFirst
        (StopsServing K.refuses K.will_wait location.entry (HasNoted first_fault.new))
        (WasOut K.gives K.will_wait K.closes location.entry (HasNoted first_fault.new))
        (from_to session.old.client session.new.client) (across W.contents output.old output.new)
        (across K.holds keeper.old keeper.new) result }
    ensures none { IsTrue K.tells → (K.holds keeper.old).schema ≡ no_schema → (K.holds keeper.new).schema ≡ no_schema }
    ensures fault { IfErr result (λ fault. (fault ≡ Stream) × OutputFailed) }
{
    let mut answers = Octets::new(alloc);
    let answered = answer_under_lock(session, location, &mut answers, first_fault, keeper);
    write_all(output, answers.as_slice())?;
    if answered {
        return Ok(());
    }
    write_all(output, session.give_up())
}

/// Answers the items that are ready, up to the first that can't be answered now, and returns whether there was none. The lock is
/// asked for first, and both it and the store are given back. Trouble is noted.
fn answer_under_lock<K: Keeper>(
    session: &mut Session,
    location: StoreLocation<'_>,
    answers: &mut Octets,
    first_fault: &mut FirstFault,
    keeper: &mut K,
) -> bool
    requires { is_ready session.old.client ≡ true }
    ensures back { K.is_out keeper.old ≡ false → K.is_out keeper.new ≡ false }
    ensures answers { IsTrue K.tells → (accounts : Accounts) → OffersAccounts (K.holds keeper.old) accounts
        → RoundsAnswer Unstopped (WasOut K.gives K.will_wait K.closes location.entry (HasNoted first_fault.new)) accounts
        (from_to session.old.client session.new.client) (from_to answers.old answers.new) (OffersAccounts (K.holds keeper.new)) }
    ensures whole { IsTrue result → StopsAt session.old.client answers.new session.new.client }
    ensures stopped { result ≡ false → is_ready session.new.client ≡ true }
    ensures noted { result ≡ false → K.is_out keeper.old ≡ false
        → IsDenialNoted (IsDeniedBy K.refuses K.will_wait location.entry) first_fault.new }
    ensures kept { KeepsFirst first_fault.old first_fault.new }
    ensures cause { result ≡ false → K.is_out keeper.old ≡ false
        → Hinders (IsDenied K.refuses K.will_wait location.entry) session.new.client }
    ensures none { IsTrue K.tells → (K.holds keeper.old).schema ≡ no_schema → (K.holds keeper.new).schema ≡ no_schema }
    ensures asked { K.unclosed keeper.old ≡ None → K.unclosed keeper.new ≡ None }
{
    keeper.wait_for_lock(location.waits);
    if let Err(denial) = keeper.lock(location.path) {
        note_denial(first_fault, denial, keeper);
        return false;
    }
    let mut store = None;
    let answered = answer_ready(session, location, answers, &mut store, keeper);
    let unclosed = give_back(store, keeper);
    match answered {
        Ok(()) => {
            note_refusal(first_fault, unclosed, keeper);
            true
        }
        Err(denial) => {
            note_denial(first_fault, denial, keeper);
            note_refusal(first_fault, unclosed, keeper);
            false
        }
    }
}

/// Gives back what is out: a store with the lock, or the lock alone. Returns why the store couldn't be closed, if it couldn't:
/// what was written in it stays.
fn give_back<K: Keeper>(store: Option<Store<K::S>>, keeper: &mut K) -> Option<Refusal>
    ensures held { IsTrue K.tells → K.holds keeper.new ≡ database_seen (λ s. (state K.S.Store s).now) (K.holds keeper.old) store }
    ensures told { IfSome store (λ given. K.closes keeper.old given result) }
    ensures back { K.is_out keeper.new ≡ false }
    ensures asked { K.unclosed keeper.old ≡ None → K.unclosed keeper.new ≡ None }
{
    match store {
        Some(store) => {
            keeper.hand_back(store);
            keeper.take_close_error()
        }
        None => {
            keeper.unlock();
            None
        }
    }
}

/// Answers the items that are ready, each by a step whose answer joins those that wait, until nothing is ready or much waits.
/// Returns why the first item that couldn't be answered wasn't. The lock is held; the store is opened for the first that needs
/// it, and stays open.
fn answer_ready<K: Keeper>(
    session: &mut Session,
    location: StoreLocation<'_>,
    answers: &mut Octets,
    store: &mut Option<Store<K::S>>,
    keeper: &mut K,
) -> Result<(), StoreUnavailable>
    ensures answers { IsTrue K.tells → AnswersSeen (HasGiven K.gives K.will_wait location.entry)
        (HasOpenStore K.gives K.will_wait location.entry store.new) (λ s. (state K.S.Store s).now)
        (across K.holds keeper.old keeper.new) (from_to store.old store.new) (from_to session.old.client session.new.client)
        (from_to answers.old answers.new) }
    ensures whole { OnOk result (StopsAt session.old.client answers.new session.new.client) }
    ensures stopped { OnErr result (is_ready session.new.client ≡ true) }
    ensures busy { result ≡ Err Busy → IsDeniedBy K.refuses K.will_wait location.entry Busy }
    ensures cause { OnErr result (Hinders (IsDenied K.refuses K.will_wait location.entry) session.new.client) }
    ensures none { IsTrue K.tells → (K.holds keeper.old).schema ≡ no_schema → store.old ≡ None
        → (K.holds keeper.new ≡ K.holds keeper.old) × (store.new ≡ None) }
    ensures closed { K.unclosed keeper.new ≡ K.unclosed keeper.old }
{
    for _ in 0..u64::MAX {
        if !session.ready() || answers.len() >= MAX_WAITING {
            return Ok(());
        }
        answer_first(session, location, answers, store, keeper)?;
    }
    Ok(())
}

/// Answers the first item by a step, over the store if its command needs it. After a refusal nothing has changed, except that
/// the store may be open.
fn answer_first<K: Keeper>(
    session: &mut Session,
    location: StoreLocation<'_>,
    answers: &mut Octets,
    store: &mut Option<Store<K::S>>,
    keeper: &mut K,
) -> Result<(), StoreUnavailable>
    ensures steps { IsTrue K.tells → StepsSeen (HasGiven K.gives K.will_wait location.entry)
        (HasOpenStore K.gives K.will_wait location.entry store.new) (λ s. (state K.S.Store s).now)
        (across K.holds keeper.old keeper.new) (from_to store.old store.new) (from_to session.old.client session.new.client)
        (from_to answers.old answers.new) (is_ok result) }
    ensures same { OnErr result ((session.new ≡ session.old) × (answers.new ≡ answers.old)) }
    ensures open { IsTrue (is_some store.old) → IsTrue (is_some store.new) }
    ensures cause { OnErr result (Hinders (IsDenied K.refuses K.will_wait location.entry) session.new.client) }
    ensures busy { result ≡ Err Busy → IsDeniedBy K.refuses K.will_wait location.entry Busy }
    ensures none { IsTrue K.tells → (K.holds keeper.old).schema ≡ no_schema → store.old ≡ None
        → (K.holds keeper.new ≡ K.holds keeper.old) × (store.new ≡ None) }
    ensures closed { K.unclosed keeper.new ≡ K.unclosed keeper.old }
{
    match session.step_free(answers) {
        Ok(FreeStep::Made(_)) => Ok(()),
        Ok(FreeStep::Asks(command)) => answer_over_store(
            session, location, &command, answers, store, keeper,
        ),
        Err(AllocError) => Err(StoreUnavailable::Refused(Refusal::Memory)),
    }
}

/// Answers the first item, which needs the store; the store is opened if it isn't.
fn answer_over_store<K: Keeper>(
    session: &mut Session,
    location: StoreLocation<'_>,
    command: &StoreCommand,
    answers: &mut Octets,
    store: &mut Option<Store<K::S>>,
    keeper: &mut K,
) -> Result<(), StoreUnavailable>
    requires { Asked session.old.client command.now }
    ensures steps { IsTrue K.tells → StepsSeen (HasGiven K.gives K.will_wait location.entry)
        (HasOpenStore K.gives K.will_wait location.entry store.new) (λ s. (state K.S.Store s).now)
        (across K.holds keeper.old keeper.new) (from_to store.old store.new) (from_to session.old.client session.new.client)
        (from_to answers.old answers.new) (is_ok result) }
    ensures same { OnErr result ((session.new ≡ session.old) × (answers.new ≡ answers.old)) }
    ensures open { IsTrue (is_some store.old) → IsTrue (is_some store.new) }
    ensures cause { OnErr result (Hinders (IsDenied K.refuses K.will_wait location.entry) session.new.client) }
    ensures busy { result ≡ Err Busy → IsDeniedBy K.refuses K.will_wait location.entry Busy }
    ensures none { IsTrue K.tells → (K.holds keeper.old).schema ≡ no_schema → store.old ≡ None
        → (K.holds keeper.new ≡ K.holds keeper.old) × (store.new ≡ None) }
    ensures closed { K.unclosed keeper.new ≡ K.unclosed keeper.old }
{
    let mut opened = open_store(location, store, keeper)?;
    let made = session.step_asked(&mut opened, command, answers);
    *store = Some(opened);
    match made {
        Ok(_) => Ok(()),
        Err(refusal) => Err(StoreUnavailable::Refused(refusal)),
    }
}

/// Takes the store out of its place; if there is none, it is opened under the lock that is held.
fn open_store<K: Keeper>(
    location: StoreLocation<'_>,
    store: &mut Option<Store<K::S>>,
    keeper: &mut K,
) -> Result<Store<K::S>, StoreUnavailable>
    ensures opened { IfOk result (λ opened. IsTrue K.tells → PresentsSeen (HasGiven K.gives K.will_wait location.entry)
        (AreSeen (HasGiven K.gives K.will_wait location.entry) (λ s. (state K.S.Store s).now) (K.holds keeper.old) store.old)
        (state K.S.Store opened).now) }
    ensures ours { OnOk result (IsTrue K.tells → store.old ≡ None → IsKnown (K.holds keeper.old)) }
    ensures refused { OnErr result ((IsTrue K.tells → K.holds keeper.new ≡ K.holds keeper.old) × (store.new ≡ store.old)) }
    ensures denied { OnErr result (IsDenied K.refuses K.will_wait location.entry) }
    ensures busy { result ≡ Err Busy → IsDeniedBy K.refuses K.will_wait location.entry Busy }
    ensures closed { K.unclosed keeper.new ≡ K.unclosed keeper.old }
{
    match store.take() {
        Some(opened) => Ok(opened),
        None => {
            keeper.wait_for_lock(location.waits);
            keeper.take(location.path, false)
        }
    }
}

/// Notes why no store is given out, unless another process has it.
fn note_denial<K: Keeper>(first_fault: &mut FirstFault, denial: StoreUnavailable, keeper: &K)
    ensures busy { denial ≡ Busy → first_fault.new ≡ first_fault.old }
    ensures noted { denial ≢ Busy → IsTrue (is_some first_fault.new.fault) }
    ensures later { IfSome first_fault.old.fault (λ first. first_fault.new.fault ≡ Some first) }
    ensures told { first_fault.new.is_told ≡ first_fault.old.is_told }
{
    if let StoreUnavailable::Refused(refusal) = denial {
        note_refusal(first_fault, Some(refusal), keeper);
    }
}

/// Notes the refusal of a store, if there is one.
fn note_refusal<K: Keeper>(first_fault: &mut FirstFault, refusal: Option<Refusal>, keeper: &K)
    ensures none { refusal ≡ None → first_fault.new ≡ first_fault.old }
    ensures noted { IfSome refusal (λ refusal. IsTrue (is_some first_fault.new.fault)) }
    ensures first { first_fault.old.fault ≡ None → IsRefusalNoted first_fault.new refusal }
    ensures cause { first_fault.old.fault ≡ None → IsCauseNoted (K.said keeper.now) first_fault.new refusal }
    ensures later { IfSome first_fault.old.fault (λ first. first_fault.new.fault ≡ Some first) }
    ensures told { first_fault.new.is_told ≡ first_fault.old.is_told }
{
    if let Some(refusal) = refusal {
        first_fault.note(FaultWithCause::of_store(RunFault::Refused(refusal), keeper));
    }
}
