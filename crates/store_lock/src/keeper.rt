//! The contract of a store's keeper.
ghost use Rattle.std.specs.Prelude.{◌≡◌, ⊤, ℕ, Bool, false, List, Option, None, is_some, IsTrue, IfOk, IfErr, IfSome, OnOk, OnErr, option_copied};
ghost use Rattle.sqlite.specs.Effect.{Database};
ghost use Rattle.sqlite.specs.Held as sqlite;
ghost use Rattle.sqlite.specs.Held.{state};
ghost use Rattle.sqlite.specs.State.{HasCleanDisk};
ghost use Rattle.store_accounts.specs.Schema.{no_schema, mail_schema};
ghost use Rattle.store_accounts.specs.Connection.{StaysSame, IsSettled};
ghost use Rattle.store_accounts.specs.Account.{no_accounts};
ghost use Rattle.store_accounts.specs.declared.refusal.Refusal.{Refusal};
ghost use Rattle.store_accounts.specs.Refusals.{IsTransient};
ghost use Rattle.store_accounts.specs.Opening.{IsKnown};
ghost use Rattle.store_accounts.specs.Shows.{Presents, OpensAs};
ghost use Rattle.store_lock.specs.Taken.{IsStoreTaken};
ghost use Rattle.store_lock.specs.declared.keeper.StoreUnavailable.{StoreUnavailable};

use sqlite::{Alter, Connection, ErrorCode};
use std::alloc::Global;
use store_accounts::{Refusal, Store};

/// Why no store is given out.
#[derive(Clone, Copy, Debug, PartialEq, Eq)]
pub enum StoreUnavailable {
    /// Another process has it.
    Busy,
    /// It can't be opened or made.
    Refused(Refusal),
}

impl From<Refusal> for StoreUnavailable {
    ghost use Rattle.std.specs.Prelude.{◌≡◌};
    ghost use Rattle.store_lock.specs.declared.keeper.StoreUnavailable.TheVariants.{Refused};

    ghost from_gives = { λ refusal denial. denial ≡ Refused refusal };

    fn from(refusal: Refusal) -> StoreUnavailable {
        StoreUnavailable::Refused(refusal)
    }
}

/// Gives a store out to one caller at a time, and takes it back.
pub trait Keeper {
    /// The storage of the database.
    type S: Alter + Drop;

    /// Whether it tells its tables. A keeper over memory does, one over a file doesn't.
    ghost tells: { Bool };

    /// What the tables hold between two calls, if it tells them.
    ghost holds: { Self → Database };

    /// Whether the lock is out, alone or with a store: it was taken, and not given back yet.
    ghost is_out: { Self → Bool };

    /// Why the store that was handed back last couldn't be closed, until that is asked for.
    ghost unclosed: { Self → Option Refusal };

    /// Whether it waits for a lock that another process has.
    ghost will_wait: { Self → Bool };

    /// What is known of the last failure.
    ghost said: { Self → Option (List ℕ) };

    /// What may be reported of closing a store that this keeper takes back.
    ghost closes: { Self → sqlite.Held Self.S → Option Refusal → Type 0 };

    /// What is true of a keeper that gave its store out at a path. Only an Ok of `take` says it, so whoever can say it of any keeper
    /// took its store at that path.
    ghost gives: { Self → List ℕ → Type 0 } = { λ _ _. ⊤ };

    /// What holds of a keeper that refused a path for this cause: the lock, while it wasn't out, or the store. Only the refusals of `lock`
    /// and `take` say it, so whoever can say it of any keeper asked it for that path, and was refused with that cause.
    ghost refuses: { Self → List ℕ → StoreUnavailable → Type 0 } = { λ _ _ _. ⊤ };

    /// Sets whether a call of `lock` or `take` waits for a lock that another process has, or answers Busy.
    fn wait_for_lock(&mut self, waits: bool)
        ensures asked { will_wait self.new ≡ waits }
        ensures same { IsTrue tells → holds self.new ≡ holds self.old }
        ensures kept { is_out self.new ≡ is_out self.old }
        ensures closed { unclosed self.new ≡ unclosed self.old };

    /// Takes the lock of the store at a path, without opening anything. A store that is taken before the lock is given back is
    /// opened under it.
    ///
    /// # Errors
    ///
    /// `Busy` if another process has the lock and there is no waiting; else why it can't be taken. The tables stay as they are.
    fn lock(&mut self, path: &str) -> Result<(), StoreUnavailable>
        ensures same { IsTrue tells → holds self.new ≡ holds self.old }
        ensures out { OnOk result (IsTrue (is_out self.new)) }
        ensures kept { OnErr result (is_out self.new ≡ is_out self.old) }
        ensures denied { IfErr result (λ denial. is_out self.old ≡ false → refuses self.old path.now denial) }
        ensures closed { unclosed self.new ≡ unclosed self.old };

    /// Whether somebody waits for the lock of the store at a path. Doesn't wait, and neither takes the lock nor
    /// gives it back.
    fn is_awaited(&mut self, path: &str) -> bool
        ensures same { IsTrue tells → holds self.new ≡ holds self.old }
        ensures kept { is_out self.new ≡ is_out self.old }
        ensures closed { unclosed self.new ≡ unclosed self.old };

    /// Takes the lock that a daemon of the store at a path has for life: no other daemon has it meanwhile. Doesn't wait, and
    /// leaves the store and its own lock as they are.
    ///
    /// # Errors
    ///
    /// `Busy` if another daemon has it; else why it can't be taken.
    fn lock_for_life(&mut self, path: &str) -> Result<(), StoreUnavailable>
        ensures same { IsTrue tells → holds self.new ≡ holds self.old }
        ensures kept { is_out self.new ≡ is_out self.old }
        ensures closed { unclosed self.new ≡ unclosed self.old };

    /// Gives the lock back; no store is out under it.
    fn unlock(&mut self)
        ensures same { IsTrue tells → holds self.new ≡ holds self.old }
        ensures back { is_out self.new ≡ false }
        ensures closed { unclosed self.new ≡ unclosed self.old };

    /// Gives out the store at a path: the one that is there, or with `fresh` a new one. Each store is handed back before the next
    /// is taken. The lock is taken first, unless `lock` has taken it.
    ///
    /// # Errors
    ///
    /// `Busy` if another process has the store and there is no waiting; else why it can't be opened, or made. The
    /// tables stay as they are.
    fn take(&mut self, path: &str, fresh: bool) -> Result<Store<Self::S>, StoreUnavailable>
        ensures taken { IfOk result (λ store. IsTrue tells → IsStoreTaken fresh (holds self.old) (state Self.S.Store store).now) }
        ensures settled { IfOk result (λ store. IsTrue tells → IsSettled (state Self.S.Store store)) }
        ensures refused { OnErr result (IsTrue tells → holds self.new ≡ holds self.old) }
        ensures out { OnOk result (IsTrue (is_out self.new)) }
        ensures kept { OnErr result (is_out self.new ≡ is_out self.old) }
        ensures given { OnOk result (gives self.old path.now) }
        ensures denied { IfErr result (refuses self.old path.now) }
        ensures closed { unclosed self.new ≡ unclosed self.old };

    /// Whether the file at the path is still the one that was opened there: it isn't removed, nor replaced. Only then is what the
    /// store that is out has written in the file at its path.
    fn is_there(&self, path: &str) -> bool
        ensures there { IsTrue tells → IsTrue result };

    /// Takes the store back out of its place, closes it, and gives the lock back. If it can't be closed, what was
    /// committed stays, and the next one to take the store finds it; `take_close_error` returns why.
    fn put_back(&mut self, store: &mut Option<Store<Self::S>>)
        requires { IsTrue (is_some store.old) }
        ensures held { IfSome store.old (λ given. IsTrue tells → holds self.new ≡ (state Self.S.Store given).now) }
        ensures back { is_out self.new ≡ false }
        ensures emptied { store.new ≡ None }
        ensures told { IfSome store.old (λ given. closes self.old given (unclosed self.new)) }
        ensures named { IfSome (unclosed self.new) IsTransient };

    /// Hands a taken store back, as `put_back` does. It is the trait's own, since the toolchain doesn't prove an impl whose method
    /// takes the store by value.
    final fn hand_back(&mut self, store: Store<Self::S>)
        ensures held { IsTrue tells → holds self.new ≡ (state Self.S.Store store).now }
        ensures back { is_out self.new ≡ false }
        ensures told { closes self.old store (unclosed self.new) }
        ensures named { IfSome (unclosed self.new) IsTransient }
    {
        let mut given = Some(store);
        self.put_back(&mut given)
    }

    /// Why the store that was handed back last couldn't be closed, `Store` or `Memory`, unless that was asked for
    /// already; `None` if it was closed.
    fn take_close_error(&mut self) -> Option<Refusal>
        ensures error { result ≡ unclosed self.old }
        ensures asked { unclosed self.new ≡ None }
        ensures said { said self.new ≡ said self.old }
        ensures same { IsTrue tells → holds self.new ≡ holds self.old }
        ensures kept { is_out self.new ≡ is_out self.old };

    /// What the system or SQLite said of the last failure that this keeper, or a store that it took back, answered as
    /// `Store`: a text for a person, without a line end. `None` if nothing is known of it.
    fn cause(&self) -> Option<&'static str>
        ensures { option_copied result ≡ said self.now };

    // If it tells them, nothing shuts a store or makes it lie.
    ghost sure: { (held : sqlite.Held Self.S) → IsTrue tells → HasCleanDisk (state Self.S.Store held) × IsTrue (state Self.S.Store held).is_open };
}

/// Opens the store of a database: the one that is there, or with `fresh` a new one.
pub(crate) fn store_of<S: Alter + Drop>(
    alloc: Global,
    conn: Connection<S>,
    fresh: bool,
) -> Result<Store<S>, (Refusal, Connection<S>, Option<ErrorCode>)>
    ensures opened { IfOk result (λ store. HasCleanDisk (state S.Store store) → fresh ≡ false → OpensAs (state S.Store conn).now (state S.Store store).now) }
    ensures same { IfOk result (λ store. HasCleanDisk (state S.Store store) → fresh ≡ false → conn.schema ≡ mail_schema
        → StaysSame (state S.Store conn) (state S.Store store)) }
    ensures ours { IfOk result (λ store. HasCleanDisk (state S.Store store) → fresh ≡ false → IsKnown (state S.Store conn).now) }
    ensures made { IfOk result (λ store. HasCleanDisk (state S.Store store) → IsTrue fresh → Presents (state S.Store store).now no_accounts) }
    ensures settled { IfOk result (λ store. HasCleanDisk (state S.Store store) → IsSettled (state S.Store store)) }
    ensures blank { IfOk result (λ store. IsTrue fresh → conn.schema ≡ no_schema) }
    ensures refused { IfErr result (λ e. HasCleanDisk (state S.Store e.1) → StaysSame (state S.Store conn) (state S.Store e.1)) }
{
    if fresh {
        Store::create(alloc, conn)
    } else {
        Store::open(alloc, conn)
    }
}

/// The connection of a store, and what SQLite said of the last write that it refused.
pub(crate) fn release<S: Alter>(store: Store<S>) -> (Connection<S>, Option<ErrorCode>)
    ensures { result.0 ≡ store }
{
    let cause = store.cause();
    (store.release(), cause)
}
