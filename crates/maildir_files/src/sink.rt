//! Where messages go that leave a store.
ghost use Rattle.std.specs.Prelude.{◌≡◌, ⊤, ℕ, Bool, List, [], ◌∷◌, ◌++◌, Option, IsTrue, IfErr, OnOk, OnErr, Contains};
ghost use Rattle.std_io.specs.declared.io.kind.ErrorKind.{ErrorKind};
ghost use Rattle.maildir_files.specs.declared.kept.KeptMail.{KeptMail};
ghost use Rattle.maildir_files.specs.declared.sink.SinkError.{SinkError};
ghost use Rattle.maildir_files.specs.Kept.{MayKeep, StaysTrue, StaysPlaced, kept_mail};

use std::alloc::AllocError;
use std::io::ErrorKind;

/// Why a message isn't kept.
#[derive(Clone, Copy, Debug, PartialEq, Eq)]
pub enum SinkError {
    /// Memory that was asked for was refused.
    Memory,
    /// The path is no Maildir: `tmp` or `new` isn't there.
    NoMaildir,
    /// A call of the system failed.
    Failed,
}

impl From<AllocError> for SinkError {
    ghost use Rattle.std.specs.Prelude.{◌≡◌};
    ghost use Rattle.maildir_files.specs.declared.sink.SinkError.TheVariants.{Memory};

    ghost from_gives = { λ _ error. error ≡ Memory };

    fn from(_refused: AllocError) -> SinkError {
        SinkError::Memory
    }
}

/// Keeps messages that leave a store: each by itself (`keep`), or several together (`put` each, then `settle` once).
pub trait MailSink {
    /// Whether it tells what it keeps. One over memory does, one over files doesn't.
    ghost tells: { Bool };

    /// The messages that it keeps, each with its user, folder and number, in the order in which they came, if it tells them.
    ghost kept: { Self → List KeptMail };

    /// Those that were put since the place was opened and aren't settled, in order, if it tells them.
    ghost unsettled: { Self → List KeptMail };

    /// What the system said of the last failure.
    ghost said: { Self → Option ErrorKind };

    /// Holds from an Ok of `open` with that path to the next `open`; nothing else grants it.
    ghost is_at: { Self → List ℕ → Type 0 } = { λ _ _. ⊤ };

    /// Holds of a message that was put while the sink was at the path, until it is settled, or a place is opened. Only an Ok of `put`
    /// grants it.
    ghost has_put: { Self → List ℕ → KeptMail → Type 0 } = { λ _ _ _. ⊤ };

    /// Holds of a message that was kept while the sink was at the path, or put then and settled later, from then on. Only an Ok of `keep`
    /// or of `settle` grants it.
    ghost keeps_at: { Self → List ℕ → KeptMail → Type 0 } = { λ _ _ _. ⊤ };

    /// What holds of a sink that refused a call, and why. Only refusals say it, so who can say it of any sink asked it, and was refused
    /// so.
    ghost refuses: { Self → SinkError → Type 0 } = { λ _ _. ⊤ };

    /// Opens the place at the path: what is kept from now on is kept there. After Ok a crash doesn't lose the place, whoever made it.
    /// What was put before and isn't settled won't be.
    ///
    /// # Errors
    ///
    /// `NoMaildir` if the path isn't one; otherwise why it can't be looked at or synced. The place that was open before stays.
    fn open(&mut self, path: &str) -> Result<(), SinkError>
        ensures placed { OnOk result (is_at self.new path.now) }
        ensures unmoved { OnErr result (StaysTrue is_at self.old self.new) }
        ensures same { IsTrue tells → kept self.new ≡ kept self.old }
        ensures fresh { OnOk result (IsTrue tells → unsettled self.new ≡ []) }
        ensures waits { OnErr result (IsTrue tells → unsettled self.new ≡ unsettled self.old) }
        ensures still_put { OnErr result (StaysPlaced has_put self.old self.new) }
        ensures still_kept { StaysPlaced keeps_at self.old self.new }
        ensures denied { IfErr result (refuses self.old) };

    /// Makes the place at the path, if that isn't there, within one that is. After Ok a crash doesn't lose it. What is open stays
    /// open.
    ///
    /// # Errors
    ///
    /// Why it can't be made. A part of it may be there then.
    fn make(&mut self, path: &str) -> Result<(), SinkError>
        ensures unmoved { StaysTrue is_at self.old self.new }
        ensures same { IsTrue tells → kept self.new ≡ kept self.old }
        ensures waits { IsTrue tells → unsettled self.new ≡ unsettled self.old }
        ensures still_put { StaysPlaced has_put self.old self.new }
        ensures still_kept { StaysPlaced keeps_at self.old self.new }
        ensures denied { IfErr result (refuses self.old) };

    /// Makes a directory at the path, on the way to a place, if none is there, within one that is. After Ok a crash doesn't lose its name.
    ///
    /// # Errors
    ///
    /// Why it can't be made; a link is none.
    fn make_way(&mut self, path: &str) -> Result<(), SinkError>
        ensures unmoved { StaysTrue is_at self.old self.new }
        ensures same { IsTrue tells → kept self.new ≡ kept self.old }
        ensures waits { IsTrue tells → unsettled self.new ≡ unsettled self.old }
        ensures still_put { StaysPlaced has_put self.old self.new }
        ensures still_kept { StaysPlaced keeps_at self.old self.new }
        ensures denied { IfErr result (refuses self.old) };

    /// Has clients list the folder at a place within its user's, if that can be done: who can't see the list goes without.
    ///
    /// # Errors
    ///
    /// Why it can't be done yet: another program is changing the list.
    fn subscribe(&mut self, home: &str, place: &str) -> Result<(), SinkError>
        ensures unmoved { StaysTrue is_at self.old self.new }
        ensures same { IsTrue tells → kept self.new ≡ kept self.old }
        ensures waits { IsTrue tells → unsettled self.new ≡ unsettled self.old }
        ensures still_put { StaysPlaced has_put self.old self.new }
        ensures still_kept { StaysPlaced keeps_at self.old self.new }
        ensures denied { IfErr result (refuses self.old) };

    /// Keeps the message that has this number in the user's folder, with the flags that the text names, so that a crash after Ok doesn't
    /// lose it. What an earlier try kept of the same message under the same number isn't kept twice (a Maildir: while it is where that
    /// put it).
    ///
    /// # Errors
    ///
    /// `NoMaildir` if no place is open; otherwise why the message isn't kept for sure. It may be kept nevertheless.
    fn keep(
        &mut self,
        user: &[u8],
        folder: &[u8],
        number: u64,
        message: &[u8],
        flags: &[u8],
    ) -> Result<(), SinkError>
        ensures stays { StaysTrue is_at self.old self.new }
        ensures kept { OnOk result (IsTrue tells → kept self.new ≡ kept self.old ++ kept_mail user.now folder.now number message.now flags.now ∷ []) }
        ensures refused { OnErr result (IsTrue tells → MayKeep (kept self.old) (kept_mail user.now folder.now number message.now flags.now) (kept self.new)) }
        ensures kept_there { OnOk result ((path : List ℕ) → is_at self.old path → keeps_at self.new path (kept_mail user.now folder.now number message.now flags.now)) }
        ensures waits { IsTrue tells → unsettled self.new ≡ unsettled self.old }
        ensures still_put { StaysPlaced has_put self.old self.new }
        ensures still_kept { StaysPlaced keeps_at self.old self.new }
        ensures denied { IfErr result (refuses self.old) };

    /// Puts the message at the place that is open, as `keep` does, but for what a crash leaves: that doesn't lose it once it is settled. It
    /// may be seen before.
    ///
    /// # Errors
    ///
    /// `NoMaildir` if no place is open; otherwise why the message isn't put for sure. Those that were put before still are.
    fn put(
        &mut self,
        user: &[u8],
        folder: &[u8],
        number: u64,
        message: &[u8],
        flags: &[u8],
    ) -> Result<(), SinkError>
        ensures stays { StaysTrue is_at self.old self.new }
        ensures same { IsTrue tells → kept self.new ≡ kept self.old }
        ensures put { OnOk result (IsTrue tells → unsettled self.new ≡ unsettled self.old ++ kept_mail user.now folder.now number message.now flags.now ∷ []) }
        ensures waits { OnErr result (IsTrue tells → unsettled self.new ≡ unsettled self.old) }
        ensures put_there { OnOk result ((path : List ℕ) → is_at self.old path → has_put self.new path (kept_mail user.now folder.now number message.now flags.now)) }
        ensures still_put { StaysPlaced has_put self.old self.new }
        ensures still_kept { StaysPlaced keeps_at self.old self.new }
        ensures denied { IfErr result (refuses self.old) };

    /// Makes sure of the messages that were put since the place was opened: a crash after Ok doesn't lose them.
    ///
    /// # Errors
    ///
    /// Why none of them is kept for sure; they may be there nevertheless. Each has to be put again.
    fn settle(&mut self) -> Result<(), SinkError>
        ensures stays { StaysTrue is_at self.old self.new }
        ensures settled { OnOk result (IsTrue tells → kept self.new ≡ kept self.old ++ unsettled self.old) }
        ensures refused { OnErr result (IsTrue tells → kept self.new ≡ kept self.old) }
        ensures none_waits { IsTrue tells → unsettled self.new ≡ [] }
        ensures kept_there { OnOk result ((path : List ℕ) (mail : KeptMail) → has_put self.old path mail → keeps_at self.new path mail) }
        ensures still_kept { StaysPlaced keeps_at self.old self.new }
        ensures denied { IfErr result (refuses self.old) };

    /// What the system said of the last failure; none if it said nothing.
    fn cause(&self) -> Option<ErrorKind>
        ensures { result ≡ said self.now };

    /// A sink that tells its messages has each of which it holds that it keeps it there.
    ghost told: { (sink : Self) (path : List ℕ) (mail : KeptMail) → keeps_at sink path mail → IsTrue tells → Contains (kept sink) mail };
}
