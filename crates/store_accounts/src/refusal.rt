//! Why a call is refused.
use sqlite::{Error, ErrorCode};
use std::alloc::{AllocError, AllocFailed};
use thiserror::Error as Derived;

/// The refusals of the store and of the engine above it. `Memory` and `Store` may come at any call;
/// the others have their cause in the arguments or in what the store holds.
#[derive(Clone, Copy, Debug, PartialEq, Eq, Derived)]
pub enum Refusal {
    /// Memory ran out.
    #[error("out of memory")]
    Memory,
    /// The disk failed or is full, a number doesn't fit, or a statement was refused.
    #[error("store failed")]
    Store,
    /// The tables or their version are not those of this store.
    #[error("not a sieved database")]
    NotOurs,
    /// No account has the name.
    #[error("no such user")]
    NoUser,
    /// The message has more than 33,554,432 octets.
    #[error("message too large")]
    TooLarge,
    /// An envelope address has more than 1,024 octets, or CR, LF or NUL.
    #[error("bad envelope address")]
    BadEnvelope,
    /// The moment is past the year 9999.
    #[error("bad moment")]
    BadMoment,
    /// An account has the name.
    #[error("user exists")]
    UserExists,
    /// The name, address or password is not allowed.
    #[error("bad user")]
    BadUser,
    /// No row of the queue has the number.
    #[error("no such row")]
    NoRow,
    /// The user's account is closed.
    #[error("account is closed")]
    AccountClosed,
    /// The user's account is open already.
    #[error("user is open")]
    UserIsOpen,
    /// The user has messages in folders, or on their way out.
    #[error("user has mail")]
    UserHasMail,
    /// No script may have the name.
    #[error("bad script name")]
    BadScriptName,
    /// The script has more than 262,144 octets.
    #[error("script too large")]
    ScriptTooLarge,
    /// The user has 32 scripts, and none with the name.
    #[error("too many scripts")]
    TooManyScripts,
    /// The account in a text can't be kept: its name is no user's name, its address is no addr-spec, a script isn't
    /// valid or is too large, has a name that no script may have, or there are too many.
    #[error("bad account")]
    BadAccount,
}

impl From<AllocError> for Refusal {
    ghost use Rattle.std.specs.Prelude.{◌≡◌};
    ghost use Rattle.store_accounts.specs.declared.refusal.Refusal.TheVariants.{Memory};

    ghost from_gives = { λ _ e. e ≡ Memory };

    fn from(_: AllocError) -> Refusal {
        Refusal::Memory
    }
}

impl<T: Drop> From<AllocFailed<T>> for Refusal {
    ghost use Rattle.std.specs.Prelude.{◌≡◌};
    ghost use Rattle.store_accounts.specs.declared.refusal.Refusal.TheVariants.{Memory};

    ghost from_gives = { λ _ e. e ≡ Memory };

    fn from(_: AllocFailed<T>) -> Refusal {
        Refusal::Memory
    }
}

impl From<Error> for Refusal {
    ghost use Rattle.store_accounts.specs.Refusals.{IsTransient, IsMemoryBy, code_in};

    ghost from_gives = { λ error e. IsTransient e × IsMemoryBy (code_in error) e };

    fn from(error: Error) -> Refusal {
        match error {
            Error::SqliteFailure(ErrorCode::OutOfMemory) => Refusal::Memory,
            _ => Refusal::Store,
        }
    }
}
