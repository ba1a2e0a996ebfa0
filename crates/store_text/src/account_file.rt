//! The contents of an account's text.
ghost use Rattle.std.proofs.Props.{props};
ghost use Rattle.store_text.specs.Text.{IsAccount};

use crate::head::AccountHead;
use crate::part::Part;
use octets::List;
use std::alloc::{AllocError, AllocFailed};

/// The contents of an account's text: what the account has once, and its parts. They are those of an account: in their order, with
/// numbers that were given, no field too long, and the active script among them. So whoever holds one may write it.
#[derive(Debug, Drop)]
pub struct AccountFile {
    pub head: AccountHead,
    pub parts: List<Part>,
    pub ghost is_account: { IsAccount head parts } by { Prim.hlevel props },
}

/// Why a text can't be read.
#[derive(Clone, Copy, Debug, PartialEq, Eq)]
pub enum AccountReadError {
    /// Memory ran out.
    Memory,
    /// It is not the text of an account, or one of another version.
    NotAnAccount,
}

impl From<AllocError> for AccountReadError {
    ghost use Rattle.std.specs.Prelude.{◌≡◌};
    ghost use Rattle.store_text.specs.declared.account_file.AccountReadError.TheVariants.{Memory};

    ghost from_gives = { λ _ error. error ≡ Memory };

    fn from(_refused: AllocError) -> AccountReadError {
        AccountReadError::Memory
    }
}

impl<T: Drop> From<AllocFailed<T>> for AccountReadError {
    ghost use Rattle.std.specs.Prelude.{◌≡◌};
    ghost use Rattle.store_text.specs.declared.account_file.AccountReadError.TheVariants.{Memory};

    ghost from_gives = { λ _ error. error ≡ Memory };

    fn from(_refused: AllocFailed<T>) -> AccountReadError {
        AccountReadError::Memory
    }
}
