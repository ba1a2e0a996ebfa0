//! Why a part of a script couldn't be read.
ghost use Rattle.std.specs.Prelude.{◌≡◌};
ghost use Rattle.sieve_syntax.specs.declared.error.ParseError.TheVariants.{Memory};

use sieve_lex::FaultKind;
use std::alloc::{AllocError, AllocFailed};

/// Why a part of a script couldn't be read. The line of a fault is that of the last token that was read.
#[derive(Debug, Drop)]
pub enum ParseError {
    /// An allocation failed.
    Memory,
    /// The script is not valid.
    Fault(FaultKind),
}

impl From<AllocError> for ParseError {
    ghost from_gives = { λ _ e. e ≡ Memory };

    fn from(_refused: AllocError) -> ParseError {
        ParseError::Memory
    }
}

impl<T: Drop> From<AllocFailed<T>> for ParseError {
    ghost from_gives = { λ _ e. e ≡ Memory };

    fn from(_refused: AllocFailed<T>) -> ParseError {
        ParseError::Memory
    }
}
