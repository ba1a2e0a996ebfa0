//! The tokens of a Sieve script (RFC 5228, 8.1).
#![tactic(auto)]

mod class;
mod encoded;
mod fault;
mod front;
pub mod laws;
mod multiline;
mod number;
mod packed;
mod quoted;
mod said;
mod scanner;
mod space;
mod text;
mod token;

pub use encoded::decode;
pub use fault::{FaultKind, ScriptError, ScriptFault};
pub use packed::{ContentRef, Cursor, Packed, line_of, pack};
pub use said::Said;
pub use scanner::tokens;
pub use token::{Content, Mark, Token};
