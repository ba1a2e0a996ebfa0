//! Mail addresses: the addresses of a header value, the address that a script or a command names, and its spelling.
//!
//! The rules are those of RFC 5322, 3.2 and 3.4, with its obsolete forms (4.4) as far as they are useful: blanks and
//! comments may be between any two tokens, a route before an address is skipped, and a part of a list that isn't
//! an address gives none and doesn't affect its neighbours. Nothing here recurses. Each octet is looked at a fixed number of
//! times: when its piece is cut off, when the piece joins the others of its address, and when the address is copied.
#![tactic(auto)]

pub mod address;
mod draft;
pub mod laws;
pub mod list;
pub mod outbound;
mod pieces;
mod scanner;

pub use address::{Addr, quote, spell_address};
pub use list::addresses;
pub use outbound::{bare_address, sieve_address};
