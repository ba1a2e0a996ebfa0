//! Text as octets: the small types and words that the crates of the workspace share.
//!
//! Nothing here knows about mail. A text is a list of octets, and that is what contracts see.
#![tactic(auto)]

pub mod ascii;
pub mod decimal;
pub mod laws;
pub mod list;
pub mod pending;
pub mod string;

pub use ascii::{is_blank, is_letter, is_printable, lowered, trim_blanks};
pub use decimal::{parse_decimal, write_decimal};
pub use list::{List, Texts};
pub use pending::Pending;
pub use string::{Octets, as_deref};
