//! What variables make of strings (RFC 5229), on octets: templates, their expansion, and the modifiers of `set`.
//!
//! Which variables there are and what they hold isn't decided here.
#![tactic(auto)]

pub mod expansion;
pub mod laws;
pub mod limits;
pub mod modifier;
mod reference;
pub mod template;
pub mod value;

pub use expansion::{Variables, expand};
pub use limits::{
    MAX_MATCH_VARIABLE, MAX_VALUE_CHARACTERS, MAX_VALUE_OCTETS, MAX_VARIABLE_NAME, MAX_VARIABLES,
};
pub use modifier::{Modifier, find_conflict, set_value};
pub use reference::is_variable_name;
pub use template::{Piece, Template, has_reference, read_template};
pub use value::{count_characters, cut_value};
