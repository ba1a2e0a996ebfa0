//! The head of an internet message: its header fields, its body and its size (RFC 5322, section 2.2).
//!
//! A message is any list of octets. Nothing is refused: what isn't a field is skipped.
#![tactic(auto)]

mod header;
pub mod laws;
mod line;
mod message;
mod size;
mod unfolding;

pub use header::{Field, read_field};
pub use line::{first_line, logical_line, without_end};
pub use message::{Head, after_empty_line};
pub use unfolding::unfold_value;

// A message of which only a prefix is kept: which prefix contains its header, and a size that is counted piece by piece.

mod prefix;
pub mod prefix_laws;
mod size_count;

pub use prefix::{has_empty_line, is_header_longer};
pub use size_count::SizeCount;
