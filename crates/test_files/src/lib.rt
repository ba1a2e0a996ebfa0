//! Files of cases: how octets, tables and sections are written in them, and how each of their cases is compared with what is wanted.
#![tactic(auto)]

mod line;
mod message;
mod part;
mod row;
mod section;
mod tally;
mod text;

pub use line::{Lines, try_lines};
pub use message::Message;
pub use part::{LinePart, add_parts};
pub use row::{Answers, try_rows};
pub use section::{Section, Sections, try_sections};
pub use tally::CaseTally;
pub use text::{decode_cell, split_at_first, text_in, trim_end, with_ends, words_of};
