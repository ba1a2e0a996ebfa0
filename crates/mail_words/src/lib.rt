//! Encoded words in header values (RFC 2047): what they say, and how a text is written with them.
#![tactic(auto)]

mod charset;
mod decoding;
mod encoding;
mod folding;
pub mod laws;
mod phrase;
mod quoted;
mod run;
mod word;
mod written;

pub use decoding::decoded;
pub use encoding::header_text;
pub use phrase::has_phrase_words;
pub use written::{has_written_words, written_lines, written_text};
