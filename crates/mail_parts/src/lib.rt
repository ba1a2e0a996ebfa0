//! The MIME structure of a message (RFC 2045, RFC 2046): its parts, what they are, and what their bodies stand for.
//!
//! A message is any list of octets. Nothing is refused: what isn't MIME is text/plain.
#![tactic(auto)]

mod base64_body;
mod blanks;
mod decoding;
mod entity;
pub mod laws;
mod letter;
mod limits;
mod media_type;
mod part;
mod quoted_printable;
mod section;
mod sections;
mod selection;
mod transfer_encoding;
mod walk;

pub use decoding::{BodyOctets, decode_body};
pub use limits::{MAX_BOUNDARY, MAX_FIELD_BODY, MAX_NESTING, MAX_PARTS};
pub use media_type::MediaType;
pub use part::MailPart;
pub use selection::{ContentTexts, content_texts, selects};
pub use transfer_encoding::TransferEncoding;
pub use walk::{MailParts, read_parts};
