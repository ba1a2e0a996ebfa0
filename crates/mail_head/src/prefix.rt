//! Whether a prefix of a message contains its header.
ghost use Rattle.std.specs.Prelude.{◌≡◌, nat_lt};
ghost use Rattle.mail_head.specs.Heads.{body_start};
ghost use Rattle.mail_head.specs.Prefixes as fronts;

use crate::{after_empty_line, first_line};

/// Whether some line of a text is empty: then it contains the whole header of any message that begins with it
/// (`laws::fields_of_a_front`).
///
/// One pass up to that line; takes no memory.
pub fn has_empty_line(text: &[u8]) -> bool
    ensures { result ≡ fronts.has_empty_line text.now }
{
    let mut rest = text;
    while !rest.is_empty() {
        if after_empty_line(rest).is_some() {
            return true;
        }
        (_, rest) = first_line(rest);
    }
    false
}

/// Whether the header of a message, including the empty line that ends it, has more than `most` octets; if no line is empty, the whole
/// message is its header.
///
/// One pass over at most that many octets, however long the message is; takes no memory.
pub fn is_header_longer(message: &[u8], most: usize) -> bool
    ensures { result ≡ nat_lt most (body_start message.now) }
{
    if message.len() <= most {
        return false;
    }
    !has_empty_line(&message[..most])
}
