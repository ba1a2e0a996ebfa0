//! Messages with a long header.
ghost use Rattle.std.specs.Prelude.{◌≡◌};
ghost use Rattle.sieve_plan.specs.Delivered as delivered;

use mail_head::is_header_longer;

/// The most octets of a header whose fields are read, including the empty line that ends it: 1 MiB.
///
/// All fields are read before a script runs, and a field of three octets takes some 70 octets of memory.
const MAX_HEADER: usize = 1_048_576;

/// Whether a message's header has more than [`MAX_HEADER`] octets, including the empty line that ends it; if no line is empty, the
/// whole message is its header.
///
/// One pass up to that line, and over at most [`MAX_HEADER`] octets; takes no memory.
pub fn has_long_header(message: &[u8]) -> bool
    ensures { result ≡ delivered.has_long_header message.now }
{
    is_header_longer(message, MAX_HEADER)
}
