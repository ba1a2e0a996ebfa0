//! The limits of what is read of a message.

/// How many octets the body of a Content-Type or Content-Transfer-Encoding field may have. A longer one doesn't parse, so that what is
/// held of a field is small. Senders fold such fields to some lines of at most 998 octets (RFC 5322, section 2.1.1).
pub const MAX_FIELD_BODY: usize = 16384;

/// How many octets a boundary may have. RFC 2046, section 5.1.1, allows 70; a longer one that some sender writes still divides its parts.
/// A boundary line is a line, so with its two hyphens it has at most 998 octets (RFC 5322, section 2.1.1).
pub const MAX_BOUNDARY: usize = 996;

/// How many levels of parts may lie below the message. What lies deeper isn't looked into, but for whether there is any, so that the time
/// is at most that of 34 searches of the message.
pub const MAX_NESTING: u32 = 32;

/// How many parts of a message are read, the message itself included. Those behind aren't looked at, so that memory is bounded.
pub const MAX_PARTS: usize = 1000;
