//! The limits of variables (RFC 5229, section 6).

/// How many variables a script may name, the least that the RFC asks for: with [`MAX_VALUE_OCTETS`] a run holds 2 MiB at most.
pub const MAX_VARIABLES: usize = 128;

/// How many octets a variable's name may have. The RFC asks for 32; names that programs make are longer.
pub const MAX_VARIABLE_NAME: usize = 64;

/// The number of the last match variable, `${9}`, the least that the RFC asks for. A greater one is to be a fault of the script.
pub const MAX_MATCH_VARIABLE: u32 = 9;

/// How many characters a variable holds, the least that the RFC asks for. A longer value is cut, which is no error.
pub const MAX_VALUE_CHARACTERS: usize = 4000;

/// How many octets a variable holds: 4,000 characters of UTF-8 have at most 16,000, and a power of two is above.
pub const MAX_VALUE_OCTETS: usize = 16384;
