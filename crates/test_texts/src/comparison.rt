//! Texts compared by both comparators (RFC 4790, 9.2 and 9.3).
use octets::Octets;
use sieve_match::{AsciiCasemap, Octet, contains, is, matches};
use std::alloc::AllocError;
use test_files::LinePart::Text;
use test_files::add_parts;

/// By which comparators a key is the value, and by which the value contains it.
pub fn add_comparison(out: &mut Octets, key: &[u8], value: &[u8]) -> Result<(), AllocError> {
    let equal = by(is::<Octet>(key, value), is::<AsciiCasemap>(key, value));
    let within = by(
        contains::<Octet>(key, value),
        contains::<AsciiCasemap>(key, value),
    );
    add_parts(out, &[Text(equal), Text(b" "), Text(within)])
}

/// By which comparators a pattern matches a value.
pub fn add_matches(out: &mut Octets, pattern: &[u8], value: &[u8]) -> Result<(), AllocError> {
    out.extend_from_slice(by(
        matches::<Octet>(pattern, value),
        matches::<AsciiCasemap>(pattern, value),
    ))
}

fn by(octets: bool, letters: bool) -> &'static [u8] {
    match (octets, letters) {
        (true, true) => b"both",
        (false, true) => b"letters",
        (true, false) => b"octets",
        (false, false) => b"neither",
    }
}
