//! Octets as a text between quotation marks.
use octets::Octets;
use std::alloc::{AllocError, Global};

/// Where a text is.
#[derive(Clone, Copy, Debug, PartialEq, Eq)]
enum Place {
    /// Before its first quotation mark.
    Before,
    /// Among its octets.
    Within,
    /// After a `\`.
    Escaped,
    /// After `\x`.
    High,
    /// After `\x` and a digit of this value.
    Low(u8),
    /// After its last quotation mark.
    Behind,
    /// Nowhere: it isn't such a text.
    Wrong,
}

/// The octets of a text between quotation marks, in which `\r`, `\n`, `\"`, `\\` and `\xHH` are one each; none if it isn't
/// such a text.
pub fn unquoted(alloc: Global, text: &[u8]) -> Result<Option<Octets>, AllocError> {
    let mut out = Octets::new(alloc);
    let mut place = Place::Before;
    for octet in text {
        place = take(&mut out, place, *octet)?;
    }
    match place {
        Place::Behind => Ok(Some(out)),
        _ => Ok(None),
    }
}

/// One octet of the text.
fn take(out: &mut Octets, place: Place, octet: u8) -> Result<Place, AllocError> {
    match place {
        Place::Before => Ok(if octet == b'"' {
            Place::Within
        } else {
            Place::Wrong
        }),
        Place::Within => take_plain(out, octet),
        Place::Escaped => take_escaped(out, octet),
        Place::High => Ok(match digit(octet) {
            Some(high) => Place::Low(high),
            None => Place::Wrong,
        }),
        Place::Low(high) => take_low(out, high, octet),
        Place::Behind | Place::Wrong => Ok(Place::Wrong),
    }
}

fn take_plain(out: &mut Octets, octet: u8) -> Result<Place, AllocError> {
    match octet {
        b'"' => Ok(Place::Behind),
        b'\\' => Ok(Place::Escaped),
        _ => put(out, octet),
    }
}

fn take_escaped(out: &mut Octets, octet: u8) -> Result<Place, AllocError> {
    match octet {
        b'r' => put(out, b'\r'),
        b'n' => put(out, b'\n'),
        b'"' | b'\\' => put(out, octet),
        b'x' => Ok(Place::High),
        _ => Ok(Place::Wrong),
    }
}

fn take_low(out: &mut Octets, high: u8, octet: u8) -> Result<Place, AllocError> {
    match digit(octet) {
        Some(low) => put(out, high.wrapping_mul(16) | low),
        None => Ok(Place::Wrong),
    }
}

fn put(out: &mut Octets, octet: u8) -> Result<Place, AllocError> {
    out.push(octet)?;
    Ok(Place::Within)
}

/// The value of a digit of base 16.
fn digit(octet: u8) -> Option<u8> {
    match octet {
        b'0'..=b'9' => Some(octet - b'0'),
        b'a'..=b'f' => Some(octet - b'a' + 10),
        b'A'..=b'F' => Some(octet - b'A' + 10),
        _ => None,
    }
}
