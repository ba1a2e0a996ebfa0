//! How a value stands in a field.
ghost use Rattle.std.specs.Prelude.{◌≡◌, ◌∷◌, ◌++◌, ◌≤◌, ◌*◌, length, IfOk, OnOk, MatchOption};
ghost use Rattle.dovecot_userdb.specs.Escapes as s;

use octets::Octets;
use std::alloc::{AllocError, Global};

/// It precedes the mark of an octet that may not stand in a field.
const ESCAPE: u8 = 1;

/// Appends a value as it stands in a field. Time and memory are linear in its octets; lack of memory is the only error.
pub(crate) fn push_escaped(field: &mut Octets, value: &[u8]) -> Result<(), AllocError>
    ensures { OnOk result (field.new ≡ field.old ++ s.tab_escaped value.now) }
{
    for octet in value {
        match mark_of(*octet) {
            Some(mark) => field.extend_from_slice(&[ESCAPE, mark])?,
            None => field.push(*octet)?,
        }
    }
    Ok(())
}

/// How many octets a value has as it stands in a field. Takes no memory.
pub(crate) fn escaped_len(value: &[u8]) -> usize
    requires { length value.now ≤ 65536 }
    ensures { result ≡ length (s.tab_escaped value.now) }
{
    let mut count: usize = 0;
    for octet in value {
        count += match mark_of(*octet) {
            Some(_) => 2,
            None => 1,
        };
    }
    count
}

/// The value that stands so in a field; none if none does. Lack of memory is the only error.
pub(crate) fn read_escaped(alloc: Global, text: &[u8]) -> Result<Option<Octets>, AllocError>
    ensures { IfOk result (λ read. s.ReadsValue text.now read) }
{
    let mut value = Octets::new(alloc);
    let mut left = text;
    while let Some((first, rest)) = left.split_first() {
        let Some((octet, after)) = read_octet(*first, rest) else {
            return Ok(None);
        };
        value.push(octet)?;
        left = after;
    }
    Ok(Some(value))
}

// The octet of a value that stands first, and what follows it; none if none does.
fn read_octet(first: u8, rest: &[u8]) -> Option<(u8, &[u8])>
    ensures { MatchOption result (s.IsNoOctet (first ∷ rest.now)) (λ read. first ∷ rest.now ≡ s.tab_escaped_octet read.0 ++ read.1.now) }
{
    if first != ESCAPE {
        return match mark_of(first) {
            Some(_) => None,
            None => Some((first, rest)),
        };
    }
    let (mark, after) = rest.split_first()?;
    match octet_of(*mark) {
        Some(octet) => Some((octet, after)),
        None => None,
    }
}

// What follows the escape in place of an octet; none for one that stands for itself.
fn mark_of(octet: u8) -> Option<u8>
    ensures { result ≡ s.escape_mark octet }
{
    match octet {
        0 => Some(b'0'),
        ESCAPE => Some(b'1'),
        b'\t' => Some(b't'),
        b'\r' => Some(b'r'),
        b'\n' => Some(b'n'),
        _ => None,
    }
}

// The octet of which this is the mark.
fn octet_of(mark: u8) -> Option<u8>
    ensures { result ≡ s.octet_marked mark }
{
    match mark {
        b'0' => Some(0),
        b'1' => Some(ESCAPE),
        b't' => Some(b'\t'),
        b'r' => Some(b'\r'),
        b'n' => Some(b'\n'),
        _ => None,
    }
}
