//! What is written to the server.
ghost use Rattle.std.specs.Prelude.{◌≡◌, ◌↔◌, IfOk, IsTrue, MatchBool};
ghost use Rattle.dovecot_userdb.specs.Lines.{HasNone};
ghost use Rattle.dovecot_userdb.specs.Requests as s;

use crate::escape::{escaped_len, push_escaped};
use crate::line::cut_at;
use octets::{Octets, write_decimal};
use std::alloc::{AllocError, Global};

/// The most octets of a name, as it stands in a request: with all others of its line there are 1,024, of which Dovecot takes no more.
const MAX_NAME: usize = 992;

/// What a client says first: that it speaks version 1.1.
pub(crate) const HELLO: &[u8] = b"VERSION\t1\t1\n";

/// Whether a name can be asked for: it has no NUL, at which Dovecot would end it, and its request has at most 1,024 octets, with more
/// of which Dovecot ends the connection. So a name of up to 496 octets can be asked for, if it has no NUL. Takes no memory.
pub fn is_askable(name: &[u8]) -> bool
    ensures { IsTrue result ↔ s.IsAskable name.now }
{
    if name.len() > MAX_NAME || has_nul(name) {
        return false;
    }
    escaped_len(name) <= MAX_NAME
}

fn has_nul(name: &[u8]) -> bool
    ensures { MatchBool result (HasNone 0 name.now → ⊥) (HasNone 0 name.now) }
{
    match cut_at(0, name) {
        (_, Some(_)) => true,
        (_, None) => false,
    }
}

/// The line of a request. Time and memory are linear in the name; lack of memory is the only error.
pub(crate) fn request_line(alloc: Global, id: u32, name: &[u8]) -> Result<Octets, AllocError>
    ensures { IfOk result (λ line. line ≡ s.userdb_request id name.now) }
{
    let mut line = Octets::from_slice(alloc, b"USER\t")?;
    write_decimal(&mut line, u64::from(id))?;
    line.extend_from_slice(b"\t")?;
    push_escaped(&mut line, name)?;
    line.extend_from_slice(b"\tservice=sieved\n")?;
    Ok(line)
}
