//! The client's message in PLAIN.
ghost use Rattle.std.specs.Prelude.{◌≡◌, ◌≤◌, length, IfOk};
ghost use Rattle.sasl_plain.specs.Login.{FindsLogin};
ghost use Rattle.sasl_plain.specs.Parts.{login_in, login_of, login_shown, cut_in, message_cuts, nul_place as place_of};

use base64::DecodeAllocError;
use base64::engine::general_purpose::STANDARD;
use octets::Octets;
use std::alloc::{AllocError, Global};

/// A user's name and password, neither of them empty or with a NUL in it.
#[derive(Drop)]
pub struct Login {
    /// The user's name (the authcid).
    pub user: Octets,
    /// The password, as it was sent.
    pub password: Octets,
}

/// Reads a login from base64 (RFC 4616, section 2; RFC 4648, section 4); `None` if it isn't one.
///
/// The message after the base64 is `[authzid] NUL authcid NUL passwd`: the user is the authcid, and an authzid that
/// isn't empty has to be the same. The base64 is strict: padded, and with spare bits of zero. Time and memory are
/// linear in the text; lack of memory is the only error.
pub fn plain(alloc: Global, text: &[u8]) -> Result<Option<Login>, AllocError>
    ensures found { IfOk result (FindsLogin text.now) }
    ensures value { IfOk result (λ found. login_shown found ≡ login_of text.now) }
{
    match STANDARD.decode(alloc, text) {
        Ok(message) => read_login(alloc, message.as_slice()),
        Err(DecodeAllocError::OutOfMemory) => Err(AllocError),
        Err(DecodeAllocError::DecodeError(_)) => Ok(None),
    }
}

// The login in a message.
fn read_login(alloc: Global, message: &[u8]) -> Result<Option<Login>, AllocError>
    ensures { IfOk result (λ found. login_shown found ≡ login_in message.now) }
{
    let Some((authzid, rest)) = cut(message) else {
        return Ok(None);
    };
    let Some((user, password)) = cut(rest) else {
        return Ok(None);
    };
    if user.is_empty() || password.is_empty() || nul_place(password) < password.len() {
        return Ok(None);
    }
    if !authzid.is_empty() && authzid != user {
        return Ok(None);
    }
    Ok(Some(Login {
        user: Octets::from_slice(alloc, user)?,
        password: Octets::from_slice(alloc, password)?,
    }))
}

// What comes before the first NUL, and what comes after it.
fn cut(text: &[u8]) -> Option<(&[u8], &[u8])>
    ensures { message_cuts result ≡ cut_in text.now }
{
    let place = nul_place(text);
    if place == text.len() {
        return None;
    }
    Some((&text[..place], &text[place + 1..]))
}

// How many octets come before the first NUL.
fn nul_place(text: &[u8]) -> usize
    ensures value { result ≡ place_of text.now }
    ensures within { result ≤ length text.now }
{
    let mut rest = text;
    let mut count = 0;
    while let Some((octet, more)) = rest.split_first() {
        if *octet == b'\0' {
            break;
        }
        count += 1;
        rest = more;
    }
    count
}
