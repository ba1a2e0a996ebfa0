//! Whether a userdb can be believed: one that finds everybody would make any name a user.
ghost use Rattle.std.specs.Prelude.{◌≡◌, ◌<◌, IfOk};
ghost use Rattle.dovecot_userdb.specs.Probes as s;

use crate::answer::UserdbAnswer;
use octets::Octets;
use std::alloc::{AllocError, Global};

/// How many random octets make the name of nobody: each makes two of its 20 letters.
pub const PROBE_OCTETS: usize = 10;

/// Whether a userdb can be believed.
#[derive(Clone, Copy, PartialEq, Eq)]
pub enum UserdbTrust {
    /// It doesn't find the name of nobody.
    Believed,
    /// It finds it: so it would find any other.
    FindsAnybody,
    /// It couldn't tell.
    Unknown,
}

/// What the answer to a request for the name of nobody says of the userdb. Constant time.
pub fn trust_after(answer: &UserdbAnswer) -> UserdbTrust
    ensures { result ≡ s.trust_by answer.now }
{
    match answer {
        UserdbAnswer::Found { .. } => UserdbTrust::FindsAnybody,
        UserdbAnswer::NotFound => UserdbTrust::Believed,
        UserdbAnswer::Failed => UserdbTrust::Unknown,
    }
}

/// The name of nobody: 20 letters from `a` to `p`, two for each octet. Octets that are random make each of these names with the same
/// chance, one in 2^80.
///
/// Lack of memory is the only error.
pub fn probe_name(alloc: Global, random: &[u8; PROBE_OCTETS]) -> Result<Octets, AllocError>
    ensures { IfOk result (λ name. name ≡ s.probe_letters random.now) }
{
    let mut name = Octets::new(alloc);
    for octet in random {
        name.push(letter_of(*octet / 16))?;
        name.push(letter_of(*octet % 16))?;
    }
    Ok(name)
}

// The letter of a number below 16.
fn letter_of(number: u8) -> u8
    requires { number < 16 }
    ensures { result ≡ s.probe_letter number }
{
    b'a' + number
}
