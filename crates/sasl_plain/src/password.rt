//! Passwords as they are stored.
ghost use Rattle.std.specs.Prelude.{◌≡◌, ◌↔◌, ◌++◌, IsTrue};
ghost use Rattle.sha2.specs.Sha256.{sha256};
ghost use Rattle.sasl_plain.specs.Password.{digest_of};

use octets::Octets;
use sha2::{Digest, Sha256};

/// How many times the digest of a new password is hashed again: a guess costs some milliseconds of work.
pub const ROUNDS: u32 = 10_000;

/// A password as it is stored: the salt, the number of rounds, and the digest after them.
#[derive(Drop)]
pub struct PasswordHash {
    /// What is hashed before the password.
    pub salt: Octets,
    /// How many times the digest was hashed again.
    pub rounds: u32,
    /// The digest; if it isn't of 32 octets it accepts no password.
    pub digest: Octets,
}

/// The digest of a password under a salt after that many rounds. Takes no memory; time is linear in the rounds, each of
/// which hashes 32 octets, the salt and the password (SHA-256 of FIPS 180-4).
pub fn digest(salt: &[u8], rounds: u32, password: &[u8]) -> [u8; 32]
    ensures { result ≡ digest_of salt.now password.now rounds }
{
    let mut digest = hashed(&[], salt, password);
    for _ in 0..rounds {
        digest = hashed(&digest, salt, password);
    }
    digest
}

/// Whether the password has the record's digest. Takes no memory, and as much time as `digest`.
pub fn accepts(kept: &PasswordHash, password: &[u8]) -> bool
    ensures { IsTrue result ↔ (digest_of kept.now.salt password.now kept.now.rounds ≡ kept.now.digest) }
{
    let given = digest(kept.salt.as_slice(), kept.rounds, password);
    given.as_slice() == kept.digest.as_slice()
}

// The SHA-256 of a digest, a salt and a password.
fn hashed(before: &[u8], salt: &[u8], password: &[u8]) -> [u8; 32]
    ensures { result ≡ sha256 (before.now ++ salt.now ++ password.now) }
{
    let mut hasher = Sha256::new();
    hasher.update(before);
    hasher.update(salt);
    hasher.update(password);
    hasher.finalize()
}
