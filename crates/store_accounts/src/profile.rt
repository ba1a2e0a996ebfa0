//! What the store returns of an account.
ghost use Rattle.std.specs.Prelude.{◌≡◌, ◌==◌, ◌&&◌, length};

use octets::Octets;

/// The account's address, its stored password, and the name of its active script.
#[derive(Debug, Drop)]
pub struct Profile {
    pub address: Octets,
    pub salt: Octets,
    /// How many times the password was digested; a closed account has no rounds.
    pub rounds: u32,
    pub digest: Octets,
    pub active: Option<Octets>,
}

impl Profile {
    /// Whether the account is closed.
    pub fn is_closed(&self) -> bool
        ensures { result ≡ (self.now.rounds == 0) }
    {
        self.rounds == 0
    }

    /// Whether the account was removed: it is closed, and its password has no digest.
    pub fn is_removed(&self) -> bool
        ensures { result ≡ (self.now.rounds == 0 && length self.now.digest == 0) }
    {
        self.rounds == 0 && self.digest.is_empty()
    }
}
