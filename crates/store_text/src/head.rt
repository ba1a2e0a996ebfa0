//! What an account has once.
use octets::Octets;

/// Whose account it is: name, address and stored password, and which script is active.
#[derive(Debug, Drop)]
pub struct AccountOwner {
    pub name: Octets,
    pub address: Octets,
    pub salt: Octets,
    pub digest: Octets,
    /// The name of the active script, which is one of the parts.
    pub active: Option<Octets>,
}

/// An account's numbers. Each counter is at least 1 and below 2^63, and no number is given twice.
#[derive(Clone, Copy, Debug)]
pub struct Numbers {
    /// How many times the password was digested; a closed account has no rounds.
    pub rounds: u32,
    /// The number of the next copy of a message in a folder.
    pub next_copy: u64,
    /// The number of the next message on its way out.
    pub next_out: u64,
    /// The number of the next notice.
    pub next_notice: u64,
}

/// What an account has once.
#[derive(Debug, Drop)]
pub struct AccountHead {
    pub owner: AccountOwner,
    pub numbers: Numbers,
}
