//! A message that left a store.
use octets::Octets;

/// A message that a sink keeps, as it was told of it.
#[derive(Debug, Drop)]
pub struct KeptMail {
    pub user: Octets,
    pub folder: Octets,
    /// Its number in the user's folder.
    pub number: u64,
    /// The octets that were received.
    pub message: Octets,
    /// The text that names its flags there, with a blank between two; empty if it has none.
    pub flags: Octets,
}
