//! The scripts of the host's that surround a user's, or stand in its place.
use octets::Octets;
use store_engine::HostScripts;

/// The texts of the host's scripts.
#[derive(Drop)]
pub struct HostTexts {
    /// The one for accounts without an active script.
    pub default: Option<Octets>,
    /// Those that run before each user's script, and after it.
    pub scripts: HostScripts,
}
