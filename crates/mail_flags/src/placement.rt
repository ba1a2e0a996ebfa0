//! Where a copy of a message goes.
use octets::Octets;

/// A mailbox that a message goes into, and the flags of its copy there.
#[derive(Debug, Drop)]
pub struct Placement {
    /// The name of the mailbox.
    pub mailbox: Octets,
    /// The text that names the flags, separated by single blanks; empty if there are none.
    pub flags: Octets,
}
