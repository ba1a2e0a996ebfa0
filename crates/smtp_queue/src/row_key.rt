//! Where a row of a queue is.
ghost use Rattle.std.specs.Prelude.{◌≡◌, IfOk};
ghost use Rattle.smtp_queue.specs.Waits as s;

use octets::Octets;
use std::alloc::{AllocError, Global};

/// Where a row of a queue is. Places are in the order of the octets of their users and of their numbers.
#[derive(Debug, PartialEq, Eq, PartialOrd, Ord, Drop)]
pub struct RowKey {
    pub user: Octets,
    /// The row's number in the account.
    pub id: u64,
}

impl RowKey {
    /// The place of a user's row with a number. Lack of memory is the only error.
    pub fn new(alloc: Global, user: &[u8], id: u64) -> Result<RowKey, AllocError>
        ensures { IfOk result (λ place. place ≡ s.row_key user.now id) }
    {
        Ok(RowKey {
            user: Octets::from_slice(alloc, user)?,
            id,
        })
    }
}
