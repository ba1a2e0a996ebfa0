//! Whose time an act takes.
ghost use Rattle.std.specs.Prelude.{◌≡◌, IfOk};
ghost use Rattle.net_shares.specs.Shares.{is_same_account};

use octets::Octets;
use std::alloc::{AllocError, Global};

/// Whose time an act takes.
#[derive(Drop)]
pub enum TimeAccount {
    /// All ManageSieve clients together that aren't logged in.
    Unauthenticated,
    /// All LMTP clients together, for what is done before a message is delivered.
    Senders,
    /// The user with this name.
    User(Octets),
}

impl TimeAccount {
    /// Copies the account. Lack of memory is the only error.
    pub fn try_clone(&self, alloc: Global) -> Result<TimeAccount, AllocError>
        ensures { IfOk result (λ account. account ≡ self.now) }
    {
        match self {
            TimeAccount::Unauthenticated => Ok(TimeAccount::Unauthenticated),
            TimeAccount::Senders => Ok(TimeAccount::Senders),
            TimeAccount::User(name) => Ok(TimeAccount::User(name.try_clone(alloc)?)),
        }
    }

    /// Whether the two are the same.
    pub(crate) fn is(&self, other: &TimeAccount) -> bool
        ensures { result ≡ is_same_account self.now other.now }
    {
        match (self, other) {
            (TimeAccount::Unauthenticated, TimeAccount::Unauthenticated) => true,
            (TimeAccount::Senders, TimeAccount::Senders) => true,
            (TimeAccount::User(name), TimeAccount::User(other)) => name.as_slice()
                == other.as_slice(),
            _ => false,
        }
    }
}
