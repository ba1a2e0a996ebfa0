//! Laws of the definitions, each the contract of a function that does nothing.
ghost use Rattle.maildir_homes.specs.Homes.{HomesDiffer};

/// Two users have no Maildir in common.
pub fn homes_differ()
    ensures { HomesDiffer }
{}
