//! Laws of the definitions, each the contract of a function that does nothing.
ghost use Rattle.cli_reports.specs.Laws.{AddressesStand, LinesTell, ListingsTell};

/// An address in a line has no blank, no angle bracket and no control octet, whatever the address.
pub fn addresses_stand()
    ensures { AddressesStand }
{}

/// What `queue` prints gives each row's number, kind, sender and target, and how many octets its message has: rows that
/// have the same line are the same, and so are queues that have the same listing.
pub fn queue_is_told()
    ensures line { LinesTell }
    ensures listing { ListingsTell }
{}
