//! Laws of the definitions, each the contract of a function that does nothing.
ghost use Rattle.maildir_moves.specs.Waits.{WaitsForOneEach};

/// Whoever has mail waits for one turn of each other user, at most.
pub fn waits_for_one_each()
    ensures { WaitsForOneEach }
{}
