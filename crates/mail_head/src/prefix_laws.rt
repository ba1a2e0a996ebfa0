//! Laws of the definitions, each the contract of a function that does nothing.
ghost use Rattle.std.specs.Prelude.{◌≡◌, ℕ, List};
ghost use Rattle.mail_head.specs.Heads.{fields_of};
ghost use Rattle.mail_head.specs.Prefixes.{IsHeaderPrefix};

/// A prefix of a message that has an empty line contains all of the message's fields.
pub fn fields_of_a_front()
    ensures { (front message : List ℕ) → IsHeaderPrefix front message → fields_of front ≡ fields_of message }
{}
