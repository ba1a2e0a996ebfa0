//! Laws of the definitions, each the contract of a function that does nothing.
ghost use Rattle.smtp_connections.specs.Answers.{SmtpAnswersStand};
ghost use Rattle.smtp_connections.specs.Cuts.{CutsStand, TurnsStand};
ghost use Rattle.smtp_connections.specs.Lives.{LivesStand};

/// One thing comes first in the octets of a server, and but for a part of a reply it is the same whatever follows; a whole reply is one
/// as RFC 5321 has it, and a fault is none, whatever follows.
pub fn smtp_answers_stand()
    ensures { SmtpAnswersStand }
{}

/// Octets that come in other pieces do the same: two pieces do what both in one do, and what a piece does is one thing.
pub fn cuts_stand()
    ensures { CutsStand }
{}

/// A message is sent only by a 250 to its text, of which nothing was left to be written. What comes before all is written ends the
/// connection, whatever it is, and the message is lost. A text is begun only by a 3yz to DATA.
pub fn turns_stand()
    ensures { TurnsStand }
{}

/// Whatever happens to a connection, and in whatever pieces: each message was dealt with as `Treats` of `smtp_send` has it, one after
/// the other, and of what was written and came just that was for messages. One that is told as Sent was taken whole by a 250 of its own.
/// Of a reply at most 65,536 octets are kept.
pub fn lives_stand()
    ensures { LivesStand }
{}
