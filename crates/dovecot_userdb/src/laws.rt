//! Laws of the definitions, each the contract of a function that does nothing.
ghost use Rattle.dovecot_userdb.specs.Answers.{UserdbAnswersStand};
ghost use Rattle.dovecot_userdb.specs.Cuts.{UserdbCutsStand, UserdbAnswersFit};
ghost use Rattle.dovecot_userdb.specs.Escapes.{EscapesStand};
ghost use Rattle.dovecot_userdb.specs.Lives.{UserdbLivesStand};
ghost use Rattle.dovecot_userdb.specs.Probes.{ProbesStand};
ghost use Rattle.dovecot_userdb.specs.Requests.{RequestsStand};

/// Values stand in fields one-to-one, and end neither their field nor their line.
pub fn escapes_stand()
    ensures { EscapesStand }
{}

/// A request is one line of at most 1,024 octets, whatever its name has, and tells its number and its name.
pub fn requests_stand()
    ensures { RequestsStand }
{}

/// A line of the server says one thing.
pub fn userdb_answers_stand()
    ensures { UserdbAnswersStand }
{}

/// Octets that come in other pieces do the same: two pieces do what both in one do, and what a piece does is one thing.
pub fn userdb_cuts_stand()
    ensures { UserdbCutsStand }
{}

/// An answer that is told is to a request that waited, which then no longer does, and it is what a line of its own number said.
pub fn userdb_answers_fit()
    ensures { UserdbAnswersFit }
{}

/// Whatever happens to a connection, and in whatever pieces: no two requests have one number; each is answered once at most, by a line of
/// its own number, or waits; what was written is what is to be written, in order; and what is kept is bounded.
pub fn userdb_lives_stand()
    ensures { UserdbLivesStand }
{}

/// The names of nobody have letters alone, and differ as the octets do that they are made of.
pub fn probes_stand()
    ensures { ProbesStand }
{}
