//! Laws on the definitions, as contracts: what a command comes to is the step that it makes.
ghost use Rattle.managesieve_sessions.specs.Laws.{ClosedSteps, EarlySteps, TurnSteps, ScriptSteps};

/// A command that needs a login and comes before one is answered `NO "Log in first."`, and nothing changes.
pub fn early_steps()
    ensures { EarlySteps }
{}

/// A command that isn't about scripts makes the step of what it comes to, and no account changes.
pub fn turn_steps()
    ensures { TurnSteps }
{}

/// A command about scripts makes the step of its reply: the user's account changes as the reply's status says.
pub fn script_steps()
    ensures { ScriptSteps }
{}

/// A command about the scripts of a user whose account isn't open any more is answered like one before a login, and the user
/// is logged out.
pub fn closed_steps()
    ensures { ClosedSteps }
{}
