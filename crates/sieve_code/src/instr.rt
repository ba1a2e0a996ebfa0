//! The instructions.
use sieve_syntax::{Action, MailCheck};

/// An instruction. A machine has a place in the code, which begins at 0, and a flag, which tests set and jumps
/// look at. Unless something else is said, it goes on at the next place, and it is done at the end of the code.
#[derive(Clone, Copy)]
pub enum Instr<'a> {
    /// Sets the flag to this.
    Set(bool),
    /// Sets the flag to whether this test holds (RFC 5228, 5).
    Look(&'a MailCheck),
    /// Negates the flag (`not`: RFC 5228, 5.8).
    Flip,
    /// Goes on at this place.
    Jump(usize),
    /// Goes on at this place if the flag is true.
    JumpIf(usize),
    /// Goes on at this place if the flag is false.
    JumpUnless(usize),
    /// Carries out the action (RFC 5228, 4). If it fails, the run fails.
    Act(&'a Action),
    /// Ends the run (`stop`: RFC 5228, 3.3).
    Stop,
}

impl<'a> Instr<'a> {
    ghost use Rattle.std.specs.Prelude.{◌≡◌};
    ghost use Rattle.sieve_code.specs.Instructions.{instr_view};
    ghost use Rattle.sieve_code.specs.Layout.{forward};

    /// The same instruction in code of this length, if its target was counted from the end. No target is further from the end than
    /// the code is long, so that nothing saturates.
    pub(crate) fn forward(self, len: usize) -> Instr<'a>
        ensures { instr_view result ≡ forward len (instr_view self.entry) }
    {
        match self {
            Instr::Jump(left) => Instr::Jump(len.saturating_sub(left)),
            Instr::JumpIf(left) => Instr::JumpIf(len.saturating_sub(left)),
            Instr::JumpUnless(left) => Instr::JumpUnless(len.saturating_sub(left)),
            other => other,
        }
    }
}
