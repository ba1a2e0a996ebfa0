//! Commands (RFC 5228, 2.9).
use crate::tree::action::Action;
use crate::tree::test::Test;
use octets::Texts;

/// A command (RFC 5228, 2.9).
#[cycle(command)]
#[derive(Drop)]
pub enum Command {
    /// `require`, with the capabilities that it names (RFC 5228, 3.2).
    Require(Texts),
    /// `if` with its block, and then each `elsif` and `else` with its own (RFC 5228, 3.1): the first block
    /// whose test holds is run, and no other.
    If(Vec<Branch>),
    /// `stop`: nothing after it is run (RFC 5228, 3.3).
    Stop,
    /// An action.
    Act(Action),
}

/// A test and the block that is run if it holds.
#[cycle(command)]
#[derive(Drop)]
pub struct Branch {
    /// The test.
    pub test: Test,
    /// The block's commands, in order.
    pub block: Vec<Command>,
}
