//! What is exchanged with a server, and how far that has come.
ghost use Rattle.std.specs.Prelude.{◌≡◌};
ghost use Rattle.smtp_connections.specs.Exchanges as s;

use crate::end::SmtpEnd;
use smtp_dialogue::{Ending, NextStage, SmtpStage, next_turn};

/// A command and its reply (RFC 5321, section 4.1).
#[derive(Clone, Copy, PartialEq, Eq)]
pub enum SmtpExchange {
    /// The server's greeting, which is the reply to no command (section 3.1).
    Greeting,
    /// EHLO (section 3.2).
    Ehlo,
    /// HELO, to a server that refused EHLO (section 3.2).
    Helo,
    /// A stage of a message (section 3.3).
    Message(SmtpStage),
    /// RSET, after a message that wasn't taken (section 4.1.1.5).
    Reset,
    /// QUIT (section 4.1.1.10).
    Quit,
}

/// How far a connection has come.
#[derive(Clone, Copy, PartialEq, Eq)]
pub enum SmtpPhase {
    /// This is written, and so many octets of it are.
    Writing(SmtpExchange, usize),
    /// All of this is written, and the reply to it is awaited.
    Awaiting(SmtpExchange),
    /// A message may begin.
    Ready,
    /// It is at its end.
    Over(SmtpEnd),
}

impl SmtpPhase {
    /// How the message that is under way ends if the connection is lost; none if no message is under way.
    pub(crate) fn lost(self) -> Option<Ending>
        ensures { result ≡ s.lost_at self }
    {
        match self {
            SmtpPhase::Writing(exchange, _) => exchange.lost(),
            SmtpPhase::Awaiting(exchange) => exchange.lost(),
            SmtpPhase::Ready | SmtpPhase::Over(_) => None,
        }
    }
}

impl SmtpExchange {
    // How the message ends of which this is a stage, if the connection is lost.
    fn lost(self) -> Option<Ending>
        ensures { result ≡ s.lost_in self }
    {
        match self {
            SmtpExchange::Message(_) => Some(Ending::Lost),
            _ => None,
        }
    }

    /// What follows a reply with this code. Constant time.
    pub(crate) fn phase_after(self, code: u16) -> SmtpPhase
        ensures { result ≡ s.phase_after self code }
    {
        match self {
            SmtpExchange::Greeting => {
                on_success(code, SmtpPhase::Writing(SmtpExchange::Ehlo, 0))
            }
            SmtpExchange::Ehlo => after_ehlo(code),
            SmtpExchange::Helo | SmtpExchange::Reset => on_success(code, SmtpPhase::Ready),
            SmtpExchange::Message(stage) => phase_by_turn(next_turn(stage, code)),
            SmtpExchange::Quit => SmtpPhase::Over(SmtpEnd::Quit),
        }
    }

    /// How the message ends with a reply with this code; none if it continues, or if this is no message's. Constant time.
    pub(crate) fn ending_by(self, code: u16) -> Option<Ending>
        ensures { result ≡ s.ending_by self code }
    {
        match self {
            SmtpExchange::Message(stage) => ending_in(next_turn(stage, code)),
            _ => None,
        }
    }
}

// What follows a reply that is to be 2yz.
fn on_success(code: u16, phase: SmtpPhase) -> SmtpPhase
    ensures { result ≡ s.on_success code phase }
{
    if code / 100 == 2 {
        phase
    } else {
        SmtpPhase::Over(SmtpEnd::Unexpected(code))
    }
}

// What follows the reply to EHLO: HELO if it is refused for good.
fn after_ehlo(code: u16) -> SmtpPhase
    ensures { result ≡ s.after_ehlo code }
{
    if code / 100 == 5 {
        SmtpPhase::Writing(SmtpExchange::Helo, 0)
    } else {
        on_success(code, SmtpPhase::Ready)
    }
}

// What follows what a reply makes of a message.
fn phase_by_turn(turn: NextStage) -> SmtpPhase
    ensures { result ≡ s.phase_by_turn turn }
{
    match turn {
        NextStage::Goes(stage) => SmtpPhase::Writing(SmtpExchange::Message(stage), 0),
        NextStage::Ends(ending) => after_ending(ending),
    }
}

// What follows the end of a message.
fn after_ending(ending: Ending) -> SmtpPhase
    ensures { result ≡ s.after_ending ending }
{
    match ending {
        Ending::Sent | Ending::Undeclared | Ending::Unaddressed => SmtpPhase::Ready,
        Ending::Refused(_) | Ending::Delayed(_) => SmtpPhase::Writing(SmtpExchange::Reset, 0),
        Ending::OutOfPlace(code) => SmtpPhase::Over(SmtpEnd::Unexpected(code)),
        Ending::Lost => SmtpPhase::Over(SmtpEnd::Closed),
    }
}

fn ending_in(turn: NextStage) -> Option<Ending>
    ensures { result ≡ s.ending_in turn }
{
    match turn {
        NextStage::Goes(_) => None,
        NextStage::Ends(ending) => Some(ending),
    }
}
