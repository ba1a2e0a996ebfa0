//! What a connection waits for.
ghost use Rattle.std.specs.Prelude.{◌≡◌};
ghost use Rattle.smtp_connections.specs.Connections as s;

use crate::end::SmtpEnd;
use crate::exchange::{SmtpExchange, SmtpPhase};
use smtp_dialogue::SmtpStage;
use smtp_send::Patience;

/// What a connection waits for.
#[derive(Clone, Copy, PartialEq, Eq)]
pub enum SmtpWanted {
    /// That a piece of its octets is written, for so long at most.
    Write(Patience),
    /// That the server replies, for so long at most from the last octet on that was written.
    Reply(Patience),
    /// A message, or QUIT.
    Message,
    /// Nothing: it is at its end.
    Nothing(SmtpEnd),
}

impl SmtpPhase {
    /// What is waited for.
    pub(crate) fn wanted(self) -> SmtpWanted
        ensures { result ≡ s.wanted_at self }
    {
        match self {
            SmtpPhase::Writing(_, _) => SmtpWanted::Write(Patience::Piece),
            SmtpPhase::Awaiting(exchange) => SmtpWanted::Reply(exchange.patience()),
            SmtpPhase::Ready => SmtpWanted::Message,
            SmtpPhase::Over(end) => SmtpWanted::Nothing(end),
        }
    }
}

impl SmtpExchange {
    // How long the reply is waited for (RFC 5321, section 4.5.3.2).
    fn patience(self) -> Patience
        ensures { result ≡ s.patience_in self }
    {
        match self {
            SmtpExchange::Message(SmtpStage::Data) => Patience::Data,
            SmtpExchange::Message(SmtpStage::Text) => Patience::Text,
            _ => Patience::Command,
        }
    }
}
