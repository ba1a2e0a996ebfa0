//! One connection.
ghost use Rattle.std.specs.Prelude.{◌≡◌, ◌≤◌, length, take, drop, IfOk, OnErr};
ghost use Rattle.smtp_dialogue.specs.Messages.{smtp_mail_of};
ghost use Rattle.smtp_connections.specs.Connections as s;
ghost use Rattle.smtp_connections.specs.Exchanges.{lost_at};
ghost use Rattle.smtp_connections.specs.declared.exchange.SmtpPhase.TheVariants as phases;

use crate::end::SmtpEnd;
use crate::exchange::{SmtpExchange, SmtpPhase};
use crate::lines::MessageLines;
use crate::wanted::SmtpWanted;
use lmtp_dialogue::{Found, find_line};
use octets::Octets;
use smtp_dialogue::{DATA, Ending, Extensions, QUIT, RSET, SmtpMessage, SmtpStage, ehlo_line};
use std::alloc::{AllocError, Global};

/// One connection to a server of SMTP (RFC 5321), which carries messages one after the other.
///
/// It knows no socket, no clock and no queue: it says which octets are to go out (`out`) and what is waited for (`wanted`), is told what
/// was written and what came, and tells how each message ended. It is the server's turn once all octets are written, and until a reply
/// came; if it speaks at another time the connection is at its end. So a reply never counts for what was written after it.
///
/// It holds what is sent of one message, which is at most twice the message's octets, its addresses and some 100 octets; and at most
/// 65,536 octets of a reply.
#[derive(Drop)]
pub struct SmtpConnection {
    pub(crate) alloc: Global,
    /// The lines of EHLO and HELO.
    pub(crate) ehlo: Octets,
    pub(crate) helo: Octets,
    /// Whether a message may go without 8BITMIME.
    pub(crate) may_eight_bit: bool,
    /// What the server offers.
    pub(crate) offered: Extensions,
    pub(crate) phase: SmtpPhase,
    /// Those of the message that is under way.
    pub(crate) lines: MessageLines,
    /// The reply that came last; while one is awaited, what came of it.
    pub(crate) heard: Octets,
}

impl SmtpConnection {
    /// One that has just been made, to a server that has said nothing: its greeting is awaited. EHLO and HELO have this host's name. With
    /// `may_eight_bit` a message with octets over 127 in its text goes to a server without 8BITMIME too.
    ///
    /// Lack of memory is the only error.
    pub fn new(
        alloc: Global,
        host: &[u8],
        may_eight_bit: bool,
    ) -> Result<SmtpConnection, AllocError>
        ensures { IfOk result (s.IsNewConnection host.now may_eight_bit) }
    {
        Ok(SmtpConnection {
            alloc,
            ehlo: ehlo_line(alloc, host)?,
            helo: helo_line(alloc, host)?,
            may_eight_bit,
            offered: Extensions::none(),
            phase: SmtpPhase::Awaiting(SmtpExchange::Greeting),
            lines: MessageLines::none(alloc),
            heard: Octets::new(alloc),
        })
    }

    /// What is waited for, and for how long (RFC 5321, section 4.5.3.2). Constant time.
    pub fn wanted(&self) -> SmtpWanted
        ensures { result ≡ s.wanted_at self.now.phase }
    {
        self.phase.wanted()
    }

    /// The octets that are to be written now. None while a reply is awaited, or if nothing is to be said. Constant time.
    pub fn out(&self) -> &[u8]
        ensures { result.now ≡ s.left_to_write self.now }
    {
        match self.phase {
            SmtpPhase::Writing(exchange, count) => behind(self.line(exchange), count),
            _ => behind(DATA, DATA.len()),
        }
    }

    // All that is written of an exchange.
    fn line(&self, exchange: SmtpExchange) -> &[u8]
        ensures { result.now ≡ s.line_in self.now exchange }
    {
        match exchange {
            SmtpExchange::Greeting => b"",
            SmtpExchange::Ehlo => self.ehlo.as_slice(),
            SmtpExchange::Helo => self.helo.as_slice(),
            SmtpExchange::Message(SmtpStage::Sender) => self.lines.mail.as_slice(),
            SmtpExchange::Message(SmtpStage::Recipient) => self.lines.rcpt.as_slice(),
            SmtpExchange::Message(SmtpStage::Data) => DATA,
            SmtpExchange::Message(SmtpStage::Text) => self.lines.text.as_slice(),
            SmtpExchange::Reset => RSET,
            SmtpExchange::Quit => QUIT,
        }
    }

    /// So many octets of `out` were written. What came before that is to be heard before, and what comes after it after this call: a
    /// reply that is heard once all is written counts. Takes no memory; constant time.
    pub fn wrote(&mut self, count: usize)
        requires { count ≤ length (s.left_to_write self.old) }
        ensures { s.WritesSome count self.old self.new }
    {
        let SmtpPhase::Writing(exchange, before) = self.phase else {
            return;
        };
        let left = self.line(exchange).len().saturating_sub(before);
        if count < left {
            self.phase = SmtpPhase::Writing(exchange, before + count);
            return;
        }
        self.phase = SmtpPhase::Awaiting(exchange);
        self.heard = Octets::new(self.alloc);
    }

    /// Begins a message, if one may begin (`SmtpWanted::Message`). Returns how it ended if nothing is written for it: an address is no
    /// mailbox, or the server doesn't offer what it needs (RFC 6531, RFC 6152).
    ///
    /// Lack of memory is the only error; nothing changes then. Time and memory are linear in the message's octets.
    pub fn begin(&mut self, message: SmtpMessage<'_>) -> Result<Option<Ending>, AllocError>
        requires { self.old.phase ≡ phases.Ready }
        ensures begins { IfOk result (λ ending. s.Begins (smtp_mail_of message.entry) self.old ending self.new) }
        ensures err { OnErr result (self.new ≡ self.old) }
    {
        if !message.is_addressed() {
            return Ok(Some(Ending::Unaddressed));
        }
        if !message.is_offered(self.offered, self.may_eight_bit) {
            return Ok(Some(Ending::Undeclared));
        }
        let lines = MessageLines::of(self.alloc, self.offered, message)?;
        self.lines = lines;
        self.phase = SmtpPhase::Writing(SmtpExchange::Message(SmtpStage::Sender), 0);
        Ok(None)
    }

    /// Says QUIT, if a message may begin (section 4.1.1.10).
    pub fn quit(&mut self)
        requires { self.old.phase ≡ phases.Ready }
        ensures { self.new ≡ record self.old { phase = s.quitting } }
    {
        self.phase = SmtpPhase::Writing(SmtpExchange::Quit, 0);
    }

    /// Ends the connection, for a cause that lies outside of it. Returns how the message that was under way ended; none if none was.
    /// One that is at its end stays so.
    pub fn end(&mut self, end: SmtpEnd) -> Option<Ending>
        ensures ending { result ≡ lost_at self.old.phase }
        ensures ended { self.new ≡ s.ended end self.old }
    {
        let ending = self.phase.lost();
        if let SmtpPhase::Over(_) = self.phase {
            return ending;
        }
        self.phase = SmtpPhase::Over(end);
        self.lines = MessageLines::none(self.alloc);
        ending
    }

    /// The first line of the reply that came last, without its CRLF; empty if there is none. It has at most 2,046 octets.
    pub fn reply_line(&self) -> &[u8]
        ensures { s.ShowsFirstLine self.now.heard result.now }
    {
        let heard = self.heard.as_slice();
        match find_line(heard) {
            Found::Line(count) => front(heard, count),
            Found::Need => front(heard, 0),
            Found::TooLong => front(heard, 0),
        }
    }
}

// HELO with the name of this host (RFC 5321, section 4.1.1.1). Lack of memory is the only error.
fn helo_line(alloc: Global, host: &[u8]) -> Result<Octets, AllocError>
    ensures { IfOk result (λ line. line ≡ s.helo_line host.now) }
{
    let mut line = Octets::from_slice(alloc, b"HELO ")?;
    line.extend_from_slice(host)?;
    line.extend_from_slice(b"\r\n")?;
    Ok(line)
}

pub(crate) fn has_octets(octets: &[u8]) -> bool
    ensures { result ≡ s.has_octets octets.now }
{
    match octets {
        [] => false,
        _ => true,
    }
}

// At most so many octets, from the first on.
pub(crate) fn front(octets: &[u8], count: usize) -> &[u8]
    ensures { result.now ≡ take count octets.now }
{
    if octets.len() <= count {
        return octets;
    }
    &octets[..count]
}

// Those behind so many.
pub(crate) fn behind(octets: &[u8], count: usize) -> &[u8]
    ensures { result.now ≡ drop count octets.now }
{
    if octets.len() <= count {
        return &octets[octets.len()..];
    }
    &octets[count..]
}
