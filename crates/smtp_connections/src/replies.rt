//! What a connection makes of the octets that came.
ghost use Rattle.std.specs.Prelude.{◌≡◌, ◌≤◌, ◌++◌, length, take, drop, IfOk, OnErr};
ghost use Rattle.smtp_connections.specs.Connections as s;
ghost use Rattle.smtp_connections.specs.Exchanges.{ending_by};

use crate::answer::{SmtpAnswer, read_answer};
use crate::connection::{SmtpConnection, behind, front, has_octets};
use crate::end::SmtpEnd;
use crate::exchange::{SmtpExchange, SmtpPhase};
use crate::lines::MessageLines;
use octets::Octets;
use smtp_dialogue::{Ending, Extensions, read_extensions};
use std::alloc::AllocError;
use std::mem;

/// The most octets of a reply, with the CRLF of each line.
const MAX_REPLY: usize = 65_536;

impl SmtpConnection {
    /// Octets of the server came. Returns how the message that was under way ended, if it did.
    ///
    /// A reply (RFC 5321, section 4.2) has lines of at most 2,048 octets and at most 65,536 in all. With another one, with what is no
    /// reply, and with octets that come when it isn't the server's turn the connection is at its end; what comes later isn't looked at.
    ///
    /// Lack of memory is the only error; nothing changes then. Time is linear in what is held of the reply.
    pub fn hear(&mut self, piece: &[u8]) -> Result<Option<Ending>, AllocError>
        ensures hears { IfOk result (λ ending. s.Hears piece.now self.old ending self.new) }
        ensures held { length self.old.heard ≤ s.max_smtp_reply → length self.new.heard ≤ s.max_smtp_reply }
        ensures err { OnErr result (self.new ≡ self.old) }
    {
        match self.phase {
            SmtpPhase::Awaiting(exchange) => self.hear_reply(exchange, piece),
            _ => Ok(self.interrupt(has_octets(piece))),
        }
    }

    // More came of the reply that is awaited.
    fn hear_reply(
        &mut self,
        exchange: SmtpExchange,
        piece: &[u8],
    ) -> Result<Option<Ending>, AllocError>
        ensures hears { IfOk result (λ ending. s.HearsReplyTo exchange (self.old.heard ++ piece.now) self.old ending self.new) }
        ensures held { length self.old.heard ≤ s.max_smtp_reply → length self.new.heard ≤ s.max_smtp_reply }
        ensures err { OnErr result (self.new ≡ self.old) }
    {
        let room = MAX_REPLY.saturating_sub(self.heard.len());
        let is_over = has_octets(behind(piece, room));
        self.heard.extend_from_slice(front(piece, room))?;
        Ok(self.judge(exchange, is_over))
    }

    // What is made of all that was heard of a reply; others came behind that if `is_over`.
    fn judge(&mut self, exchange: SmtpExchange, is_over: bool) -> Option<Ending>
        ensures { s.Judges exchange is_over self.old result self.new }
    {
        match read_answer(front(self.heard.as_slice(), MAX_REPLY)) {
            SmtpAnswer::Part => self.await_more(),
            SmtpAnswer::Whole { code, count } => {
                let is_more = self.has_behind(count) || is_over;
                self.take_reply(exchange, code, count, is_more)
            }
            SmtpAnswer::NoReply => self.break_off(SmtpEnd::NoReply),
            SmtpAnswer::LongLine => self.break_off(SmtpEnd::LongLine),
        }
    }

    // Whether more was heard than so many octets.
    fn has_behind(&self, count: usize) -> bool
        ensures { result ≡ s.has_octets (drop count self.now.heard) }
    {
        has_octets(behind(self.heard.as_slice(), count))
    }

    // A reply isn't whole, and may have no more octets than one may.
    fn await_more(&mut self) -> Option<Ending>
        ensures { s.WaitsOn self.old result self.new }
    {
        if self.heard.len() < MAX_REPLY {
            return None;
        }
        self.break_off(SmtpEnd::LongReply)
    }

    // What came is no reply: it is forgotten, and the connection is at its end.
    fn break_off(&mut self, end: SmtpEnd) -> Option<Ending>
        ensures { s.BreaksConnection end self.old result self.new }
    {
        let ending = self.end(end);
        self.heard = Octets::new(self.alloc);
        ending
    }

    // Octets came when it wasn't the server's turn, if any did.
    fn interrupt(&mut self, is_more: bool) -> Option<Ending>
        ensures { s.Interrupts is_more self.old result self.new }
    {
        if !is_more {
            return None;
        }
        self.end(SmtpEnd::OutOfTurn)
    }

    // A reply of so many octets came, and perhaps others behind it.
    fn take_reply(
        &mut self,
        exchange: SmtpExchange,
        code: u16,
        count: usize,
        is_more: bool,
    ) -> Option<Ending>
        ensures { s.RepliesAndMore exchange code (take count self.old.heard) is_more self.old result self.new }
    {
        let ending = self.follow(exchange, code, count);
        let behind = self.interrupt(is_more);
        first_ending(ending, behind)
    }

    // What follows from a reply of so many octets. Returns how the message ended, if it did.
    fn follow(&mut self, exchange: SmtpExchange, code: u16, count: usize) -> Option<Ending>
        ensures tells { result ≡ ending_by exchange code }
        ensures follows { s.Follows exchange code (take count self.old.heard) self.old self.new }
    {
        self.shorten(count);
        self.offered = self.offered_in(exchange);
        self.phase = exchange.phase_after(code);
        let ending = exchange.ending_by(code);
        self.settle(ending);
        ending
    }

    // Keeps so many octets of what was heard.
    fn shorten(&mut self, count: usize)
        ensures { self.new ≡ record self.old { heard = take count self.old.heard } }
    {
        let mut octets = mem::replace(&mut self.heard, Octets::new(self.alloc)).into_vec();
        octets.truncate(count);
        self.heard = Octets::from_vec(octets);
    }

    // What the server offers after the reply that was heard.
    fn offered_in(&self, exchange: SmtpExchange) -> Extensions
        ensures { s.OffersBy exchange self.now.heard self.now.offered result }
    {
        match exchange {
            SmtpExchange::Ehlo => read_extensions(self.heard.as_slice()),
            SmtpExchange::Helo => Extensions::none(),
            _ => self.offered,
        }
    }

    // Drops the lines of a message that is at its end.
    fn settle(&mut self, ending: Option<Ending>)
        ensures { self.new ≡ record self.old { lines = s.lines_after ending self.old.lines } }
    {
        if ending.is_none() {
            return;
        }
        self.lines = MessageLines::none(self.alloc);
    }
}

fn first_ending(ending: Option<Ending>, other: Option<Ending>) -> Option<Ending>
    ensures { result ≡ s.first_ending ending other }
{
    match ending {
        None => other,
        Some(ending) => Some(ending),
    }
}
