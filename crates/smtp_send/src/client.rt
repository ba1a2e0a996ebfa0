//! A client of SMTP over a connection.
ghost use Rattle.std.specs.Prelude.{◌≡◌, ◌≤◌, [], drop, length, OnErr, IfOk};
ghost use Rattle.smtp_dialogue.specs.Replies.{IsSmtpReply};
ghost use Rattle.smtp_send.specs.Talks.{SendTalk};
ghost use Rattle.smtp_send.specs.Wires as s;

use crate::peer::{Patience, SmtpPeer};
use crate::server::{Lost, Server};
use octets::{Octets, Pending};
use smtp_dialogue::{
    Extensions, Heard, QUIT, RSET, SmtpStage, ehlo_line, first_reply, read_extensions,
};
use std::alloc::Global;

/// The most octets of a reply.
const MAX_REPLY: usize = 65_536;

/// A reply that comes at once comes in at most this many pieces.
const MAX_PIECES: u32 = 4;

/// A client of SMTP (RFC 5321) over a connection.
#[derive(Drop)]
pub struct SmtpClient<P: SmtpPeer + Drop> {
    pub(crate) peer: P,
    /// What came and isn't read yet.
    pub(crate) unread: Pending,
    alloc: Global,
    /// The name of this host, which EHLO says.
    host: Octets,
    is_open: bool,
}

/// A reply of a server.
#[derive(Clone, Copy)]
struct Reply {
    code: u16,
    /// How many octets it has.
    count: usize,
}

impl<P: SmtpPeer + Drop> SmtpClient<P> {
    /// A client that isn't connected yet.
    pub fn new(alloc: Global, peer: P, host: Octets) -> SmtpClient<P>
        ensures peer { result.peer ≡ peer }
        ensures unread { result.unread ≡ [] }
    {
        SmtpClient {
            peer,
            unread: Pending::new(alloc),
            alloc,
            host,
            is_open: false,
        }
    }

    /// The connection.
    pub fn peer(&self) -> &P
        ensures { result.now ≡ self.now.peer }
    {
        &self.peer
    }

    // Writes octets of no message.
    fn say(&mut self, octets: &[u8]) -> Result<(), Lost>
        ensures { (t : SendTalk) → s.WirePasses (P.passed self.old.peer) self.old.unread t → s.WirePasses (P.passed self.new.peer) self.new.unread t }
    {
        match self.peer.send(octets, Patience::Piece) {
            Ok(()) => Ok(()),
            Err(lost) => Err(lost),
        }
    }

    // Takes more octets, once they come.
    fn listen(&mut self, patience: Patience) -> Result<(), Lost>
        ensures { (t : SendTalk) → s.WirePasses (P.passed self.old.peer) self.old.unread t → s.WirePasses (P.passed self.new.peer) self.new.unread t }
    {
        let mut piece = [0; 4096];
        let count = self.peer.receive(&mut piece, patience)?;
        if count == 0 {
            return Err(Lost);
        }
        let (octets, _) = piece.split_at(count);
        if self.unread.extend_from_slice(octets).is_err() {
            self.unread = Pending::new(self.alloc);
            return Err(Lost);
        }
        Ok(())
    }

    // Takes more octets, if some come at once. Returns whether some did.
    fn listen_at_once(&mut self) -> bool
        ensures { (t : SendTalk) → s.WirePasses (P.passed self.old.peer) self.old.unread t → s.WirePasses (P.passed self.new.peer) self.new.unread t }
    {
        let mut piece = [0; 4096];
        match self.peer.receive_at_once(&mut piece) {
            Ok(Some(count)) => {
                let (octets, _) = piece.split_at(count);
                if self.unread.extend_from_slice(octets).is_err() {
                    self.unread = Pending::new(self.alloc);
                    return false;
                }
                count > 0
            }
            Ok(None) => false,
            Err(_) => false,
        }
    }

    // Waits until a reply comes first in what isn't read.
    fn next_reply(&mut self, patience: Patience) -> Result<Reply, Lost>
        ensures kept { (t : SendTalk) → s.WirePasses (P.passed self.old.peer) self.old.unread t → s.WirePasses (P.passed self.new.peer) self.new.unread t }
        ensures within { IfOk result (λ reply. reply.count ≤ length self.new.unread) }
        ensures first { IfOk result (λ reply. IsSmtpReply self.new.unread reply.code (drop reply.count self.new.unread)) }
    {
        for _ in 0..MAX_REPLY {
            match first_reply(self.unread.as_slice()) {
                Heard::Reply { code, count } => return Ok(Reply { code, count }),
                Heard::Bad => return Err(Lost),
                Heard::Need => {
                    if self.unread.len() > MAX_REPLY || self.listen(patience).is_err() {
                        return Err(Lost);
                    }
                }
            }
        }
        Err(Lost)
    }

    // Hears the reply to something that is no message's. Returns whether it is 2yz.
    fn agrees(&mut self, patience: Patience) -> Result<bool, Lost>
        ensures { (t : SendTalk) → s.WirePasses (P.passed self.old.peer) self.old.unread t → s.WirePasses (P.passed self.new.peer) self.new.unread t }
    {
        match self.next_reply(patience) {
            Ok(reply) => {
                self.unread.drop_front(reply.count);
                Ok(reply.code / 100 == 2)
            }
            Err(lost) => Err(lost),
        }
    }

    // Hears the server's greeting, and says EHLO. Returns what the reply to that offers.
    fn greet(&mut self) -> Result<Extensions, Lost>
        ensures { (t : SendTalk) → s.WirePasses (P.passed self.old.peer) self.old.unread t → s.WirePasses (P.passed self.new.peer) self.new.unread t }
    {
        if self.agrees(Patience::Command) != Ok(true) {
            return Err(Lost);
        }
        if self.say_hello().is_err() {
            return Err(Lost);
        }
        match self.next_reply(Patience::Command) {
            Ok(reply) if reply.code / 100 == 2 => {
                let offered = self.offered_in(reply.count);
                self.unread.drop_front(reply.count);
                Ok(offered)
            }
            _ => Err(Lost),
        }
    }

    fn say_hello(&mut self) -> Result<(), Lost>
        ensures { (t : SendTalk) → s.WirePasses (P.passed self.old.peer) self.old.unread t → s.WirePasses (P.passed self.new.peer) self.new.unread t }
    {
        match ehlo_line(self.alloc, self.host.as_slice()) {
            Ok(line) => self.say(line.as_slice()),
            Err(_) => Err(Lost),
        }
    }

    // What the reply that comes first offers.
    fn offered_in(&self, count: usize) -> Extensions
        requires { count ≤ length self.now.unread }
    {
        let (reply, _) = self.unread.as_slice().split_at(count);
        read_extensions(reply)
    }

    // Drops what isn't read, and ends the connection.
    fn leave(&mut self)
        ensures { (t : SendTalk) → s.WirePasses (P.passed self.old.peer) self.old.unread t → s.WirePasses (P.passed self.new.peer) self.new.unread t }
    {
        self.unread = Pending::new(self.alloc);
        self.peer.disconnect();
        self.is_open = false;
    }
}

impl<P: SmtpPeer + Drop> Server for SmtpClient<P> {
    ghost use Rattle.smtp_send.specs.Wires.{WirePasses};

    ghost said = { λ client t. WirePasses (P.passed client.peer) client.unread t };

    fn open(&mut self) -> Result<Extensions, Lost> {
        self.leave();
        if self.peer.connect().is_err() {
            return Err(Lost);
        }
        self.is_open = true;
        match self.greet() {
            Ok(offered) => Ok(offered),
            Err(lost) => {
                self.leave();
                Err(lost)
            }
        }
    }

    fn write(&mut self, octets: &[u8]) -> Result<(), Lost> {
        match self.peer.send(octets, Patience::Piece) {
            Ok(()) => Ok(()),
            Err(lost) => {
                self.leave();
                Err(lost)
            }
        }
    }

    fn offer(&mut self, octets: &[u8]) -> Result<usize, Lost> {
        match self.peer.offer(octets) {
            Ok(count) => Ok(count),
            Err(lost) => {
                self.leave();
                Err(lost)
            }
        }
    }

    fn has_reply(&mut self) -> bool {
        for _ in 0..MAX_PIECES {
            match first_reply(self.unread.as_slice()) {
                Heard::Need => {
                    if !self.listen_at_once() {
                        return false;
                    }
                }
                _ => return true,
            }
        }
        false
    }

    fn hear(&mut self, stage: SmtpStage) -> Result<u16, Lost> {
        match self.next_reply(patience_at(stage)) {
            Ok(reply) => {
                self.unread.drop_front(reply.count);
                Ok(reply.code)
            }
            Err(lost) => {
                self.leave();
                Err(lost)
            }
        }
    }

    fn reset(&mut self) -> Result<(), Lost> {
        match self.say(RSET) {
            Ok(()) => Ok(()),
            Err(lost) => {
                self.leave();
                Err(lost)
            }
        }
    }

    fn is_reset(&mut self) -> bool {
        match self.agrees(Patience::Command) {
            Ok(agrees) => agrees,
            Err(_) => {
                self.leave();
                false
            }
        }
    }

    fn close(&mut self) {
        if self.is_open && self.say(QUIT).is_ok() {
            let _ = self.agrees(Patience::Command);
        }
        self.leave();
    }
}

// How long the reply to a stage is waited for.
fn patience_at(stage: SmtpStage) -> Patience {
    match stage {
        SmtpStage::Sender | SmtpStage::Recipient => Patience::Command,
        SmtpStage::Data => Patience::Data,
        SmtpStage::Text => Patience::Text,
    }
}
