//! What a connection with a server promises.
ghost use Rattle.std.specs.Prelude.{◌≤◌, length, take, OnOk, OnErr, IfOk};
ghost use Rattle.smtp_send.specs.Talks.{SendTalk};

use smtp_dialogue::{Extensions, SmtpStage};

/// The connection is lost, or isn't available.
#[derive(Clone, Copy, Debug, PartialEq, Eq)]
pub struct Lost;

/// A connection with a server. What is written and answered is counted after the reply to EHLO, and without RSET and QUIT: it is
/// what was written for messages, and the replies to that.
pub trait Server {
    ghost use Rattle.smtp_send.specs.Talks.{WritesPrefix, talk_written, talk_heard};

    /// Whether this is what was written and answered so far. A connection over a socket doesn't tell, and says it of nothing.
    ghost said: { Self → SendTalk → Type 0 };

    /// Connects, hears the greeting, and says EHLO. Returns what the server offers.
    fn open(&mut self) -> Result<Extensions, Lost>
        ensures kept { (t : SendTalk) → said self.old t → said self.new t };

    /// Writes octets of a message.
    ///
    /// # Errors
    ///
    /// The connection is lost, and a prefix of them was written.
    fn write(&mut self, octets: &[u8]) -> Result<(), Lost>
        ensures ok { OnOk result ((t : SendTalk) → said self.old t → said self.new (talk_written t octets.now)) }
        ensures err { OnErr result ((t : SendTalk) → said self.old t → (u : SendTalk) × said self.new u × WritesPrefix octets.now t u) };

    /// Writes as many octets of a message as go at once. Returns how many.
    ///
    /// # Errors
    ///
    /// The connection is lost, and a prefix of them was written.
    fn offer(&mut self, octets: &[u8]) -> Result<usize, Lost>
        ensures within { IfOk result (λ count. count ≤ length octets.now) }
        ensures ok { IfOk result (λ count. (t : SendTalk) → said self.old t → said self.new (talk_written t (take count octets.now))) }
        ensures err { OnErr result ((t : SendTalk) → said self.old t → (u : SendTalk) × said self.new u × WritesPrefix octets.now t u) };

    /// Whether the reply that comes next is there as a whole, or comes at once: then [`hear`](Server::hear) and
    /// [`is_reset`](Server::is_reset) don't wait.
    fn has_reply(&mut self) -> bool
        ensures kept { (t : SendTalk) → said self.old t → said self.new t };

    /// Waits for the reply to what was written at this stage. Returns its code.
    ///
    /// # Errors
    ///
    /// The connection is lost, or what came is no reply.
    fn hear(&mut self, stage: SmtpStage) -> Result<u16, Lost>
        ensures ok { IfOk result (λ code. (t : SendTalk) → said self.old t → said self.new (talk_heard t code)) }
        ensures err { OnErr result ((t : SendTalk) → said self.old t → said self.new t) };

    /// Says RSET, so that the next message begins anew.
    ///
    /// # Errors
    ///
    /// The connection is lost.
    fn reset(&mut self) -> Result<(), Lost>
        ensures kept { (t : SendTalk) → said self.old t → said self.new t };

    /// Waits for the reply to RSET. Returns whether the server says yes; not if the connection is lost.
    fn is_reset(&mut self) -> bool
        ensures kept { (t : SendTalk) → said self.old t → said self.new t };

    /// Says QUIT if the connection isn't lost, and ends it.
    fn close(&mut self)
        ensures kept { (t : SendTalk) → said self.old t → said self.new t };
}
