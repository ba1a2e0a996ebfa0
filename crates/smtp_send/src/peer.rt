//! What passes over a connection.
ghost use Rattle.std.specs.Prelude.{◌≡◌, ◌≤◌, ◌++◌, ℕ, List, length, take, OnOk, OnErr, IfOk, IfSome, IfNone};

use crate::server::Lost;

/// What is waited for, which tells how long (RFC 5321, section 4.5.3.2).
#[derive(Clone, Copy, Debug, PartialEq, Eq)]
pub enum Patience {
    /// The server's greeting, and the reply to EHLO, MAIL, RCPT, RSET and QUIT.
    Command,
    /// The reply to DATA.
    Data,
    /// That a piece is taken.
    Piece,
    /// The reply to a text.
    Text,
}

impl Patience {
    /// How long, in seconds.
    pub fn seconds(self) -> u64
        ensures least { 120 ≤ result }
        ensures most { result ≤ 600 }
    {
        match self {
            Patience::Command => 300,
            Patience::Data => 120,
            Patience::Piece => 180,
            Patience::Text => 600,
        }
    }
}

/// How many milliseconds are a moment: what comes or goes later doesn't do so at once.
pub const MOMENT: u64 = 20;

/// Connections with one server, one after another.
pub trait SmtpPeer {
    /// Whether these octets were sent over all connections so far, and those came. One over sockets doesn't tell, and says it of nothing.
    ghost passed: { Self → List ℕ → List ℕ → Type 0 };

    /// Connects.
    fn connect(&mut self) -> Result<(), Lost>
        ensures kept { (sent came : List ℕ) → passed self.old sent came → passed self.new sent came };

    /// Sends all of these octets.
    fn send(&mut self, octets: &[u8], patience: Patience) -> Result<(), Lost>
        ensures ok { OnOk result ((sent came : List ℕ) → passed self.old sent came → passed self.new (sent ++ octets.now) came) }
        ensures err { OnErr result ((sent came : List ℕ) → passed self.old sent came
            → (front rest : List ℕ) × (octets.now ≡ front ++ rest) × passed self.new (sent ++ front) came) };

    /// Sends as many of these octets as the connection takes at once. Returns how many.
    fn offer(&mut self, octets: &[u8]) -> Result<usize, Lost>
        ensures within { IfOk result (λ count. count ≤ length octets.now) }
        ensures ok { IfOk result (λ count. (sent came : List ℕ) → passed self.old sent came → passed self.new (sent ++ take count octets.now) came) }
        ensures err { OnErr result ((sent came : List ℕ) → passed self.old sent came
            → (front rest : List ℕ) × (octets.now ≡ front ++ rest) × passed self.new (sent ++ front) came) };

    /// Waits for octets, and takes as many as there are and the piece has room for; none at the end of the connection.
    fn receive(&mut self, piece: &mut [u8], patience: Patience) -> Result<usize, Lost>
        ensures within { IfOk result (λ count. count ≤ length piece.new) }
        ensures ok { IfOk result (λ count. (sent came : List ℕ) → passed self.old sent came → passed self.new sent (came ++ take count piece.new)) }
        ensures err { OnErr result ((sent came : List ℕ) → passed self.old sent came → passed self.new sent came) };

    /// Takes octets as [`receive`](SmtpPeer::receive) does, if some come at once; none if none do.
    fn receive_at_once(&mut self, piece: &mut [u8]) -> Result<Option<usize>, Lost>
        ensures within { IfOk result (λ found. IfSome found (λ count. count ≤ length piece.new)) }
        ensures some { IfOk result (λ found. IfSome found (λ count. (sent came : List ℕ) → passed self.old sent came → passed self.new sent (came ++ take count piece.new))) }
        ensures none { IfOk result (λ found. IfNone found ((sent came : List ℕ) → passed self.old sent came → passed self.new sent came)) }
        ensures err { OnErr result ((sent came : List ℕ) → passed self.old sent came → passed self.new sent came) };

    /// Ends the connection, if there is one.
    fn disconnect(&mut self)
        ensures kept { (sent came : List ℕ) → passed self.old sent came → passed self.new sent came };
}
