//! Whether a response is sent, and why not.
ghost use Rattle.std.specs.Prelude.{◌≡◌};
ghost use Rattle.sieve_vacation.specs.Reasons.{reason_number};

/// Why no response is sent, in the order in which the reasons are checked.
#[derive(Clone, Copy, Debug, PartialEq, Eq)]
pub enum Reason {
    /// The envelope's sender is empty (RFC 5230, 4.6).
    NullSender = 1,
    /// The sender has no `@`, or nothing before or after its last `@`.
    BadSender = 2,
    /// The sender's local part is that of a program, such as `mailer-daemon` (RFC 5230, 4.6).
    RobotSender = 3,
    /// The sender is an address of the user.
    OwnSender = 4,
    /// An Auto-Submitted field says something other than `no` (RFC 3834, 2 and 5), or an X-Auto-Response-Suppress field `All`, `OOF` or
    /// `AutoReply`.
    Automatic = 5,
    /// A mailing list sent the mail: it has a field that lists add (RFC 5230, 4.6; RFC 2369; RFC 2919).
    ListMail = 6,
    /// A Precedence field says `bulk`, `list` or `junk` (RFC 3834, 2).
    Bulk = 7,
    /// No address of the user is among the recipients (RFC 5230, 4.5).
    NotAddressed = 8,
    /// The sender received this response, and the period since then isn't over (RFC 5230: 4.1 on the period, 4.2 on what is kept).
    TooSoon = 9,
}

impl Reason {
    /// The reason's number, 1 to 9 in their order.
    pub fn number(self) -> u8
        ensures { result ≡ reason_number self }
    {
        self as u8
    }
}

/// Whether a response is sent.
#[derive(Clone, Copy, Debug, PartialEq, Eq)]
pub enum ReplyDecision {
    /// It is.
    Send,
    /// It isn't, for this reason.
    Quiet(Reason),
}
