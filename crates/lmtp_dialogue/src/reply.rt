//! What is answered.
ghost use Rattle.std.specs.Prelude.{◌≡◌, ◌≤◌, IfOk, length, map, take};
ghost use Rattle.lmtp_dialogue.specs.Replies as s;

use octets::{Octets, is_printable};
use std::alloc::{AllocError, Global};

/// The most octets of a host's name (RFC 1035, section 2.3.4).
const MAX_HOST: usize = 255;

/// What LHLO is answered after the host's name.
const ANNOUNCED: &[u8] =
    b"\r\n250-PIPELINING\r\n250-SIZE 33552232\r\n250-8BITMIME\r\n250-SMTPUTF8\r\n250 ENHANCEDSTATUSCODES\r\n";

/// An answer of one line (RFC 5321, section 4.2).
#[derive(Clone, Copy, Debug, PartialEq, Eq)]
pub enum LmtpReply {
    /// To RSET and NOOP.
    Done,
    /// To MAIL.
    SenderTaken,
    /// To RCPT.
    RecipientTaken,
    /// To VRFY: whether there is such a user isn't said.
    Unverified,
    /// To DATA.
    GoAhead,
    /// To HELP.
    Helped,
    /// To QUIT.
    Goodbye,
    /// No command's word comes first.
    UnknownCommand,
    /// To HELO and EHLO.
    NotSmtp,
    /// A line of more than 2,048 octets.
    LineTooLong,
    /// Something follows a command's word that may not.
    BadArgument,
    /// The path of MAIL.
    BadSender,
    /// The path of RCPT.
    BadRecipient,
    /// A command that may not come now.
    OutOfOrder,
    /// DATA without a recipient that was taken.
    NoRecipient,
    /// A parameter of MAIL or RCPT.
    BadParameter,
    /// The recipient has no account.
    NoSuchUser,
    /// The recipient's account is closed: it may be on its way to another host (RFC 3463, section 3.3).
    AccountClosed,
    /// The message has more octets than are taken.
    MessageTooLarge,
    /// Its header has more octets than are taken.
    HeaderTooLarge,
    /// The message was delivered to this recipient before.
    MailLoop,
    /// There is no memory, or no room on the disk.
    NoRoom,
    /// There are as many recipients as are taken.
    TooManyRecipients,
    /// Another process has the store.
    StoreAway,
    /// Any other fault of this host.
    LocalFault,
    /// The client said nothing for too long, and the connection ends.
    Idle,
}

impl LmtpReply {
    /// Its octets, with CRLF.
    pub fn line(self) -> &'static [u8]
        ensures { result.now ≡ s.lmtp_line_of self }
    {
        match self {
            LmtpReply::Done => b"250 2.0.0 Ok\r\n",
            LmtpReply::SenderTaken => b"250 2.1.0 Ok\r\n",
            LmtpReply::RecipientTaken => b"250 2.1.5 Ok\r\n",
            LmtpReply::Unverified => b"252 2.5.0 Not verified\r\n",
            LmtpReply::GoAhead => b"354 End with a dot on a line of its own\r\n",
            LmtpReply::Helped => b"214 2.0.0 See RFC 2033\r\n",
            LmtpReply::Goodbye => b"221 2.0.0 Bye\r\n",
            LmtpReply::UnknownCommand => b"500 5.5.1 No such command\r\n",
            LmtpReply::NotSmtp => b"500 5.5.1 This is LMTP, say LHLO\r\n",
            LmtpReply::LineTooLong => b"500 5.5.2 Line too long\r\n",
            LmtpReply::BadArgument => b"501 5.5.4 Bad argument\r\n",
            LmtpReply::BadSender => b"501 5.1.7 Bad sender address\r\n",
            LmtpReply::BadRecipient => b"501 5.1.3 Bad recipient address\r\n",
            LmtpReply::OutOfOrder => b"503 5.5.1 Command out of order\r\n",
            LmtpReply::NoRecipient => b"503 5.5.1 No recipient\r\n",
            LmtpReply::BadParameter => b"555 5.5.4 Parameter not known\r\n",
            LmtpReply::NoSuchUser => b"550 5.1.1 No such user\r\n",
            LmtpReply::AccountClosed => b"451 4.2.1 Account is closed, try later\r\n",
            LmtpReply::MessageTooLarge => b"552 5.3.4 Message too large\r\n",
            LmtpReply::HeaderTooLarge => b"552 5.3.4 Header too large\r\n",
            LmtpReply::MailLoop => b"554 5.4.6 Mail loop\r\n",
            LmtpReply::NoRoom => b"452 4.3.1 Out of memory, try later\r\n",
            LmtpReply::TooManyRecipients => b"452 4.5.3 Too many recipients\r\n",
            LmtpReply::StoreAway => b"451 4.3.2 Store is busy, try later\r\n",
            LmtpReply::LocalFault => b"451 4.3.0 Local fault, try later\r\n",
            LmtpReply::Idle => b"421 4.4.2 Idle\r\n",
        }
    }
}

/// What a client is greeted with.
pub fn greeting(alloc: Global, host: &[u8]) -> Result<Octets, AllocError>
    ensures { IfOk result (λ line. line ≡ s.lmtp_greeting host.now) }
{
    let shown = shown(alloc, MAX_HOST, host)?;
    let mut line = Octets::from_slice(alloc, b"220 ")?;
    line.extend_from_slice(shown.as_slice())?;
    line.extend_from_slice(b" LMTP\r\n")?;
    Ok(line)
}

/// What is said to LHLO.
pub fn capabilities(alloc: Global, host: &[u8]) -> Result<Octets, AllocError>
    ensures { IfOk result (λ lines. lines ≡ s.lmtp_capabilities host.now) }
{
    let shown = shown(alloc, MAX_HOST, host)?;
    let mut lines = Octets::from_slice(alloc, b"250-")?;
    lines.extend_from_slice(shown.as_slice())?;
    lines.extend_from_slice(ANNOUNCED)?;
    Ok(lines)
}

// At most this many octets of a text, with `?` for each that isn't printable.
fn shown(alloc: Global, most: usize, text: &[u8]) -> Result<Octets, AllocError>
    ensures { IfOk result (λ shown. shown ≡ s.lmtp_shown most text.now) }
{
    printable(alloc, front(text, most))
}

/// At most this many octets of a text.
pub(crate) fn front(text: &[u8], most: usize) -> &[u8]
    ensures value { result.now ≡ take most text.now }
    ensures short { length result.now ≤ most }
{
    if text.len() <= most {
        text
    } else {
        &text[..most]
    }
}

fn printable(alloc: Global, text: &[u8]) -> Result<Octets, AllocError>
    ensures { IfOk result (λ shown. shown ≡ map s.lmtp_shown_octet text.now) }
{
    let octets = text.iter().map(|octet| shown_octet(*octet)).collect(alloc)?;
    Ok(Octets::from_vec(octets))
}

/// How an octet of a text from elsewhere is said.
pub(crate) fn shown_octet(octet: u8) -> u8
    ensures { result ≡ s.lmtp_shown_octet octet }
{
    if is_printable(octet) { octet } else { b'?' }
}
