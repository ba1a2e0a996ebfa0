//! All that is written for one message.
ghost use Rattle.std.specs.Prelude.{◌≡◌, IfOk};
ghost use Rattle.smtp_dialogue.specs.Messages.{smtp_mail_of};
ghost use Rattle.smtp_dialogue.specs.Sent.{sent_from, sent_start};
ghost use Rattle.smtp_connections.specs.Connections as s;

use octets::Octets;
use smtp_dialogue::{DotStuffed, Extensions, SmtpMessage, mail_line, rcpt_line};
use std::alloc::{AllocError, Global};

/// Of a text's octets one in so many is reserved besides, for what its lines get more when they are sent.
const SPARE: usize = 32;

/// All that is written for one message, but for DATA.
#[derive(Drop)]
pub(crate) struct MessageLines {
    /// The line of MAIL.
    pub(crate) mail: Octets,
    /// The line of RCPT.
    pub(crate) rcpt: Octets,
    /// The text as it is sent, with the dot after it: at most twice the message's octets and five.
    pub(crate) text: Octets,
}

impl MessageLines {
    /// Those of no message. Takes no memory.
    pub(crate) fn none(alloc: Global) -> MessageLines
        ensures { result ≡ s.no_lines }
    {
        MessageLines {
            mail: Octets::new(alloc),
            rcpt: Octets::new(alloc),
            text: Octets::new(alloc),
        }
    }

    /// Those of a message, to a server that offers this. Time and memory are linear in its octets.
    ///
    /// Lack of memory is the only error.
    pub(crate) fn of(
        alloc: Global,
        offered: Extensions,
        message: SmtpMessage<'_>,
    ) -> Result<MessageLines, AllocError>
        ensures { IfOk result (λ lines. lines ≡ s.message_lines offered (smtp_mail_of message.entry)) }
    {
        Ok(MessageLines {
            mail: mail_line(alloc, offered, message)?,
            rcpt: rcpt_line(alloc, message)?,
            text: sent_text(alloc, message.text)?,
        })
    }
}

// A text as it is sent after DATA, with the dot after it.
fn sent_text(alloc: Global, text: &[u8]) -> Result<Octets, AllocError>
    ensures { IfOk result (λ sent. sent ≡ sent_from sent_start text.now) }
{
    let mut sent = Octets::new(alloc);
    sent.reserve(text.len().saturating_add(text.len() / SPARE))?;
    let mut parts = DotStuffed::new(text);
    while let Some(part) = parts.next() {
        sent.extend_from_slice(part)?;
    }
    Ok(sent)
}
