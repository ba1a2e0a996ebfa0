//! The commands that are written.
ghost use Rattle.std.specs.Prelude.{◌≡◌, ◌++◌, IfOk, OnOk};
ghost use Rattle.smtp_dialogue.specs.Messages as s;

use crate::extension::Extensions;
use crate::message::{SmtpMessage, size_of};
use octets::{Octets, write_decimal};
use std::alloc::{AllocError, Global};

/// DATA.
pub const DATA: &[u8] = b"DATA\r\n";
/// RSET.
pub const RSET: &[u8] = b"RSET\r\n";
/// QUIT.
pub const QUIT: &[u8] = b"QUIT\r\n";

/// EHLO with the name of this host (RFC 5321, section 4.1.1.1). Lack of memory is the only error.
pub fn ehlo_line(alloc: Global, host: &[u8]) -> Result<Octets, AllocError>
    ensures { IfOk result (λ line. line ≡ s.ehlo_line host.now) }
{
    let mut line = Octets::from_slice(alloc, b"EHLO ")?;
    line.extend_from_slice(host)?;
    line.extend_from_slice(b"\r\n")?;
    Ok(line)
}

/// MAIL with the message's sender, and what is needed and offered: its size, BODY if there is an octet over 127 in its text, SMTPUTF8
/// if there is one in an address (RFC 5321, section 4.1.1.2). Lack of memory is the only error. Time is linear in the message's octets.
pub fn mail_line(
    alloc: Global,
    offered: Extensions,
    message: SmtpMessage<'_>,
) -> Result<Octets, AllocError>
    ensures { IfOk result (λ line. line ≡ s.mail_line offered (s.smtp_mail_of message.entry)) }
{
    let mut line = Octets::from_slice(alloc, b"MAIL FROM:<")?;
    line.extend_from_slice(message.sender)?;
    line.extend_from_slice(b">")?;
    add_size(&mut line, offered, message)?;
    add_body(&mut line, offered, message)?;
    add_utf8(&mut line, message)?;
    line.extend_from_slice(b"\r\n")?;
    Ok(line)
}

fn add_size(
    line: &mut Octets,
    offered: Extensions,
    message: SmtpMessage<'_>,
) -> Result<(), AllocError>
    ensures { OnOk result (line.new ≡ line.old ++ s.size_part offered (s.smtp_mail_of message.entry)) }
{
    if offered.size {
        line.extend_from_slice(b" SIZE=")?;
        write_decimal(line, size_of(message.text))?;
    }
    Ok(())
}

fn add_body(
    line: &mut Octets,
    offered: Extensions,
    message: SmtpMessage<'_>,
) -> Result<(), AllocError>
    ensures { OnOk result (line.new ≡ line.old ++ s.body_part offered (s.smtp_mail_of message.entry)) }
{
    if offered.eight_bit_mime && message.needs_eight_bit() {
        line.extend_from_slice(b" BODY=8BITMIME")?;
    }
    Ok(())
}

fn add_utf8(line: &mut Octets, message: SmtpMessage<'_>) -> Result<(), AllocError>
    ensures { OnOk result (line.new ≡ line.old ++ s.utf8_part (s.smtp_mail_of message.entry)) }
{
    if message.needs_smtputf8() {
        line.extend_from_slice(b" SMTPUTF8")?;
    }
    Ok(())
}

/// RCPT with the message's recipient (RFC 5321, section 4.1.1.3). Lack of memory is the only error.
pub fn rcpt_line(alloc: Global, message: SmtpMessage<'_>) -> Result<Octets, AllocError>
    ensures { IfOk result (λ line. line ≡ s.rcpt_line (s.smtp_mail_of message.entry)) }
{
    let mut line = Octets::from_slice(alloc, b"RCPT TO:<")?;
    line.extend_from_slice(message.target)?;
    line.extend_from_slice(b">\r\n")?;
    Ok(line)
}
