//! What a reply makes of a message.
ghost use Rattle.std.specs.Prelude.{◌≡◌};
ghost use Rattle.smtp_dialogue.specs.Dialogues as s;

/// What was written last of a message.
#[derive(Clone, Copy, Debug, PartialEq, Eq)]
pub enum SmtpStage {
    /// MAIL.
    Sender,
    /// RCPT.
    Recipient,
    /// DATA.
    Data,
    /// The text, with the dot after it.
    Text,
}

/// How a message's dialogue ends.
#[derive(Clone, Copy, Debug, PartialEq, Eq)]
pub enum Ending {
    /// The server has taken it: its text was answered by 250.
    Sent,
    /// The server won't have it (5yz).
    Refused(u16),
    /// The server can't have it now (4yz).
    Delayed(u16),
    /// The server's reply is none that may come there.
    OutOfPlace(u16),
    /// The connection was lost.
    Lost,
    /// The server doesn't offer what it needs; nothing was written.
    Undeclared,
    /// An address is no mailbox; nothing was written.
    Unaddressed,
}

/// What a reply makes of a message.
#[derive(Clone, Copy, Debug, PartialEq, Eq)]
pub enum NextStage {
    /// It continues with this.
    Goes(SmtpStage),
    /// It is at its end.
    Ends(Ending),
}

/// What a reply makes of a message: MAIL and RCPT are taken by 2yz, DATA continues by 3yz, and the message is taken by 250 alone (RFC
/// 5321, section 4.3.2). Constant time.
pub fn next_turn(stage: SmtpStage, code: u16) -> NextStage
    ensures { result ≡ s.smtp_turn_of stage code }
{
    match stage {
        SmtpStage::Sender => go_on(code / 100 == 2, SmtpStage::Recipient, code),
        SmtpStage::Recipient => go_on(code / 100 == 2, SmtpStage::Data, code),
        SmtpStage::Data => go_on(code / 100 == 3, SmtpStage::Text, code),
        SmtpStage::Text => {
            if code == 250 {
                NextStage::Ends(Ending::Sent)
            } else {
                NextStage::Ends(ending_of(code))
            }
        }
    }
}

fn go_on(is_taken: bool, stage: SmtpStage, code: u16) -> NextStage
    ensures { result ≡ s.next_or_end is_taken stage code }
{
    if is_taken {
        NextStage::Goes(stage)
    } else {
        NextStage::Ends(ending_of(code))
    }
}

// What a reply other than the awaited one makes of a message.
fn ending_of(code: u16) -> Ending
    ensures { result ≡ s.ending_of code }
{
    match code / 100 {
        5 => Ending::Refused(code),
        4 => Ending::Delayed(code),
        _ => Ending::OutOfPlace(code),
    }
}
