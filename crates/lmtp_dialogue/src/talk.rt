//! What goes on in a dialogue, apart from what its client has sent: what a command does.
ghost use Rattle.std.specs.Prelude.{◌≡◌, ◌<◌, length};
ghost use Rattle.lmtp_dialogue.specs.declared.receiver.LmtpStage.TheVariants.{Asking as asking, Sending as sending};
ghost use Rattle.lmtp_dialogue.specs.Turns.{is_too_large as too_large};

use crate::argument::MailArgument;
use crate::command::{LmtpCommand, read_lmtp_command};
use crate::message_text::Text;
use crate::receiver::{LmtpStage, Lookup, ReceivedMessage};
use crate::recipient_reply::{RecipientReply, ReplyBuffer};
use crate::recipients::Recipients;
use crate::reply::LmtpReply;
use octets::Octets;
use std::alloc::{AllocError, Global};

/// The most octets of a message.
pub const MAX_TEXT: usize = 33_552_232;

/// The most recipients of one.
pub const MAX_RECIPIENTS: usize = 1000;

/// What goes on in a dialogue.
#[derive(Drop)]
pub struct Talk {
    pub(crate) alloc: Global,
    /// What is said to LHLO.
    pub(crate) hello: Octets,
    pub(crate) stage: LmtpStage,
    /// The sender of the transaction that is open, or of the message that is sent.
    pub(crate) sender: Octets,
    /// Its recipients that were taken, and after them the one that is asked for.
    pub(crate) recipients: Recipients,
    /// For how many of them a reply was made after the text.
    pub(crate) told: usize,
    pub(crate) text: Text,
    // One is asked for.
    ghost asked_for: { stage ≡ asking → 0 < length recipients },
    // A reply is owed to one.
    ghost owed: { stage ≡ sending → told < length recipients },
}

impl Talk {
    ghost use Rattle.std.specs.Prelude.{◌≡◌, ◌<◌, ◌-◌, [], length, slice_index_or, OnOk, OnErr};
    ghost use Rattle.lmtp_dialogue.specs.RecipientReplies.{recipient_lines};
    ghost use Rattle.lmtp_dialogue.specs.Talks as s;
    ghost use Rattle.lmtp_dialogue.specs.Texts.{IsFinishedText};
    ghost use Rattle.lmtp_dialogue.specs.Turns.{says, command_turn, hello_turn, opened_turn, mail_turn, asked_for, rcpt_turn, data_turn, reset_turn, quit_turn, phase_reset};

    /// Obeys a command, and answers it if nothing has to be asked first.
    ///
    /// Lack of memory is the only error; nothing changes then.
    pub fn obey(&mut self, command: LmtpCommand<'_>, out: &mut Octets) -> Result<(), AllocError>
        ensures ok { OnOk result (s.TalkObeys (command_turn self.old.hello (s.phase_of self.old) command.entry) self.old self.new out.old out.new) }
        ensures err { OnErr result (s.IsSame self.old self.new out.old out.new) }
    {
        match command {
            LmtpCommand::Lhlo(_) => self.hail(out),
            LmtpCommand::Mail(mail) => self.open(mail, out),
            LmtpCommand::Rcpt(address) => self.ask(address, out),
            LmtpCommand::Data => self.begin_text(out),
            LmtpCommand::Rset => self.reset(out),
            LmtpCommand::Noop => self.say(LmtpReply::Done, out),
            LmtpCommand::Vrfy => self.say(LmtpReply::Unverified, out),
            LmtpCommand::Help => self.say(LmtpReply::Helped, out),
            LmtpCommand::Quit => self.quit(out),
            LmtpCommand::Refused(reply) => self.say(reply, out),
        }
    }

    // Says a line; nothing else happens.
    pub fn say(&mut self, reply: LmtpReply, out: &mut Octets) -> Result<(), AllocError>
        ensures ok { OnOk result (s.TalkObeys (says reply (s.phase_of self.old)) self.old self.new out.old out.new) }
        ensures err { OnErr result (s.IsSame self.old self.new out.old out.new) }
    {
        out.extend_from_slice(reply.line())
    }

    // Closes the transaction.
    fn drop_mail(&mut self)
        ensures phase { s.phase_of self.new ≡ phase_reset (s.phase_of self.old) }
        ensures same { (self.new.hello ≡ self.old.hello) × (self.new.text ≡ self.old.text) }
    {
        self.recipients.truncate(0);
        match self.stage {
            LmtpStage::Greeted => {}
            _ => self.stage = LmtpStage::Ready,
        }
    }

    fn hail(&mut self, out: &mut Octets) -> Result<(), AllocError>
        ensures ok { OnOk result (s.TalkObeys (hello_turn self.old.hello) self.old self.new out.old out.new) }
        ensures err { OnErr result (s.IsSame self.old self.new out.old out.new) }
    {
        out.extend_from_slice(self.hello.as_slice())?;
        self.recipients.truncate(0);
        self.stage = LmtpStage::Ready;
        Ok(())
    }

    fn reset(&mut self, out: &mut Octets) -> Result<(), AllocError>
        ensures ok { OnOk result (s.TalkObeys (reset_turn (s.phase_of self.old)) self.old self.new out.old out.new) }
        ensures err { OnErr result (s.IsSame self.old self.new out.old out.new) }
    {
        out.extend_from_slice(LmtpReply::Done.line())?;
        self.drop_mail();
        Ok(())
    }

    fn quit(&mut self, out: &mut Octets) -> Result<(), AllocError>
        ensures ok { OnOk result (s.TalkObeys quit_turn self.old self.new out.old out.new) }
        ensures err { OnErr result (s.IsSame self.old self.new out.old out.new) }
    {
        out.extend_from_slice(LmtpReply::Goodbye.line())?;
        self.stage = LmtpStage::Over;
        Ok(())
    }

    fn open(&mut self, mail: MailArgument<'_>, out: &mut Octets) -> Result<(), AllocError>
        ensures ok { OnOk result (s.TalkObeys (mail_turn (s.phase_of self.old) mail.entry.from.now mail.entry.size) self.old self.new out.old out.new) }
        ensures err { OnErr result (s.IsSame self.old self.new out.old out.new) }
    {
        match self.stage {
            LmtpStage::Ready if is_too_large(mail.size) => self.say(
                LmtpReply::MessageTooLarge,
                out,
            ),
            LmtpStage::Ready => self.begin(mail.from, out),
            _ => self.say(LmtpReply::OutOfOrder, out),
        }
    }

    // Begins a transaction.
    fn begin(&mut self, sender: &[u8], out: &mut Octets) -> Result<(), AllocError>
        ensures ok { OnOk result (s.TalkObeys (opened_turn sender.now) self.old self.new out.old out.new) }
        ensures err { OnErr result (s.IsSame self.old self.new out.old out.new) }
    {
        let sender = Octets::from_slice(self.alloc, sender)?;
        out.extend_from_slice(LmtpReply::SenderTaken.line())?;
        self.sender = sender;
        self.recipients.truncate(0);
        self.stage = LmtpStage::Opened;
        Ok(())
    }

    fn ask(&mut self, address: &[u8], out: &mut Octets) -> Result<(), AllocError>
        ensures ok { OnOk result (s.TalkObeys (rcpt_turn (s.phase_of self.old) address.now) self.old self.new out.old out.new) }
        ensures err { OnErr result (s.IsSame self.old self.new out.old out.new) }
    {
        match self.stage {
            LmtpStage::Opened if self.recipients.len() >= MAX_RECIPIENTS => self.say(
                LmtpReply::TooManyRecipients,
                out,
            ),
            LmtpStage::Opened => self.wait_for(address),
            _ => self.say(LmtpReply::OutOfOrder, out),
        }
    }

    // Asks whether there is an account for one more recipient.
    fn wait_for(&mut self, address: &[u8]) -> Result<(), AllocError>
        requires opened { self.old.stage ≡ LmtpStage.Opened }
        ensures ok { OnOk result (s.phase_of self.new ≡ asked_for (s.phase_of self.old) address.now) }
        ensures same { OnOk result ((self.new.hello ≡ self.old.hello) × (self.new.text ≡ self.old.text)) }
        ensures err { OnErr result (self.new ≡ self.old) }
    {
        let address = Octets::from_slice(self.alloc, address)?;
        self.recipients.push(address)?;
        self.stage = LmtpStage::Asking;
        Ok(())
    }

    fn begin_text(&mut self, out: &mut Octets) -> Result<(), AllocError>
        ensures ok { OnOk result (s.TalkObeys (data_turn (s.phase_of self.old)) self.old self.new out.old out.new) }
        ensures err { OnErr result (s.IsSame self.old self.new out.old out.new) }
    {
        match self.stage {
            LmtpStage::Opened if self.recipients.len() == 0 => self.say(
                LmtpReply::NoRecipient,
                out,
            ),
            LmtpStage::Opened => self.go_ahead(out),
            _ => self.say(LmtpReply::OutOfOrder, out),
        }
    }

    // A text is sent from here on.
    fn go_ahead(&mut self, out: &mut Octets) -> Result<(), AllocError>
        requires opened { self.old.stage ≡ LmtpStage.Opened }
        requires some { 0 < length self.old.recipients }
        ensures ok { OnOk result (s.TalkObeys (data_turn (s.phase_of self.old)) self.old self.new out.old out.new) }
        ensures err { OnErr result (s.IsSame self.old self.new out.old out.new) }
    {
        out.extend_from_slice(LmtpReply::GoAhead.line())?;
        self.told = 0;
        self.stage = LmtpStage::Sending;
        Ok(())
    }

    /// Obeys a line; `long`, if it has too many octets.
    pub fn obey_line(&mut self, long: bool, line: &[u8], out: &mut Octets) -> Result<(), AllocError>
        ensures ok { OnOk result (s.TakesTurn (s.item_by long line.now) self.old self.new out.old out.new) }
        ensures err { OnErr result (s.IsSame self.old self.new out.old out.new) }
    {
        if long {
            self.say(LmtpReply::LineTooLong, out)
        } else {
            self.obey(read_lmtp_command(line), out)
        }
    }

    /// It was found whether there is an account for the recipient that is asked for.
    ///
    /// Lack of memory is the only error; nothing changes then.
    pub fn resolve(&mut self, lookup: Lookup, out: &mut Octets) -> Result<(), AllocError>
        requires asked { self.old.stage ≡ LmtpStage.Asking }
        requires some { 0 < length self.old.recipients }
        ensures ok { OnOk result (s.TalkObeys (s.resolved_turn (s.phase_of self.old) lookup) self.old self.new out.old out.new) }
        ensures err { OnErr result (s.IsSame self.old self.new out.old out.new) }
    {
        out.extend_from_slice(lookup.reply().line())?;
        self.admit(lookup);
        Ok(())
    }

    /// The same, but the caller says the line.
    pub fn admit(&mut self, lookup: Lookup)
        requires asked { self.old.stage ≡ LmtpStage.Asking }
        requires some { 0 < length self.old.recipients }
        ensures { s.TalkDoes (s.resolved_turn (s.phase_of self.old) lookup) self.old self.new }
    {
        match lookup {
            Lookup::Known => {}
            _ => self.recipients.truncate(self.recipients.len() - 1),
        }
        self.stage = LmtpStage::Opened;
    }

    /// Makes a reply after the text, for the next recipient to whom one is owed.
    ///
    /// Lack of memory is the only error; nothing changes then.
    pub fn report(&mut self, outcome: &RecipientReply, out: &mut Octets) -> Result<(), AllocError>
        requires sends { self.old.stage ≡ LmtpStage.Sending }
        requires owed { self.old.told < length self.old.recipients }
        ensures ok { OnOk result (s.TalkReports self.old self.new (recipient_lines outcome.now) out.old out.new) }
        ensures err { OnErr result (s.IsSame self.old self.new out.old out.new) }
    {
        let room = ReplyBuffer::new(self.alloc)?;
        out.extend_from_slice(room.say(outcome).as_slice())?;
        self.pass();
        Ok(())
    }

    /// A reply was made after the text, for the next recipient to whom one is owed.
    pub fn pass(&mut self)
        requires sends { self.old.stage ≡ LmtpStage.Sending }
        requires owed { self.old.told < length self.old.recipients }
        ensures { s.PassesReply self.old self.new }
    {
        let count = self.recipients.len();
        let told = self.told + 1;
        if told < count {
            self.told = told;
        } else {
            self.end_message();
        }
    }

    // No reply is owed any more.
    fn end_message(&mut self)
        ensures { s.EndsMessage self.old self.new }
    {
        self.text = Text::new(self.alloc, MAX_TEXT);
        self.recipients.truncate(0);
        self.stage = LmtpStage::Ready;
    }

    /// The recipient that is asked for.
    pub fn asked(&self) -> &[u8]
        requires { 0 < length self.now.recipients }
        ensures { result.now ≡ slice_index_or self.now.recipients (length self.now.recipients - 1) [] }
    {
        self.recipients.address(self.recipients.len() - 1)
    }

    /// The message for the next recipient to whom a reply is owed.
    pub fn delivery(&self) -> ReceivedMessage<'_>
        requires { self.now.told < length self.now.recipients }
        ensures sender { result.sender.now ≡ self.now.sender }
        ensures recipient { result.recipient.now ≡ slice_index_or self.now.recipients self.now.told [] }
        ensures text { IsFinishedText self.now.text result.text }
    {
        ReceivedMessage {
            sender: self.sender.as_slice(),
            recipient: self.recipients.address(self.told),
            text: self.text.kept(),
        }
    }
}

// Whether a size was announced that no message may have.
fn is_too_large(size: Option<u64>) -> bool
    ensures { result ≡ too_large size }
{
    match size {
        Some(size) => size > MAX_TEXT as u64,
        None => false,
    }
}
