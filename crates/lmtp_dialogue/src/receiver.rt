//! The server's side of a dialogue.
ghost use Rattle.std.specs.Prelude.{◌≡◌, ◌≢◌, ◌⊎◌, ◌↔◌, ◌+◌, ◌≤◌, length, ◌++◌, true, IsTrue, IfOk, OnOk, OnErr};
ghost use Rattle.lmtp_dialogue.specs.Dialogues.{Dialogue, new_dialogue};
ghost use Rattle.lmtp_dialogue.specs.Lines.{LineFinds};
ghost use Rattle.lmtp_dialogue.specs.Receivers as s;
ghost use Rattle.lmtp_dialogue.specs.Replies as r;
ghost use Rattle.lmtp_dialogue.specs.Turns.{DialogueAnswers, Resolves, DialogueReplies, lookup_reply, lacks_room, announced_size as spec_size};

use crate::command::{LmtpCommand, read_lmtp_command};
use crate::command_line::{Found, find_line, skip_line};
use crate::message_text::{Text, TextFault};
use crate::recipient_reply::RecipientReply;
use crate::recipients::Recipients;
use crate::reply::{LmtpReply, capabilities, greeting};
use crate::talk::{MAX_TEXT, Talk};
use octets::{Octets, Pending};
use std::alloc::{AllocError, Global};

/// What goes on in a dialogue.
#[derive(Clone, Copy, Debug, PartialEq, Eq)]
pub enum LmtpStage {
    /// The client hasn't said LHLO.
    Greeted,
    /// No transaction is open.
    Ready,
    /// One is.
    Opened,
    /// The same, and it is asked whether there is an account for one recipient more.
    Asking,
    /// The text of a message is sent, or was.
    Sending,
    /// The client has said QUIT.
    Over,
}

/// What was found about the account of a recipient.
#[derive(Clone, Copy, Debug, PartialEq, Eq)]
pub enum Lookup {
    /// There is one.
    Known,
    /// There is none.
    Unknown,
    /// It can't be looked for now, since another process has the store.
    Away,
    /// Nor because of another fault of this host.
    Fault,
    /// Nor for lack of memory.
    NoRoom,
}

/// A message for one recipient.
#[derive(Clone, Copy)]
pub struct ReceivedMessage<'a> {
    /// The sender's address; empty for that of a bounce.
    pub sender: &'a [u8],
    pub recipient: &'a [u8],
    /// The text, or why it isn't kept.
    pub text: Result<&'a [u8], TextFault>,
}

/// What comes next in a dialogue.
#[derive(Clone, Copy)]
pub enum Next<'a> {
    /// Octets of the client: no line or text is whole.
    Need,
    /// A line, which `answer` takes off.
    Line,
    /// Whether there is an account for this recipient, which `resolve` is told.
    Recipient(&'a [u8]),
    /// The message is to be delivered to the next recipient: `report` is told what became of it.
    Delivery(ReceivedMessage<'a>),
    /// Nothing: the client has said QUIT.
    Over,
}

/// The server's side of a dialogue of LMTP (RFC 2033): it hears a client's octets, in pieces cut anywhere, and says what is answered.
///
/// It knows nothing of accounts and of time. It holds at most a piece and 2,048 octets of lines, a text of at most 33,552,232 octets, and
/// 1,000 recipients of 1,024 octets. Octets of a line that is too long, and of a text that is too large, are dropped as they come.
#[derive(Drop)]
pub struct Receiver {
    // Octets that came, except for those that are taken in already.
    pub(crate) unread: Pending,
    // The line that comes first has too many octets, and those before `unread` were dropped.
    pub(crate) long: bool,
    pub(crate) talk: Talk,
}

impl Lookup {
    /// What a recipient is answered.
    pub fn reply(self) -> LmtpReply
        ensures { result ≡ lookup_reply self }
    {
        match self {
            Lookup::Known => LmtpReply::RecipientTaken,
            Lookup::Unknown => LmtpReply::NoSuchUser,
            Lookup::Away => LmtpReply::StoreAway,
            Lookup::Fault => LmtpReply::LocalFault,
            Lookup::NoRoom => LmtpReply::NoRoom,
        }
    }
}

impl Receiver {
    /// A new dialogue, whose greeting is appended to the output. Of the host's name 255 octets are shown, with `?` for each that isn't
    /// printable ASCII.
    ///
    /// Lack of memory is the only error; the output then stays as it was.
    pub fn new(alloc: Global, host: &[u8], out: &mut Octets) -> Result<Receiver, AllocError>
        ensures begins { IfOk result (λ receiver. s.StandsIn receiver new_dialogue) }
        ensures empty { IfOk result (λ receiver. s.held_by receiver ≡ 0) }
        ensures hello { IfOk result (λ receiver. receiver.talk.hello ≡ r.lmtp_capabilities host.now) }
        ensures greets { OnOk result (out.new ≡ out.old ++ r.lmtp_greeting host.now) }
        ensures err { OnErr result (out.new ≡ out.old) }
    {
        let hello = capabilities(alloc, host)?;
        let line = greeting(alloc, host)?;
        out.extend_from_slice(line.as_slice())?;
        Ok(Receiver {
            unread: Pending::new(alloc),
            long: false,
            talk: Talk {
                alloc,
                hello,
                stage: LmtpStage::Greeted,
                sender: Octets::new(alloc),
                recipients: Recipients::new(alloc),
                told: 0,
                text: Text::new(alloc, MAX_TEXT),
            },
        })
    }

    /// Takes octets of the client. If memory is lacking for a text that is sent, the text is dropped and the call succeeds.
    ///
    /// Lack of memory is the only error; nothing changes then. Time is linear in the octets of the piece, and in those that are unread.
    pub fn give(&mut self, piece: &[u8]) -> Result<(), AllocError>
        ensures hears { OnOk result (s.ReceiverHears self.old piece.now self.new) }
        ensures held { s.held_by self.new ≤ s.held_by self.old + length piece.now }
        ensures hello { self.new.talk.hello ≡ self.old.talk.hello }
        ensures err { OnErr result (self.new ≡ self.old) }
    {
        self.unread.extend_from_slice(piece)?;
        self.take_in();
        Ok(())
    }

    /// What comes next. Takes no memory, and constant time: of a line at most 2,048 octets are looked at.
    pub fn next(&self) -> Next<'_>
        ensures { (d : Dialogue) → s.StandsIn self.now d → s.ComesNext d result }
    {
        match self.talk.stage {
            LmtpStage::Over => Next::Over,
            LmtpStage::Asking => Next::Recipient(self.talk.asked()),
            LmtpStage::Sending => self.next_delivery(),
            LmtpStage::Greeted | LmtpStage::Ready | LmtpStage::Opened => self.next_line(),
        }
    }

    fn next_line(&self) -> Next<'_>
        requires { s.reads_lines self.now.talk.stage ≡ true }
        ensures { (d : Dialogue) → s.StandsIn self.now d → s.ComesNext d result }
    {
        match find_line(self.unread.as_slice()) {
            Found::Line(_) => Next::Line,
            _ => Next::Need,
        }
    }

    fn next_delivery(&self) -> Next<'_>
        requires { self.now.talk.stage ≡ LmtpStage.Sending }
        ensures { (d : Dialogue) → s.StandsIn self.now d → s.ComesNext d result }
    {
        if !self.talk.text.has_ended() {
            return Next::Need;
        }
        Next::Delivery(self.talk.delivery())
    }

    /// Takes off and answers the line that comes next; if none does, nothing changes.
    ///
    /// Lack of memory is the only error; nothing changes then.
    pub fn answer(&mut self, out: &mut Octets) -> Result<(), AllocError>
        ensures ok { OnOk result (s.ReceiverGoes (DialogueAnswers self.old.talk.hello) self.old self.new out.old out.new) }
        ensures line { OnOk result (s.SaysNext self.old self.new out.old out.new) }
        ensures hello { self.new.talk.hello ≡ self.old.talk.hello }
        ensures held { s.ReceiverHoldsNoMore self.old self.new }
        ensures err { OnErr result ((self.new ≡ self.old) × (out.new ≡ out.old)) }
    {
        match self.talk.stage {
            LmtpStage::Greeted | LmtpStage::Ready | LmtpStage::Opened => self.answer_line(out),
            LmtpStage::Asking | LmtpStage::Sending | LmtpStage::Over => Ok(()),
        }
    }

    fn answer_line(&mut self, out: &mut Octets) -> Result<(), AllocError>
        requires { s.reads_lines self.old.talk.stage ≡ true }
        ensures ok { OnOk result (s.ReceiverGoes (DialogueAnswers self.old.talk.hello) self.old self.new out.old out.new) }
        ensures line { OnOk result (s.SaysNext self.old self.new out.old out.new) }
        ensures hello { self.new.talk.hello ≡ self.old.talk.hello }
        ensures held { s.ReceiverHoldsNoMore self.old self.new }
        ensures err { OnErr result ((self.new ≡ self.old) × (out.new ≡ out.old)) }
    {
        let Found::Line(count) = find_line(self.unread.as_slice()) else {
            return Ok(());
        };
        self.talk
            .obey_line(self.long, &self.unread.as_slice()[..count], out)?;
        self.unread.drop_front(count + 2);
        self.long = false;
        self.take_in();
        Ok(())
    }

    /// If the line that comes next is a MAIL which may come now, and which announces more than `room` octets (RFC 1870), takes it off and
    /// refuses it for lack of room (452 4.3.1), and returns true; otherwise nothing changes. One that announces more than a message may have
    /// is left to `answer`, and so is one that announces nothing.
    ///
    /// Lack of memory is the only error; nothing changes then.
    pub fn refuse(&mut self, room: u64, out: &mut Octets) -> Result<bool, AllocError>
        ensures ok { IfOk result (λ did. s.ReceiverRefuses room self.old self.new out.old out.new did) }
        ensures hello { self.new.talk.hello ≡ self.old.talk.hello }
        ensures held { s.ReceiverHoldsNoMore self.old self.new }
        ensures err { OnErr result ((self.new ≡ self.old) × (out.new ≡ out.old)) }
    {
        match self.talk.stage {
            LmtpStage::Ready => self.refuse_line(room, out),
            _ => Ok(false),
        }
    }

    fn refuse_line(&mut self, room: u64, out: &mut Octets) -> Result<bool, AllocError>
        requires { self.old.talk.stage ≡ LmtpStage.Ready }
        ensures ok { IfOk result (λ did. s.ReceiverRefuses room self.old self.new out.old out.new did) }
        ensures hello { self.new.talk.hello ≡ self.old.talk.hello }
        ensures held { s.ReceiverHoldsNoMore self.old self.new }
        ensures err { OnErr result ((self.new ≡ self.old) × (out.new ≡ out.old)) }
    {
        let Found::Line(count) = find_line(self.unread.as_slice()) else {
            return Ok(false);
        };
        if !self.is_over(count, room) {
            return Ok(false);
        }
        out.extend_from_slice(LmtpReply::NoRoom.line())?;
        self.unread.drop_front(count + 2);
        self.take_in();
        Ok(true)
    }

    // Whether the line of this many octets that comes next is a MAIL for whose size there is no room.
    fn is_over(&self, count: usize, room: u64) -> bool
        requires { count ≤ length self.now.unread }
        ensures { s.IsOverRoom room self.now count result }
    {
        if self.long {
            return false;
        }
        let command = read_lmtp_command(&self.unread.as_slice()[..count]);
        is_over_room(size_of(command), room)
    }

    /// Is told whether there is an account for the recipient that comes next; if none does, nothing changes.
    ///
    /// Lack of memory is the only error; nothing changes then.
    pub fn resolve(&mut self, lookup: Lookup, out: &mut Octets) -> Result<(), AllocError>
        ensures ok { OnOk result (s.ReceiverGoes (λ d. Resolves d lookup) self.old self.new out.old out.new) }
        ensures hello { self.new.talk.hello ≡ self.old.talk.hello }
        ensures held { s.ReceiverHoldsNoMore self.old self.new }
        ensures err { OnErr result ((self.new ≡ self.old) × (out.new ≡ out.old)) }
    {
        match self.talk.stage {
            LmtpStage::Asking => {
                self.talk.resolve(lookup, out)?;
                Ok(())
            }
            _ => Ok(()),
        }
    }

    /// The same, but the caller says the line, which `Lookup::reply` gives. Takes no memory, so that it can be reserved before asking.
    pub fn admit(&mut self, lookup: Lookup)
        ensures goes { s.ReceiverAdmits lookup self.old self.new }
        ensures hello { self.new.talk.hello ≡ self.old.talk.hello }
        ensures held { s.ReceiverHoldsNoMore self.old self.new }
    {
        match self.talk.stage {
            LmtpStage::Asking => self.talk.admit(lookup),
            _ => {}
        }
    }

    /// Is told what became of the message for the recipient to whom it is to be delivered next; if there is none, nothing changes.
    /// After the last one the message is dropped.
    ///
    /// Lack of memory is the only error; nothing changes then.
    pub fn report(&mut self, outcome: &RecipientReply, out: &mut Octets) -> Result<(), AllocError>
        ensures ok { OnOk result (s.ReceiverGoes (λ d. DialogueReplies d outcome.now) self.old self.new out.old out.new) }
        ensures hello { self.new.talk.hello ≡ self.old.talk.hello }
        ensures held { s.ReceiverHoldsNoMore self.old self.new }
        ensures err { OnErr result ((self.new ≡ self.old) × (out.new ≡ out.old)) }
    {
        match self.talk.stage {
            LmtpStage::Sending => self.report_next(outcome, out),
            _ => Ok(()),
        }
    }

    fn report_next(&mut self, outcome: &RecipientReply, out: &mut Octets) -> Result<(), AllocError>
        requires { self.old.talk.stage ≡ LmtpStage.Sending }
        ensures ok { OnOk result (s.ReceiverGoes (λ d. DialogueReplies d outcome.now) self.old self.new out.old out.new) }
        ensures hello { self.new.talk.hello ≡ self.old.talk.hello }
        ensures held { s.ReceiverHoldsNoMore self.old self.new }
        ensures err { OnErr result ((self.new ≡ self.old) × (out.new ≡ out.old)) }
    {
        if !self.talk.text.has_ended() {
            return Ok(());
        }
        self.talk.report(outcome, out)?;
        self.take_in();
        Ok(())
    }

    /// A reply was made for the recipient to whom the message is to be delivered next: the caller says it, as `ReplyBuffer::say` gives it.
    /// If there is none, nothing changes. Takes no memory, so that it can be reserved before the message is delivered.
    pub fn pass(&mut self)
        ensures goes { s.ReceiverPasses self.old self.new }
        ensures hello { self.new.talk.hello ≡ self.old.talk.hello }
        ensures held { s.ReceiverHoldsNoMore self.old self.new }
    {
        match self.talk.stage {
            LmtpStage::Sending => self.pass_next(),
            _ => {}
        }
    }

    fn pass_next(&mut self)
        requires { self.old.talk.stage ≡ LmtpStage.Sending }
        ensures goes { s.ReceiverPasses self.old self.new }
        ensures hello { self.new.talk.hello ≡ self.old.talk.hello }
        ensures held { s.ReceiverHoldsNoMore self.old self.new }
    {
        if !self.talk.text.has_ended() {
            return;
        }
        self.talk.pass();
        self.take_in();
    }

    /// Drops a text that is sent, or was, because memory is lacking for it. It is read to its end, and the deliveries have no
    /// text then. If none is sent, nothing changes. Takes no memory.
    pub fn drop_text(&mut self)
        ensures stands { (d : Dialogue) → s.StandsIn self.old d → s.StandsIn self.new d }
        ensures dropped { s.IsDropped self.new.talk }
        ensures other { self.old.talk.stage ≢ LmtpStage.Sending → self.new ≡ self.old }
        ensures hello { self.new.talk.hello ≡ self.old.talk.hello }
        ensures held { s.ReceiverHoldsNoMore self.old self.new }
    {
        match self.talk.stage {
            LmtpStage::Sending => self.talk.text.give_up(),
            _ => {}
        }
    }

    /// How many octets of lines and of a text it holds. A sender and recipients are held besides.
    pub fn held(&self) -> usize
        ensures { result ≡ s.held_by self.now }
    {
        self.unread.as_slice().len() + self.talk.text.held()
    }

    /// What goes on.
    pub fn stage(&self) -> LmtpStage
        ensures { result ≡ self.now.talk.stage }
    {
        self.talk.stage
    }

    // Takes in what can't wait: octets of a text, those of a line that is too long, and what comes after QUIT.
    fn take_in(&mut self)
        ensures takes { s.ReceiverTakesIn self.old self.new }
        ensures talk { self.new.talk.hello ≡ self.old.talk.hello }
        ensures held { s.ReceiverHoldsNoMore self.old self.new }
    {
        match self.talk.stage {
            LmtpStage::Sending => self.feed_text(),
            LmtpStage::Over => self.unread.drop_front(self.unread.len()),
            _ => self.skip_long(),
        }
    }

    fn feed_text(&mut self)
        requires { self.old.talk.stage ≡ LmtpStage.Sending }
        ensures takes { s.ReceiverTakesIn self.old self.new }
        ensures talk { self.new.talk.hello ≡ self.old.talk.hello }
        ensures held { s.ReceiverHoldsNoMore self.old self.new }
    {
        let taken = self.talk.text.feed(self.unread.as_slice());
        self.unread.drop_front(taken);
    }

    fn skip_long(&mut self)
        requires { s.takes_lines self.old.talk.stage ≡ true }
        ensures takes { s.ReceiverTakesIn self.old self.new }
        ensures talk { self.new.talk.hello ≡ self.old.talk.hello }
        ensures held { s.ReceiverHoldsNoMore self.old self.new }
    {
        if self.long {
            self.drop_line();
        } else if is_too_long(self.unread.as_slice()) {
            self.drop_line();
        }
    }

    // Drops octets of a line that is too long.
    fn drop_line(&mut self)
        requires lines { s.takes_lines self.old.talk.stage ≡ true }
        requires long { (self.old.long ≡ true) ⊎ LineFinds Found.TooLong self.old.unread }
        ensures takes { s.ReceiverTakesIn self.old self.new }
        ensures talk { self.new.talk.hello ≡ self.old.talk.hello }
        ensures held { s.ReceiverHoldsNoMore self.old self.new }
    {
        self.long = true;
        let count = skip_line(self.unread.as_slice());
        self.unread.drop_front(count);
    }
}

// Whether the line that comes first has more octets than one may have.
fn is_too_long(octets: &[u8]) -> bool
    ensures { IsTrue result ↔ LineFinds Found.TooLong octets.now }
{
    match find_line(octets) {
        Found::TooLong => true,
        _ => false,
    }
}

// The size that a MAIL announces.
fn size_of(command: LmtpCommand<'_>) -> Option<u64>
    ensures { result ≡ spec_size command.entry }
{
    match command {
        LmtpCommand::Mail(mail) => mail.size,
        _ => None,
    }
}

// Whether more is announced than there is room for, and no more than a message may have.
fn is_over_room(size: Option<u64>, room: u64) -> bool
    ensures { result ≡ lacks_room room size }
{
    match size {
        Some(size) => room < size && size <= MAX_TEXT as u64,
        None => false,
    }
}
