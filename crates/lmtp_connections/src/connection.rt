//! The state of one connection.
ghost use Rattle.std.specs.Prelude.{◌≡◌, ◌≢◌, ◌+◌, ◌<◌, ◌≤◌, List, [], ◌∷◌, ◌++◌, length, Some, None, IfOk, IfSome, IsOk, OnOk, OnErr};
ghost use Rattle.lmtp_dialogue.specs.RecipientReplies.{recipient_lines};
ghost use Rattle.lmtp_connections.specs.declared.addressee.Addressee.{Addressee};
ghost use Rattle.lmtp_dialogue.specs.Receivers as receivers;
ghost use Rattle.lmtp_dialogue.specs.Replies as replies;
ghost use Rattle.lmtp_connections.specs.Connections as connections;
ghost use Rattle.lmtp_connections.specs.Connections.{Answered, Asked, Away, Brought};
ghost use Rattle.lmtp_connections.specs.Stands as s;
ghost use Rattle.lmtp_connections.specs.Progress as progress_rules;
ghost use Rattle.lmtp_connections.specs.declared.demand.Demand.TheVariants as demands;

use crate::addressee::Addressee;
use crate::demand::{DeliveryRequest, Question};
use crate::progress::{LmtpProgress, Wanted};
use lmtp_dialogue::{LmtpStage, Lookup, Names, Next, Receiver, RecipientReply, ReplyBuffer};
use octets::Octets;
use std::alloc::{AllocError, Global};

/// One connection of LMTP: its dialogue, and the accounts of the recipients of the current message.
///
/// It knows no store: it says what is to be asked of one (`demand`), and is told what became of it. It holds what its
/// receiver holds, and 1,000 recipients of twice 1,024 octets.
#[derive(Drop)]
pub struct LmtpConnection {
    pub(crate) alloc: Global,
    pub(crate) names: Names,
    pub(crate) receiver: Receiver,
    /// What the dialogue wants.
    pub(crate) comes: Wanted,
    /// The recipients that were taken, with their accounts.
    pub(crate) addressees: Vec<Addressee>,
    pub(crate) progress: LmtpProgress,
    /// Memory for the reply to a message that the store is given.
    pub(crate) room: Option<ReplyBuffer>,
}

impl LmtpConnection {
    /// One that has just come: it is greeted, by the host's name.
    ///
    /// Lack of memory is the only error; the output then stays as it was.
    pub fn new(
        alloc: Global,
        names: Names,
        host: &[u8],
        now: u64,
        out: &mut Octets,
    ) -> Result<LmtpConnection, AllocError>
        requires { out.old ≡ [] }
        ensures begins { IfOk result (λ connection. s.ConnectionStands connection (connections.new_lmtp_state names host.now now)) }
        ensures empty { IfOk result (λ connection. receivers.held_by connection.receiver ≡ 0) }
        ensures greets { OnOk result (out.new ≡ replies.lmtp_greeting host.now) }
        ensures err { OnErr result (out.new ≡ out.old) }
    {
        let receiver = Receiver::new(alloc, host, out)?;
        let comes = wanted_for(receiver.next());
        Ok(LmtpConnection {
            alloc,
            names,
            receiver,
            comes,
            addressees: Vec::new(alloc),
            progress: LmtpProgress::fresh(now),
            room: None,
        })
    }

    /// What is wanted of it, once all is sent.
    pub fn wanted(&self) -> Wanted
        ensures { result ≡ progress_rules.wanted self.now.comes self.now.progress }
    {
        self.progress.wanted(self.comes)
    }

    /// The moment by which its client is late.
    pub fn due(&self) -> u64
        ensures { result ≡ progress_rules.due self.now.progress }
    {
        self.progress.due()
    }

    /// Since when a client without an accepted recipient owes octets. None if it has a recipient, or if an answer is owed to it.
    pub fn owed_since(&self) -> Option<u64>
        ensures { result ≡ s.owed_since self.now }
    {
        owed_by(
            self.addressees.as_slice(),
            self.wanted(),
            self.progress.claim_since,
        )
    }

    /// Whether its client has said LHLO.
    pub fn has_said_hello(&self) -> bool
        ensures { result ≡ s.has_said_hello self.now }
    {
        has_said_at(self.receiver.stage())
    }

    /// Takes octets of the client.
    ///
    /// Lack of memory is the only error; nothing changes then.
    pub fn hear(&mut self, now: u64, piece: &[u8]) -> Result<(), AllocError>
        ensures hears { OnOk result (s.ConnectionHears now piece.now self.old self.new) }
        ensures held { receivers.held_by self.new.receiver ≤ receivers.held_by self.old.receiver + length piece.now }
        ensures err { OnErr result (self.new ≡ self.old) }
    {
        let sending = is_sending(self.receiver.stage());
        self.receiver.give(piece)?;
        self.comes = wanted_for(self.receiver.next());
        self.progress = self.progress.heard(now, sending, piece.len());
        Ok(())
    }

    /// How many octets of lines and of a text it holds; a sender and recipients are held besides. Constant time.
    pub fn held(&self) -> usize
        ensures { result ≡ receivers.held_by self.now.receiver }
    {
        self.receiver.held()
    }

    /// Drops a text that is sent, or was, since there is no room for it: it is read to its end, and each recipient who has had no reply is
    /// told so (452). If none is sent, nothing changes. Takes no memory.
    pub fn drop_text(&mut self)
        ensures keeps { s.ConnectionKeeps self.old self.new }
        ensures dropped { receivers.IsDropped self.new.receiver.talk }
        ensures other { self.old.receiver.talk.stage ≢ LmtpStage.Sending → self.new ≡ self.old }
        ensures held { s.ConnectionHoldsNoMore self.old self.new }
    {
        self.receiver.drop_text();
    }

    /// If a MAIL comes next that announces more octets than there is `room` for, refuses it (452, RFC 1870, section 6.1) and returns
    /// true; otherwise nothing changes.
    ///
    /// Lack of memory is the only error; nothing changes then.
    pub fn refuse(&mut self, now: u64, room: u64, out: &mut Octets) -> Result<bool, AllocError>
        requires out { out.old ≡ [] }
        ensures ok { IfOk result (λ did. s.ConnectionRefuses now room out.new did self.old self.new) }
        ensures held { s.ConnectionHoldsNoMore self.old self.new }
        ensures err { OnErr result ((self.new ≡ self.old) × (out.new ≡ out.old)) }
    {
        let did = self.receiver.refuse(room, out)?;
        if did {
            self.go_on(now);
        }
        Ok(did)
    }

    /// Answers the line that comes next.
    ///
    /// Lack of memory is the only error.
    pub fn answer(&mut self, now: u64, out: &mut Octets) -> Result<(), AllocError>
        requires out { out.old ≡ [] }
        requires line { s.Demands now self.old demands.Line }
        ensures does { OnOk result (s.ConnectionDoes now Answered out.new self.old self.new) }
        ensures held { s.ConnectionHoldsNoMore self.old self.new }
    {
        self.receiver.answer(out)?;
        self.go_on(now);
        Ok(())
    }

    /// Puts off the recipient that is asked for: the store was away for too long.
    ///
    /// Lack of memory is the only error.
    pub fn put_off(&mut self, now: u64) -> Result<Octets, AllocError>
        requires { s.Demands now self.old demands.PutOff }
        ensures does { IfOk result (λ said. s.ConnectionDoes now Answered said self.old self.new) }
        ensures held { s.ConnectionHoldsNoMore self.old self.new }
    {
        let room = ReplyBuffer::new(self.alloc)?;
        Ok(self.resolve(now, Lookup::Away, room))
    }

    /// The store isn't available, and is asked for again.
    pub fn await_store(&mut self, now: u64)
        requires { s.AsksIt now self.old }
        ensures does { s.ConnectionDoes now Away [] self.old self.new }
        ensures held { s.ConnectionHoldsNoMore self.old self.new }
    {
        self.progress = self.progress.away(now);
    }

    /// The store was asked a question, and this is what was found. Returns what is said. Takes no memory.
    pub fn answer_recipient(
        &mut self,
        now: u64,
        question: Question,
        lookup: Lookup,
        room: ReplyBuffer,
    ) -> Octets
        requires found { connections.IsFinding lookup }
        requires asked { s.Demands now self.old (demands.Account question) }
        requires slot { s.HasSlot self.old }
        ensures does { s.ConnectionDoes now (Asked question.user lookup) result self.old self.new }
        ensures held { s.ConnectionHoldsNoMore self.old self.new }
    {
        let Question {
            user,
            address,
            next,
        } = question;
        match lookup {
            Lookup::Known => {
                self.addressees.push_reserved(Addressee {
                    user,
                    address,
                    became: None,
                });
                self.resolve(now, lookup, room)
            }
            Lookup::Unknown => match next {
                Some(next) => self.try_next(now, next),
                None => self.resolve(now, lookup, room),
            },
            Lookup::Fault => self.resolve(now, lookup, room),
            Lookup::NoRoom => self.resolve(now, lookup, room),
            Lookup::Away => self.resolve(now, lookup, room),
        }
    }

    // Looks for the next form of the recipient's name.
    fn try_next(&mut self, now: u64, next: usize) -> Octets
        ensures said { result ≡ [] }
        ensures progress { self.new.progress ≡ record (progress_rules.progress_done now self.old.progress) { tried = next } }
        ensures rest { self.new ≡ record self.old { progress = self.new.progress } }
    {
        self.progress = self.progress.done(now);
        self.progress.tried = next;
        Octets::new(self.alloc)
    }

    // Answers the recipient.
    fn resolve(&mut self, now: u64, lookup: Lookup, room: ReplyBuffer) -> Octets
        ensures resolves { s.ResolvesIt now lookup result self.old self.new }
        ensures held { s.ConnectionHoldsNoMore self.old self.new }
    {
        self.receiver.admit(lookup);
        self.progress.tried = 0;
        self.go_on(now);
        room.say_line(lookup.reply())
    }

    /// Makes a reply after the text without the store. Returns what is said.
    ///
    /// Lack of memory is the only error.
    pub fn reply(&mut self, now: u64, became: RecipientReply) -> Result<Octets, AllocError>
        requires { s.Demands now self.old (demands.Reply became) }
        ensures does { IfOk result (λ said. s.ConnectionDoes now Answered said self.old self.new) }
        ensures held { s.ConnectionHoldsNoMore self.old self.new }
    {
        let room = ReplyBuffer::new(self.alloc)?;
        Ok(self.tell(now, became, room))
    }

    /// Reserves memory for the reply to a message before the store is given it. Then neither `answer_delivery` takes memory, nor
    /// `demand` behind it, nor `reply_noted`: what the store did is told.
    ///
    /// Lack of memory is the only error; nothing changes then.
    pub fn reserve_reply(&mut self) -> Result<(), AllocError>
        ensures alike { s.StandsAlike self.old self.new }
        ensures receiver { self.new.receiver ≡ self.old.receiver }
        ensures reserved { OnOk result (self.new.room ≢ None) }
        ensures err { OnErr result (self.new ≡ self.old) }
    {
        if self.room.is_none() {
            self.room = Some(ReplyBuffer::new(self.alloc)?);
        }
        Ok(())
    }

    /// The store was given the request, and this became of it. The reply is the next step's (`demand`). Takes no memory.
    pub fn answer_delivery(&mut self, now: u64, request: &DeliveryRequest, became: RecipientReply)
        requires { s.IsRequested now self.old request.now }
        ensures does { s.ConnectionDoes now (Brought request.now became) [] self.old self.new }
        ensures held { s.ConnectionHoldsNoMore self.old self.new }
    {
        self.set_became(became);
        self.progress = self.progress.settled(now, true, true);
    }

    /// Tells what became of the message, as it was noted (`answer_delivery`). Returns what is said. Takes no memory if that was reserved
    /// (`reserve_reply`).
    ///
    /// Lack of memory is the only error.
    pub fn reply_noted(&mut self, now: u64) -> Result<Octets, AllocError>
        requires { s.Demands now self.old demands.Noted }
        ensures does { IfOk result (λ said. s.ConnectionDoes now Answered said self.old self.new) }
        ensures held { s.ConnectionHoldsNoMore self.old self.new }
        ensures reserved { self.old.room ≢ None → IsOk result }
    {
        let room = match self.room.take() {
            Some(room) => room,
            None => ReplyBuffer::new(self.alloc)?,
        };
        Ok(self.tell_noted(now, room))
    }

    // Makes the reply to the next recipient by what was noted.
    fn tell_noted(&mut self, now: u64, room: ReplyBuffer) -> Octets
        ensures tells { s.TellsNoted now result self.old self.new }
        ensures held { s.ConnectionHoldsNoMore self.old self.new }
    {
        let lines = self.say_noted(room);
        self.receiver.pass();
        self.pass_recipient();
        self.go_on(now);
        lines
    }

    // The lines that tell what was noted for the next recipient.
    fn say_noted(&self, room: ReplyBuffer) -> Octets
        ensures { IfSome (s.noted self.now) (λ became. result ≡ recipient_lines became) }
    {
        let addressee = self.addressees.get(self.progress.told);
        match addressee.and_then(|it| it.became.as_ref()) {
            Some(became) => room.say(became),
            None => Octets::new(self.alloc),
        }
    }

    // Passes on to the recipient behind the next one.
    fn pass_recipient(&mut self)
        ensures counted { self.old.progress.told < length self.old.addressees.items → self.new.progress ≡ connections.next_recipient self.old.progress }
        ensures rest { self.new ≡ record self.old { progress = self.new.progress } }
    {
        let told = self.progress.told;
        if told < self.addressees.len() {
            self.progress.told = told + 1;
        }
    }

    // Makes the reply to the next recipient.
    fn tell(&mut self, now: u64, became: RecipientReply, room: ReplyBuffer) -> Octets
        ensures tells { s.TellsIt now became result self.old self.new }
        ensures held { s.ConnectionHoldsNoMore self.old self.new }
    {
        let lines = room.say(&became);
        self.receiver.pass();
        self.note_became(became);
        self.go_on(now);
        lines
    }

    // Notes what became of the message for the next recipient, who is told so.
    fn note_became(&mut self, became: RecipientReply)
        ensures noted { s.NotesBecame became self.old self.new }
        ensures counted { self.old.progress.told < length self.old.addressees.items → self.new.progress ≡ connections.next_recipient self.old.progress }
        ensures receiver { self.new.receiver ≡ self.old.receiver }
        ensures names { self.new.names ≡ self.old.names }
    {
        self.set_became(became);
        self.pass_recipient();
    }

    // Notes what became of the message for the recipient to whom a reply is owed next.
    fn set_became(&mut self, became: RecipientReply)
        ensures noted { s.NotesBecame became self.old self.new }
        ensures count { length self.new.addressees.items ≡ length self.old.addressees.items }
        ensures rest { self.new ≡ record self.old { addressees = self.new.addressees } }
    {
        let told = self.progress.told;
        if let Some(addressee) = self.addressees.get_mut(told) {
            addressee.became = Some(became);
        }
    }

    // What follows from what goes on in the dialogue.
    fn go_on(&mut self, now: u64)
        ensures goes { s.ConnectionGoesOn now self.old self.new }
        ensures receiver { self.new.receiver ≡ self.old.receiver }
    {
        self.settle(now);
        self.comes = wanted_for(self.receiver.next());
    }

    // Drops what is left of a transaction that is no longer open.
    fn settle(&mut self, now: u64)
        ensures { s.Settles now self.old self.new }
    {
        let opened = is_open(self.receiver.stage());
        self.progress = self
            .progress
            .settled(now, opened, has_some(self.addressees.as_slice()));
        if !opened {
            self.addressees.truncate(0);
        }
    }
}

fn has_some(addressees: &[Addressee]) -> bool
    ensures { result ≡ connections.has_some addressees.now }
{
    match addressees {
        [] => false,
        _ => true,
    }
}

fn wanted_for(next: Next<'_>) -> Wanted
    ensures { result ≡ s.wanted_for next.entry }
{
    match next {
        Next::Need => Wanted::More,
        Next::Line | Next::Recipient(_) | Next::Delivery(_) => Wanted::Step,
        Next::Over => Wanted::Done,
    }
}

// Since when it owes octets, if no recipient is taken and more is wanted of it.
fn owed_by(addressees: &[Addressee], wanted: Wanted, since: u64) -> Option<u64>
    ensures { result ≡ s.owed_by addressees.now wanted since }
{
    if has_some(addressees) {
        return None;
    }
    match wanted {
        Wanted::More => Some(since),
        Wanted::Step | Wanted::Until(_) | Wanted::Done => None,
    }
}

// Whether LHLO was said.
fn has_said_at(stage: LmtpStage) -> bool
    ensures { result ≡ s.has_said_at stage }
{
    match stage {
        LmtpStage::Greeted => false,
        _ => true,
    }
}

// Whether a transaction is open.
fn is_open(stage: LmtpStage) -> bool
    ensures { result ≡ s.is_open_at stage }
{
    match stage {
        LmtpStage::Opened | LmtpStage::Asking | LmtpStage::Sending => true,
        LmtpStage::Greeted | LmtpStage::Ready | LmtpStage::Over => false,
    }
}

fn is_sending(stage: LmtpStage) -> bool
    ensures { result ≡ s.is_sending_at stage }
{
    match stage {
        LmtpStage::Sending => true,
        _ => false,
    }
}
