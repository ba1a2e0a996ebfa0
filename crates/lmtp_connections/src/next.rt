//! What is to be done next for a connection.
ghost use Rattle.std.specs.Prelude.{◌≡◌, ◌<◌, ◌≤◌, length, find, slice_get, Some, None, IfOk, IfNone, IfSome, OnOk};
ghost use Rattle.std.specs.Option.{option_copied};
ghost use Rattle.lmtp_dialogue.specs.Dialogues.{Dialogue};
ghost use Rattle.lmtp_dialogue.specs.Copies as copies;
ghost use Rattle.lmtp_dialogue.specs.Receivers.{StandsIn, ComesNext};
ghost use Rattle.lmtp_connections.specs.Connections as connections;
ghost use Rattle.lmtp_connections.specs.Stands as s;

use crate::addressee::Addressee;
use crate::connection::LmtpConnection;
use crate::demand::{DeliveryRequest, Demand, Question};
use lmtp_dialogue::{
    LmtpReply, Next, ReceivedMessage, RecipientReply, TextFault, copy_for, name_forms,
    was_delivered,
};
use mail_head::{Head, is_header_longer};
use octets::Octets;
use std::alloc::{AllocError, Global};

/// The most octets of a text's header, with the empty line that ends it: that of a message, 1,048,576 (1 MiB, as Exim has it), less
/// 2,200 for the two fields that a delivery has at its start. A program reads all fields of a header at once.
const MAX_HEADER: usize = 1_046_376;

impl LmtpConnection {
    /// What is to be done next. Time is linear in the text that is delivered, or in the address that is asked for.
    ///
    /// Lack of memory is the only error.
    pub fn demand(&mut self, now: u64) -> Result<Demand, AllocError>
        ensures keeps { s.ConnectionKeeps self.old self.new }
        ensures receiver { self.new.receiver ≡ self.old.receiver }
        ensures slot { OnOk result (s.HasSlot self.new) }
        ensures demands { IfOk result (s.Demands now self.new) }
    {
        self.addressees.reserve(1)?;
        self.next_demand(now)
    }

    fn next_demand(&self, now: u64) -> Result<Demand, AllocError>
        ensures { IfOk result (s.Demands now self.now) }
    {
        match self.receiver.next() {
            Next::Need => Ok(Demand::Nothing),
            Next::Over => Ok(Demand::Nothing),
            Next::Line => Ok(Demand::Line),
            Next::Recipient(address) => self.demand_account(now, address),
            Next::Delivery(received) => self.demand_reply(now, received),
        }
    }

    // The recipient that comes next is asked for under the next form of its name.
    fn demand_account(&self, now: u64, address: &[u8]) -> Result<Demand, AllocError>
        requires { (d : Dialogue) → StandsIn self.now.receiver d → ComesNext d (Next.Recipient address) }
        ensures { IfOk result (s.Demands now self.now) }
    {
        if !self.progress.may_ask(now) {
            return Ok(Demand::PutOff);
        }
        let forms = name_forms(self.alloc, self.names, address)?;
        let tried = self.progress.tried;
        let Some(user) = form_at(forms.as_slice(), tried) else {
            return Err(AllocError);
        };
        let user = user.try_clone(self.alloc)?;
        let address = Octets::from_slice(self.alloc, address)?;
        Ok(Demand::Account(Question {
            user,
            address,
            next: following(tried, forms.len()),
        }))
    }

    // A reply is owed to the next recipient.
    fn demand_reply(&self, now: u64, received: ReceivedMessage<'_>) -> Result<Demand, AllocError>
        requires { (d : Dialogue) → StandsIn self.now.receiver d → ComesNext d (Next.Delivery received) }
        ensures { IfOk result (s.Demands now self.now) }
    {
        let Some(addressee) = addressee_at(self.addressees.as_slice(), self.progress.told) else {
            return Err(AllocError);
        };
        if addressee.address.as_slice() != received.recipient {
            return Err(AllocError);
        }
        if addressee.became.is_some() {
            return Ok(Demand::Noted);
        }
        match received.text {
            Ok(text) => self.demand_by(now, addressee, received.sender, text),
            Err(fault) => Ok(Demand::Reply(RecipientReply::Refused(reply_for(fault)))),
        }
    }

    // The text is there, and nothing became of it yet for this recipient.
    fn demand_by(
        &self,
        now: u64,
        addressee: &Addressee,
        sender: &[u8],
        text: &[u8],
    ) -> Result<Demand, AllocError>
        requires some { self.now.progress.told ≤ length self.now.addressees.items }
        requires owes { s.Owes self.now addressee.now sender.now text.now }
        requires fresh { addressee.now.became ≡ None }
        ensures { IfOk result (s.Demands now self.now) }
    {
        match self.becomes(now, addressee, text)? {
            Some(became) => Ok(Demand::Reply(became)),
            None => Ok(Demand::Delivery),
        }
    }

    /// The user of the recipient to whom a reply is owed next, if there is one.
    pub fn next_user(&self) -> Option<&[u8]>
        ensures found { IfSome result (λ user. s.next_user self.now ≡ Some user.now) }
        ensures none { IfNone result (s.next_user self.now ≡ None) }
    {
        match addressee_at(self.addressees.as_slice(), self.progress.told) {
            Some(addressee) => Some(addressee.user.as_slice()),
            None => None,
        }
    }

    /// The request that the store is given next; none if no message is to be delivered next. Time and memory are linear in the text.
    ///
    /// Lack of memory is the only error.
    pub fn delivery(&self, now: u64) -> Result<Option<DeliveryRequest>, AllocError>
        ensures { IfOk result (λ made. IfSome made (s.IsRequested now self.now)) }
    {
        match self.receiver.next() {
            Next::Delivery(received) => self.request_by(now, received),
            _ => Ok(None),
        }
    }

    // The request for the recipient to whom a reply is owed next.
    fn request_by(
        &self,
        now: u64,
        received: ReceivedMessage<'_>,
    ) -> Result<Option<DeliveryRequest>, AllocError>
        requires { (d : Dialogue) → StandsIn self.now.receiver d → ComesNext d (Next.Delivery received) }
        ensures { IfOk result (λ made. IfSome made (s.IsRequested now self.now)) }
    {
        let Some(addressee) = addressee_at(self.addressees.as_slice(), self.progress.told) else {
            return Ok(None);
        };
        if addressee.address.as_slice() != received.recipient || addressee.became.is_some() {
            return Ok(None);
        }
        match received.text {
            Ok(text) => self.request_of(now, addressee, received.sender, text),
            Err(_) => Ok(None),
        }
    }

    // The request for this recipient, if the store is to deliver its message.
    fn request_of(
        &self,
        now: u64,
        addressee: &Addressee,
        sender: &[u8],
        text: &[u8],
    ) -> Result<Option<DeliveryRequest>, AllocError>
        requires some { self.now.progress.told ≤ length self.now.addressees.items }
        requires owes { s.Owes self.now addressee.now sender.now text.now }
        requires fresh { addressee.now.became ≡ None }
        ensures { IfOk result (λ made. IfSome made (s.IsRequested now self.now)) }
    {
        let None = self.becomes(now, addressee, text)? else {
            return Ok(None);
        };
        let request = request_for(self.alloc, addressee, sender, text)?;
        Ok(Some(request))
    }

    // What becomes of the text for this recipient without the store; none if the store is to deliver it.
    fn becomes(
        &self,
        now: u64,
        addressee: &Addressee,
        text: &[u8],
    ) -> Result<Option<RecipientReply>, AllocError>
        requires some { self.now.progress.told ≤ length self.now.addressees.items }
        requires fresh { addressee.now.became ≡ None }
        ensures { IfOk result (s.BecomesFor now self.now addressee.now text.now) }
    {
        match earlier(self.told_before(), addressee) {
            Some(became) => Ok(Some(became.try_clone(self.alloc)?)),
            None => self.becomes_new(now, addressee, text),
        }
    }

    // The same of a text that wasn't delivered for the same recipient before.
    fn becomes_new(
        &self,
        now: u64,
        addressee: &Addressee,
        text: &[u8],
    ) -> Result<Option<RecipientReply>, AllocError>
        requires fresh { addressee.now.became ≡ None }
        requires once { connections.earlier (s.told_before self.now) addressee.now ≡ None }
        ensures { IfOk result (s.BecomesFor now self.now addressee.now text.now) }
    {
        if has_long_header(text) {
            return Ok(Some(RecipientReply::Refused(LmtpReply::HeaderTooLarge)));
        }
        if circles(self.alloc, text, addressee.address.as_slice())? {
            return Ok(Some(RecipientReply::Refused(LmtpReply::MailLoop)));
        }
        if !self.progress.may_ask(now) {
            return Ok(Some(RecipientReply::Refused(LmtpReply::StoreAway)));
        }
        Ok(None)
    }

    // Those to whom a reply was made after the text.
    fn told_before(&self) -> &[Addressee]
        requires { self.now.progress.told ≤ length self.now.addressees.items }
        ensures { result.now ≡ s.told_before self.now }
    {
        &self.addressees.as_slice()[..self.progress.told]
    }
}

// What is said if the text isn't kept.
fn reply_for(fault: TextFault) -> LmtpReply
    ensures { result ≡ s.reply_for fault }
{
    match fault {
        TextFault::TooLarge => LmtpReply::MessageTooLarge,
        TextFault::Memory => LmtpReply::NoRoom,
    }
}

fn form_at(forms: &[Octets], at: usize) -> Option<&Octets>
    ensures { option_copied result ≡ slice_get forms.now at }
{
    forms.get(at)
}

fn addressee_at(addressees: &[Addressee], at: usize) -> Option<&Addressee>
    ensures { option_copied result ≡ slice_get addressees.now at }
{
    addressees.get(at)
}

// How many forms were asked for, if another one follows.
fn following(tried: usize, count: usize) -> Option<usize>
    requires { tried < count }
    ensures { s.FormFollows tried count result }
{
    let next = tried + 1;
    if next < count { Some(next) } else { None }
}

// What became of the message for the same recipient among those before it.
fn earlier<'a>(before: &'a [Addressee], addressee: &Addressee) -> Option<&'a RecipientReply>
    ensures { option_copied result ≡ connections.earlier before.now addressee.now }
{
    match same_among(before, addressee) {
        Some(other) => other.became.as_ref(),
        None => None,
    }
}

// The first of these that is the same recipient.
fn same_among<'a>(before: &'a [Addressee], addressee: &Addressee) -> Option<&'a Addressee>
    ensures { option_copied result ≡ find (connections.is_same addressee.now) before.now }
{
    before.iter().find(|other| is_same(addressee, other))
}

fn is_same(addressee: &Addressee, other: &Addressee) -> bool
    ensures { result ≡ connections.is_same addressee.now other.now }
{
    other.user == addressee.user && other.address == addressee.address
}

// Whether the header of a text is longer than one may be. No more octets of the text are looked at than one may have.
fn has_long_header(text: &[u8]) -> bool
    ensures { result ≡ connections.has_long_text_header text.now }
{
    is_header_longer(text, MAX_HEADER)
}

// Whether the message came to this recipient before.
fn circles(alloc: Global, text: &[u8], recipient: &[u8]) -> Result<bool, AllocError>
    ensures { IfOk result (λ was. was ≡ copies.was_delivered recipient.now text.now) }
{
    let head = Head::read(alloc, text)?;
    was_delivered(alloc, &head, recipient)
}

fn request_for(
    alloc: Global,
    addressee: &Addressee,
    sender: &[u8],
    text: &[u8],
) -> Result<DeliveryRequest, AllocError>
    ensures user { IfOk result (λ request. request.user ≡ addressee.now.user) }
    ensures sender { IfOk result (λ request. request.sender ≡ sender.now) }
    ensures recipient { IfOk result (λ request. request.recipient ≡ addressee.now.address) }
    ensures copy { IfOk result (λ request. copies.IsCopy sender.now addressee.now.address text.now request.message) }
{
    let user = addressee.user.try_clone(alloc)?;
    let recipient = addressee.address.try_clone(alloc)?;
    let message = copy_for(alloc, sender, recipient.as_slice(), text)?;
    Ok(DeliveryRequest {
        user,
        sender: Octets::from_slice(alloc, sender)?,
        recipient,
        message,
    })
}
