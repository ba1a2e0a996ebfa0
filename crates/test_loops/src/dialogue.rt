//! Dialogues of LMTP: what a client is answered, by `lmtp_dialogue` alone, whose questions the address of a recipient answers.
use lmtp_dialogue::{
    LmtpReply, LmtpStage, Lookup, Next, ReceivedMessage, Receiver, RecipientReply, TextFault,
};
use octets::Octets;
use std::alloc::{AllocError, Global};
use test_files::Answers;

/// No dialogue has more lines, recipients and deliveries.
const MAX_ITEMS: usize = 10_000;

/// The rows of the table, which know nothing of each other.
#[derive(Drop)]
pub struct Dialogues;

impl Answers for Dialogues {
    fn answer(
        &mut self,
        alloc: Global,
        out: &mut Octets,
        given: &[Octets],
    ) -> Result<(), AllocError> {
        match given {
            [state, pieces @ ..] => answer_in(alloc, out, state.as_slice(), pieces),
            [] => Ok(()),
        }
    }
}

/// A server's side, and for how many octets of a message it has room.
#[derive(Drop)]
struct Server {
    alloc: Global,
    receiver: Receiver,
    room: u64,
}

/// What is said to the pieces of a client in this state, and the state that follows.
fn answer_in(
    alloc: Global,
    out: &mut Octets,
    state: &[u8],
    pieces: &[Octets],
) -> Result<(), AllocError> {
    let mut before = Octets::new(alloc);
    let mut server = Server {
        alloc,
        receiver: Receiver::new(alloc, b"host.example", &mut before)?,
        room: u64::MAX,
    };
    server.hear(lines_up_to(state), &mut before)?;
    if state == b"new".as_slice() {
        out.extend_from_slice(before.as_slice())?;
    }
    for piece in pieces {
        server.hear_piece(piece.as_slice(), out)?;
    }
    out.extend_from_slice(name_of(server.receiver.stage()))
}

/// The lines by which a client comes to a state.
fn lines_up_to(state: &[u8]) -> &'static [u8] {
    match state {
        b"ready" => b"LHLO c\r\n",
        b"opened" => b"LHLO c\r\nMAIL FROM:<s@x>\r\n",
        b"taken" => b"LHLO c\r\nMAIL FROM:<s@x>\r\nRCPT TO:<r@x>\r\n",
        b"sending" => b"LHLO c\r\nMAIL FROM:<s@x>\r\nRCPT TO:<r@x>\r\nDATA\r\n",
        _ => b"",
    }
}

fn name_of(stage: LmtpStage) -> &'static [u8] {
    match stage {
        LmtpStage::Greeted => b"greeted",
        LmtpStage::Ready => b"ready",
        LmtpStage::Opened => b"opened",
        LmtpStage::Asking => b"asking",
        LmtpStage::Sending => b"sending",
        LmtpStage::Over => b"over",
    }
}

impl Server {
    /// The piece `@drop` is none: the text that is sent is dropped for lack of memory; nor is `@room`: there is room for 1,000 octets.
    fn hear_piece(&mut self, piece: &[u8], out: &mut Octets) -> Result<(), AllocError> {
        match piece {
            b"@drop" => {
                self.receiver.drop_text();
                Ok(())
            }
            b"@room" => {
                self.room = 1000;
                Ok(())
            }
            _ => self.hear(piece, out),
        }
    }

    /// Takes octets, and answers all that can be answered.
    fn hear(&mut self, octets: &[u8], out: &mut Octets) -> Result<(), AllocError> {
        self.receiver.give(octets)?;
        for _ in 0..MAX_ITEMS {
            if !self.go_on(out)? {
                return Ok(());
            }
        }
        Ok(())
    }

    /// Answers what comes next; false if nothing can be answered.
    fn go_on(&mut self, out: &mut Octets) -> Result<bool, AllocError> {
        match self.receiver.next() {
            Next::Need | Next::Over => return Ok(false),
            Next::Line => self.answer(out)?,
            Next::Recipient(address) => {
                let lookup = lookup_of(address);
                self.receiver.resolve(lookup, out)?;
            }
            Next::Delivery(received) => {
                show(out, received)?;
                let reply = reply_for(self.alloc, received)?;
                self.receiver.report(&reply, out)?;
            }
        }
        Ok(true)
    }

    fn answer(&mut self, out: &mut Octets) -> Result<(), AllocError> {
        if self.receiver.refuse(self.room, out)? {
            return Ok(());
        }
        self.receiver.answer(out)
    }
}

/// What is found of an account, by the first word of its address.
fn lookup_of(address: &[u8]) -> Lookup {
    match front(address) {
        b"nobody" => Lookup::Unknown,
        b"busy" => Lookup::Away,
        b"broken" => Lookup::Fault,
        b"full" => Lookup::NoRoom,
        _ => Lookup::Known,
    }
}

/// What becomes of a message, by the first word of its recipient's address and whether its text is kept.
fn reply_for(alloc: Global, received: ReceivedMessage<'_>) -> Result<RecipientReply, AllocError> {
    match received.text {
        Ok(_) => reply_for_word(alloc, front(received.recipient)),
        Err(TextFault::TooLarge) => Ok(RecipientReply::Refused(LmtpReply::MessageTooLarge)),
        Err(TextFault::Memory) => Ok(RecipientReply::Refused(LmtpReply::NoRoom)),
    }
}

/// A word stands for what becomes of a message; any other for a delivery to INBOX.
fn reply_for_word(alloc: Global, word: &[u8]) -> Result<RecipientReply, AllocError> {
    match refusal_for(word) {
        Some(reply) => Ok(RecipientReply::Refused(reply)),
        None => Ok(RecipientReply::Delivered(Octets::from_slice(alloc, report_for(word))?)),
    }
}

fn refusal_for(word: &[u8]) -> Option<LmtpReply> {
    match word {
        b"gone" => Some(LmtpReply::NoSuchUser),
        b"closed" => Some(LmtpReply::AccountClosed),
        b"from" => Some(LmtpReply::BadSender),
        b"bad" => Some(LmtpReply::BadRecipient),
        b"loop" => Some(LmtpReply::MailLoop),
        b"crowded" => Some(LmtpReply::NoRoom),
        b"late" => Some(LmtpReply::StoreAway),
        b"faulty" => Some(LmtpReply::LocalFault),
        _ => None,
    }
}

fn report_for(word: &[u8]) -> &'static [u8] {
    match word {
        b"lines" => b"file A\r\n550 B",
        _ => b"file INBOX",
    }
}

/// What comes before an address' first hyphen or at sign.
fn front(address: &[u8]) -> &[u8] {
    let end = address
        .iter()
        .position(|octet| *octet == b'-' || *octet == b'@');
    match end {
        Some(end) => &address[..end],
        None => address,
    }
}

/// A delivery, as `{SENDER RECIPIENT TEXT}`; of a text of more than 200 octets that it is long, and of one that isn't kept nothing.
fn show(out: &mut Octets, received: ReceivedMessage<'_>) -> Result<(), AllocError> {
    out.extend_from_slice(b"{")?;
    out.extend_from_slice(received.sender)?;
    out.extend_from_slice(b" ")?;
    out.extend_from_slice(received.recipient)?;
    match received.text {
        Ok(text) if text.len() > 200 => out.extend_from_slice(b" long")?,
        Ok(text) => {
            out.extend_from_slice(b" ")?;
            out.extend_from_slice(text)?;
        }
        Err(_) => {}
    }
    out.extend_from_slice(b"}")
}
