//! A message's dialogue with a server.
ghost use Rattle.std.specs.Prelude.{IfOk, OnOk, OnErr};
ghost use Rattle.smtp_dialogue.specs.Dialogues.{stage_text};
ghost use Rattle.smtp_dialogue.specs.Messages.{smtp_mail_of};
ghost use Rattle.smtp_send.specs.Rows.{Rows};
ghost use Rattle.smtp_send.specs.Talks as s;
ghost use Rattle.smtp_send.specs.Talks.{SendTalk};

use crate::journal::Journal;
use crate::queue::SendQueue;
use crate::server::{Lost, Server};
use crate::text::write_text;
use crate::way::{await_reply, write_octets};
use smtp_dialogue::{
    DATA, Ending, Extensions, NextStage, SmtpMessage, SmtpStage, mail_line, next_turn, rcpt_line,
};
use std::alloc::{AllocError, Global};

/// Hands a message to a server: one whose addresses are no mailboxes, or that needs what isn't offered, isn't written.
///
/// The store of the queue is given back before each wait for the connection that isn't over at once, and if somebody waits for it.
///
/// Lack of memory is the only error, and then nothing was written. Time is linear in the message's octets; memory is taken for the lines
/// of MAIL and RCPT, and for a piece of the text. If there is none for the piece the connection counts as lost.
pub fn send_message<Q: SendQueue, S: Server, J: Journal>(
    alloc: Global,
    queue: &mut Q,
    server: &mut S,
    journal: &mut J,
    offered: Extensions,
    may_eight_bit: bool,
    message: SmtpMessage<'_>,
) -> Result<Ending, AllocError>
    ensures rows { (rows : Rows) → Q.shows queue.old rows → Q.shows queue.new rows }
    ensures treats { IfOk result (λ ending. (t : SendTalk) → S.said server.old t → (u : SendTalk) × S.said server.new u
        × s.Treats offered may_eight_bit (smtp_mail_of message.entry) t u ending) }
    ensures kept { OnErr result ((t : SendTalk) → S.said server.old t → S.said server.new t) }
{
    if !message.is_addressed() {
        return Ok(Ending::Unaddressed);
    }
    if !message.is_offered(offered, may_eight_bit) {
        return Ok(Ending::Undeclared);
    }
    let mail = mail_line(alloc, offered, message)?;
    let rcpt = rcpt_line(alloc, message)?;
    let spelled = Spelled {
        message,
        offered,
        mail: mail.as_slice(),
        rcpt: rcpt.as_slice(),
    };
    Ok(speak(alloc, queue, server, journal, spelled, SmtpStage::Sender))
}

/// A message with its lines.
#[derive(Clone, Copy)]
pub(crate) struct Spelled<'a> {
    pub(crate) message: SmtpMessage<'a>,
    /// What the server offers.
    pub(crate) offered: Extensions,
    /// The line of MAIL.
    pub(crate) mail: &'a [u8],
    /// The line of RCPT.
    pub(crate) rcpt: &'a [u8],
}

// The message's dialogue from a stage on.
fn speak<Q: SendQueue, S: Server, J: Journal>(
    alloc: Global,
    queue: &mut Q,
    server: &mut S,
    journal: &mut J,
    spelled: Spelled<'_>,
    stage: SmtpStage,
) -> Ending
    requires { s.IsSpelled spelled }
    ensures rows { (rows : Rows) → Q.shows queue.old rows → Q.shows queue.new rows }
    ensures says { (t : SendTalk) → S.said server.old t → (u : SendTalk) × S.said server.new u
        × s.TalkSays spelled.entry.offered (smtp_mail_of spelled.entry.message) stage t u result }
{
    match step(alloc, queue, server, journal, spelled, stage) {
        NextStage::Goes(onward) => speak(alloc, queue, server, journal, spelled, onward),
        NextStage::Ends(ending) => ending,
    }
}

// One stage: writes it, and hears what is answered.
fn step<Q: SendQueue, S: Server, J: Journal>(
    alloc: Global,
    queue: &mut Q,
    server: &mut S,
    journal: &mut J,
    spelled: Spelled<'_>,
    stage: SmtpStage,
) -> NextStage
    requires { s.IsSpelled spelled }
    ensures rows { (rows : Rows) → Q.shows queue.old rows → Q.shows queue.new rows }
    ensures later { s.IsLater stage result }
    ensures steps { (t : SendTalk) → S.said server.old t → (u : SendTalk) × S.said server.new u
        × s.StageSteps spelled.entry.offered (smtp_mail_of spelled.entry.message) stage t u result }
{
    if write_stage(alloc, queue, server, journal, spelled, stage).is_err() {
        return NextStage::Ends(Ending::Lost);
    }
    await_reply(queue, server, journal);
    match server.hear(stage) {
        Ok(code) => next_turn(stage, code),
        Err(_) => NextStage::Ends(Ending::Lost),
    }
}

fn write_stage<Q: SendQueue, S: Server, J: Journal>(
    alloc: Global,
    queue: &mut Q,
    server: &mut S,
    journal: &mut J,
    spelled: Spelled<'_>,
    stage: SmtpStage,
) -> Result<(), Lost>
    requires { s.IsSpelled spelled }
    ensures rows { (rows : Rows) → Q.shows queue.old rows → Q.shows queue.new rows }
    ensures ok { OnOk result ((t : SendTalk) → S.said server.old t → S.said server.new (s.talk_written t (stage_text spelled.entry.offered (smtp_mail_of spelled.entry.message) stage))) }
    ensures err { OnErr result ((t : SendTalk) → S.said server.old t → (u : SendTalk) × S.said server.new u
        × s.WritesPrefix (stage_text spelled.entry.offered (smtp_mail_of spelled.entry.message) stage) t u) }
{
    match stage {
        SmtpStage::Sender => write_octets(queue, server, journal, spelled.mail),
        SmtpStage::Recipient => write_octets(queue, server, journal, spelled.rcpt),
        SmtpStage::Data => write_octets(queue, server, journal, DATA),
        SmtpStage::Text => write_text(alloc, queue, server, journal, spelled.message.text),
    }
}
