//! A text on its way to a server, in pieces.
ghost use Rattle.std.specs.Prelude.{◌≡◌, [], ◌++◌, OnOk, OnErr};
ghost use Rattle.smtp_dialogue.specs.Sent.{sent_from, sent_start};
ghost use Rattle.smtp_send.specs.Rows.{Rows};
ghost use Rattle.smtp_send.specs.Talks as s;
ghost use Rattle.smtp_send.specs.Talks.{SendTalk};

use crate::journal::Journal;
use crate::queue::SendQueue;
use crate::server::{Lost, Server};
use crate::way::write_octets;
use smtp_dialogue::DotStuffed;
use std::alloc::Global;

/// Parts of a text are gathered up to this many octets, and written at once.
const PIECE: usize = 32_768;

/// Writes a text in its parts, and the dot after it. Memory is taken for one piece.
///
/// # Errors
///
/// The connection is lost, or there is no memory for a piece.
pub(crate) fn write_text<Q: SendQueue, S: Server, J: Journal>(
    alloc: Global,
    queue: &mut Q,
    server: &mut S,
    journal: &mut J,
    text: &[u8],
) -> Result<(), Lost>
    ensures rows { (rows : Rows) → Q.shows queue.old rows → Q.shows queue.new rows }
    ensures ok { OnOk result ((t : SendTalk) → S.said server.old t → S.said server.new (s.talk_written t (sent_from sent_start text.now))) }
    ensures err { OnErr result ((t : SendTalk) → S.said server.old t → (u : SendTalk) × S.said server.new u × s.WritesPrefix (sent_from sent_start text.now) t u) }
{
    let Ok(mut piece) = Vec::with_capacity(alloc, PIECE) else {
        return Err(Lost);
    };
    let mut sent = DotStuffed::new(text);
    while let Some(part) = sent.next() {
        if gather(queue, server, journal, &mut piece, part).is_err() {
            return Err(Lost);
        }
    }
    write_piece(queue, server, journal, &mut piece)
}

// Appends a part to the piece. A piece that it would make too large is written before, and so is a part that is one alone.
fn gather<Q: SendQueue, S: Server, J: Journal>(
    queue: &mut Q,
    server: &mut S,
    journal: &mut J,
    piece: &mut Vec<u8>,
    part: &[u8],
) -> Result<(), Lost>
    ensures rows { (rows : Rows) → Q.shows queue.old rows → Q.shows queue.new rows }
    ensures ok { OnOk result ((t : SendTalk) → S.said server.old t → (u : SendTalk) × S.said server.new u × s.Writing (piece.old.items ++ part.now) t u piece.new.items) }
    ensures err { OnErr result ((t : SendTalk) → S.said server.old t → (u : SendTalk) × S.said server.new u × s.WritesPrefix (piece.old.items ++ part.now) t u) }
{
    if part.len() > PIECE.saturating_sub(piece.len()) {
        write_piece(queue, server, journal, piece)?;
    }
    if part.len() >= PIECE {
        return write_octets(queue, server, journal, part);
    }
    if piece.extend_from_slice(part).is_err() {
        return Err(Lost);
    }
    Ok(())
}

// Writes what was gathered.
fn write_piece<Q: SendQueue, S: Server, J: Journal>(
    queue: &mut Q,
    server: &mut S,
    journal: &mut J,
    piece: &mut Vec<u8>,
) -> Result<(), Lost>
    ensures rows { (rows : Rows) → Q.shows queue.old rows → Q.shows queue.new rows }
    ensures empty { OnOk result (piece.new.items ≡ []) }
    ensures ok { OnOk result ((t : SendTalk) → S.said server.old t → S.said server.new (s.talk_written t piece.old.items)) }
    ensures err { OnErr result ((t : SendTalk) → S.said server.old t → (u : SendTalk) × S.said server.new u × s.WritesPrefix piece.old.items t u) }
{
    write_octets(queue, server, journal, piece.as_slice())?;
    piece.clear();
    Ok(())
}
