//! What is printed of rows.
ghost use Rattle.std.specs.Prelude.{◌≡◌, ◌++◌, decimal, IfOk, OnOk};
ghost use Rattle.smtp_queue.specs.Lines as s;
ghost use Rattle.smtp_queue.specs.Waits as waits;

use crate::row_key::RowKey;
use octets::{Octets, write_decimal};
use smtp_dialogue::Ending;
use std::alloc::{AllocError, Global};

/// Whether a row that ended so is told as an error: another try needs somebody who looks after it.
pub(crate) fn is_for_good(ending: Ending) -> bool
    ensures { result ≡ s.is_for_good ending }
{
    matches!(
        ending,
        Ending::Refused(_) | Ending::Undeclared | Ending::Unaddressed
    )
}

/// The line on a row that was tried: `sent USER ID`, or `waits USER ID: CAUSE`. Lack of memory is the only error.
pub fn row_line(alloc: Global, place: &RowKey, ending: Ending) -> Result<Octets, AllocError>
    ensures { IfOk result (λ line. line ≡ s.row_line place.now ending) }
{
    let mut line = Octets::new(alloc);
    if matches!(ending, Ending::Sent) {
        line.extend_from_slice(b"sent ")?;
        put_place(&mut line, place)?;
    } else {
        line.extend_from_slice(b"waits ")?;
        put_place(&mut line, place)?;
        put_cause(&mut line, ending)?;
    }
    line.push(b'\n')?;
    Ok(line)
}

/// The line on a row that is permanently refused: `sieved: USER ID: CAUSE`. Lack of memory is the only error.
pub fn refusal_line(alloc: Global, place: &RowKey, ending: Ending) -> Result<Octets, AllocError>
    ensures { IfOk result (λ line. line ≡ s.refusal_line place.now ending) }
{
    let mut line = Octets::new(alloc);
    line.extend_from_slice(b"sieved: ")?;
    put_place(&mut line, place)?;
    put_cause(&mut line, ending)?;
    line.push(b'\n')?;
    Ok(line)
}

/// The line on a row that was sent, if another one has its number now: `sieved: USER ID: another message has the number now`. Lack of
/// memory is the only error.
pub fn changed_line(alloc: Global, place: &RowKey) -> Result<Octets, AllocError>
    ensures { IfOk result (λ line. line ≡ s.changed_line place.now) }
{
    let mut line = Octets::new(alloc);
    line.extend_from_slice(b"sieved: ")?;
    put_place(&mut line, place)?;
    line.extend_from_slice(b": another message has the number now")?;
    line.push(b'\n')?;
    Ok(line)
}

/// The line on a row that was sent, and is in the queue of no open account any more: `sieved: USER ID: taken out meanwhile, or the account
/// is closed`. Lack of memory is the only error.
pub fn gone_line(alloc: Global, place: &RowKey) -> Result<Octets, AllocError>
    ensures { IfOk result (λ line. line ≡ s.gone_line place.now) }
{
    let mut line = Octets::new(alloc);
    line.extend_from_slice(b"sieved: ")?;
    put_place(&mut line, place)?;
    line.extend_from_slice(b": taken out meanwhile, or the account is closed")?;
    line.push(b'\n')?;
    Ok(line)
}

/// The line at the end of a run: `sent N, wait M`. Lack of memory is the only error.
pub fn tally_line(alloc: Global, sent: u64, waiting: u64) -> Result<Octets, AllocError>
    ensures { IfOk result (λ line. line ≡ s.tally_line sent waiting) }
{
    let mut line = Octets::new(alloc);
    line.extend_from_slice(b"sent ")?;
    write_decimal(&mut line, sent)?;
    line.extend_from_slice(b", wait ")?;
    write_decimal(&mut line, waiting)?;
    line.push(b'\n')?;
    Ok(line)
}

/// The user and the number of a row.
pub(crate) fn put_place(line: &mut Octets, place: &RowKey) -> Result<(), AllocError>
    ensures { OnOk result (line.new ≡ line.old ++ s.place_text place.now) }
{
    line.extend_from_slice(place.user.as_slice())?;
    line.push(b' ')?;
    write_decimal(line, place.id)
}

/// Why a row waits.
fn put_cause(line: &mut Octets, ending: Ending) -> Result<(), AllocError>
    ensures { OnOk result (line.new ≡ line.old ++ s.cause_text ending) }
{
    match ending {
        Ending::Sent => line.extend_from_slice(b": sent"),
        Ending::Refused(code) => put_code(line, b": refused with ", code),
        Ending::Delayed(code) => put_code(line, b": delayed with ", code),
        Ending::OutOfPlace(code) => put_code(line, b": answered with ", code),
        Ending::Lost => line.extend_from_slice(b": no connection"),
        Ending::Undeclared => line.extend_from_slice(b": not offered by the server"),
        Ending::Unaddressed => line.extend_from_slice(b": no mailbox"),
    }
}

/// A text, and a reply's code.
fn put_code(line: &mut Octets, text: &[u8], code: u16) -> Result<(), AllocError>
    ensures { OnOk result (line.new ≡ line.old ++ (text.now ++ decimal code)) }
{
    line.extend_from_slice(text)?;
    write_decimal(line, u64::from(code))
}

/// The user and the number of a row. Lack of memory is the only error.
pub(crate) fn place_line(alloc: Global, user: &[u8], id: u64) -> Result<Octets, AllocError>
    ensures { IfOk result (λ line. line ≡ s.place_text (waits.row_key user.now id)) }
{
    let mut line = Octets::new(alloc);
    put_place(&mut line, &RowKey::new(alloc, user, id)?)?;
    Ok(line)
}
