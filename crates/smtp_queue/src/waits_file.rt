//! Rows that wait, as a text that is kept between two runs.
ghost use Rattle.std.specs.Prelude.{◌≡◌, ◌<◌, ◌≤◌, ◌^◌, [], ◌∷◌, ◌++◌, ◌==◌, not, ℕ, List, Some, decimal, length, IfOk, IfSome, IfNone, OnOk};
ghost use Rattle.std.specs.List.{prefix_len};
ghost use Rattle.smtp_dialogue.specs.Mailboxes.{CutsAtOctet, HasNoMark};
ghost use Rattle.smtp_queue.specs.Texts as s;
ghost use Rattle.smtp_queue.specs.declared.row_key.RowKey.{RowKey};
ghost use Rattle.smtp_queue.specs.declared.wait.Wait.{Wait};

use crate::row_key::RowKey;
use crate::wait::Wait;
use crate::waits::RowWaits;
use octets::{Octets, parse_decimal, write_decimal};
use std::alloc::{AllocError, Global};

/// The waits that are kept at a moment as a text: a line each, with the moment from which on the row is due, how often it was tried, its
/// number, all in decimal, and the user. Lack of memory is the only error. Time and memory are in proportion to the text.
pub fn write_waits(alloc: Global, waits: &RowWaits, now: u64) -> Result<Octets, AllocError>
    ensures { IfOk result (λ text. text ≡ s.waits_text (s.kept_at now waits.now.map.entries)) }
{
    let mut text = Octets::new(alloc);
    for (place, wait) in waits.map.iter() {
        if wait.is_kept(now) {
            put_wait(&mut text, place, *wait)?;
        }
    }
    Ok(text)
}

/// A line for a wait.
fn put_wait(text: &mut Octets, place: &RowKey, wait: Wait) -> Result<(), AllocError>
    ensures { OnOk result (text.new ≡ text.old ++ s.wait_line (place.now, wait)) }
{
    put_number(text, wait.due)?;
    put_number(text, wait.tries)?;
    put_number(text, place.id)?;
    text.extend_from_slice(place.user.as_slice())?;
    text.push(b'\n')
}

/// A number, and a space after it.
fn put_number(text: &mut Octets, number: u64) -> Result<(), AllocError>
    ensures { OnOk result (text.new ≡ text.old ++ (decimal number ++ 32 ∷ [])) }
{
    write_decimal(text, number)?;
    text.push(b' ')
}

/// The waits of a text that `write_waits` made; none of one that is damaged. Lack of memory is the only error. Memory is in proportion to
/// the text, and so is time but for the logarithm of the waits.
pub fn read_waits(alloc: Global, text: &[u8]) -> Result<RowWaits, AllocError>
    ensures { IfOk result (λ waits. (own : List (RowKey × Wait)) → s.IsBook own → text.now ≡ s.waits_text own → waits.map.entries ≡ own) }
{
    match lines_of(alloc, text)? {
        Some(waits) => Ok(waits),
        None => Ok(RowWaits::new(alloc)),
    }
}

/// The waits of a text; none if a line of it isn't one.
fn lines_of(alloc: Global, text: &[u8]) -> Result<Option<RowWaits>, AllocError>
    ensures { IfOk result (λ found. (own : List (RowKey × Wait)) → s.IsBook own → text.now ≡ s.waits_text own → s.IsWaitsText own found) }
{
    let mut waits = RowWaits::new(alloc);
    let mut rest = text;
    while let Some(line) = cut_at(rest, b'\n') {
        let Some(parts) = parts_of(line.front) else {
            return Ok(None);
        };
        let place = RowKey::new(alloc, parts.user, parts.id)?;
        waits.put(place, parts.wait())?;
        rest = line.rest;
    }
    if !rest.is_empty() {
        return Ok(None);
    }
    Ok(Some(waits))
}

/// The parts of a line.
#[derive(Clone, Copy)]
struct Parts<'a> {
    due: u64,
    tries: u64,
    id: u64,
    user: &'a [u8],
}

impl Parts<'_> {
    /// The wait.
    fn wait(self) -> Wait
        ensures { result ≡ s.wait_in self.entry }
    {
        Wait {
            due: self.due,
            tries: self.tries,
        }
    }
}

/// The parts of a line; none if it is no such line.
fn parts_of(line: &[u8]) -> Option<Parts<'_>>
    ensures { (own : RowKey × Wait) → s.IsWritable own → line.now ≡ s.wait_body own → s.ArePartsOf own result }
{
    let Some(due) = number_then(line) else {
        return None;
    };
    let Some(tries) = number_then(due.rest) else {
        return None;
    };
    let Some(id) = number_then(tries.rest) else {
        return None;
    };
    Some(Parts {
        due: due.value,
        tries: tries.value,
        id: id.value,
        user: id.rest,
    })
}

/// A number, and what follows the space after it.
#[derive(Clone, Copy)]
struct Number<'a> {
    value: u64,
    rest: &'a [u8],
}

/// The number at the start of a text; none if no number and a space come first.
fn number_then(text: &[u8]) -> Option<Number<'_>>
    ensures { (n : ℕ) (rest : List ℕ) → n < 2 ^ 64 → text.now ≡ decimal n ++ 32 ∷ rest → s.IsNumberRead n rest result }
{
    let Some(cut) = cut_at(text, b' ') else {
        return None;
    };
    match parse_decimal(cut.front) {
        Some(value) => Some(Number {
            value,
            rest: cut.rest,
        }),
        None => None,
    }
}

/// What comes before the first such octet, and what comes after it.
#[derive(Clone, Copy)]
struct Cut<'a> {
    front: &'a [u8],
    rest: &'a [u8],
}

/// Cuts a text at the first such octet.
fn cut_at(text: &[u8], mark: u8) -> Option<Cut<'_>>
    ensures found { IfSome result (λ cut. CutsAtOctet mark text.now cut.front.now cut.rest.now) }
    ensures none { IfNone result (HasNoMark mark text.now) }
{
    let count = length_before(text, mark);
    let (front, behind) = text.split_at(count);
    match behind.split_first() {
        Some((_, rest)) => Some(Cut { front, rest }),
        None => None,
    }
}

/// How many octets come before the first such one.
fn length_before(text: &[u8], mark: u8) -> usize
    ensures value { result ≡ prefix_len (λ octet. not (octet == mark)) text.now }
    ensures within { result ≤ length text.now }
{
    text.iter().take_while(|octet| **octet != mark).count()
}
