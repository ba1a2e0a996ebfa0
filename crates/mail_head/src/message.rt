//! The head of a message.
ghost use Rattle.std.specs.Prelude.{◌≡◌, IfOk, option_copied};
ghost use Rattle.mail_head.specs.Cuts.{after_empty, rest_after_feed};
ghost use Rattle.mail_head.specs.Lines.{lines_of};
ghost use Rattle.mail_head.specs.Messages.{ReadsMessage};
ghost use Rattle.mail_head.specs.Fields.{field_texts_of};
ghost use Rattle.mail_head.specs.Heads.{fields_of, body_of, size_of};

use crate::header::{Field, read_field};
use crate::line::{CR, LF, logical_line};
use crate::size;
use std::alloc::{AllocError, Global};
use std::marker::Model;

/// A message whose header has been read. It borrows the message and copies nothing of it; besides that it
/// holds one `Field` for each field. Contracts see the message.
#[derive(Drop)]
pub struct Head<'a> {
    message: &'a [u8],
    fields: Vec<Field<'a>>,
    body: &'a [u8],
}

impl<'a> Model for Head<'a> {
    ghost use Rattle.std.specs.Prelude.{ℕ, List};
    ghost use Rattle.mail_head.specs.Messages.{ReadsMessage};

    ghost Value = { List ℕ };

    ghost view = { λ head. head.message.now };

    ghost invariant = { λ head. ReadsMessage head.message.now head.fields.items head.body.now };
}

impl<'a> Head<'a> {
    /// Reads the header of a message, up to its first empty line or its end.
    ///
    /// One pass over the header; the body isn't looked at. The memory is that of the fields.
    pub fn read(alloc: Global, message: &'a [u8]) -> Result<Head<'a>, AllocError>
        ensures { IfOk result (λ head. head ≡ message.now) }
    {
        let (fields, body) = read_header(alloc, message)?;
        Ok(Head {
            message,
            fields,
            body,
        })
    }

    /// The fields, in order: each logical line that is one. Other lines are skipped.
    pub fn fields(&self) -> &[Field<'a>]
        ensures { field_texts_of result.now ≡ fields_of self.now }
    {
        self.fields.as_slice()
    }

    /// What follows the first empty line; empty if there is none.
    pub fn body(&self) -> &'a [u8]
        ensures { result.now ≡ body_of self.now }
    {
        self.body
    }

    /// The message as it was given.
    pub fn message(&self) -> &'a [u8]
        ensures { result.now ≡ self.now }
    {
        self.message
    }

    /// The octets of the message, and one more for each LF without CR right before it.
    ///
    /// One pass over the message at each call.
    pub fn size(&self) -> u64
        ensures { result ≡ size_of self.now }
    {
        size::count(self.message)
    }
}

fn read_header(alloc: Global, message: &[u8]) -> Result<(Vec<Field<'_>>, &[u8]), AllocError>
    ensures { IfOk result (λ head. ReadsMessage message.now head.0.items head.1.now) }
{
    let mut fields = Vec::new(alloc);
    let mut rest = message;
    while !rest.is_empty() {
        if let Some(body) = after_empty_line(rest) {
            return Ok((fields, body));
        }
        let (line, after) = logical_line(rest);
        if let Some(field) = read_field(line) {
            fields.push(field)?;
        }
        rest = after;
    }
    Ok((fields, rest))
}

/// What follows an empty line at the beginning of a text, if there is one.
pub fn after_empty_line(text: &[u8]) -> Option<&[u8]>
    ensures { option_copied result ≡ after_empty (lines_of text.now) }
{
    let (first, rest) = text.split_first()?;
    match *first {
        LF => Some(rest),
        CR => after_feed(rest),
        _ => None,
    }
}

fn after_feed(text: &[u8]) -> Option<&[u8]>
    ensures { option_copied result ≡ rest_after_feed text.now }
{
    let (first, rest) = text.split_first()?;
    if *first == LF { Some(rest) } else { None }
}
