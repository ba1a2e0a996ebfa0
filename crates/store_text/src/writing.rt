//! Writes the text of an account, a part at a time.
ghost use Rattle.std.specs.Prelude.{◌≡◌, ◌++◌, ℕ, List, [], ◌∷◌, codes, decimal, IfOk, OnOk, option_copied, option_to_list};
ghost use Rattle.std.specs.List.{flat_map};
ghost use Rattle.sha2.specs.Sha256.{sha256};
ghost use Rattle.hex.specs.Hex.{encode_lower};
ghost use Rattle.store_text.specs.Netstring.{netstring, line};
ghost use Rattle.store_text.specs.Fields.{version_fields, owner_fields, numbers_fields, part_fields, flags_fields, letter_word, sum_fields};
ghost use Rattle.store_text.specs.Text.{head_text, part_line, sum_line};
ghost use Rattle.store_text.specs.Writing.{HasWritten, line_octets};

use crate::head::{AccountHead, AccountOwner, Numbers};
use crate::netstring::{push_length, push_netstring, push_number};
use crate::part::{LetterKind, Part};
use octets::Octets;
use sha2::{Digest, Sha256};
use std::alloc::{AllocError, Global};

/// Writes the text of an account, a part at a time: what it returns has to be written in that order. It keeps only a hash of
/// what it has returned. The caller has to see to it that the parts make an account (`IsAccount`).
#[derive(Drop)]
pub struct Writer {
    hasher: Sha256,
}

/// A line: its start, a text of the part that isn't copied, and its end.
#[derive(Drop)]
pub struct AccountLine<'a> {
    pub front: Octets,
    pub last: &'a [u8],
    pub back: Octets,
}

impl Writer {
    /// The first lines of the text: its version, and what the account has once.
    pub fn begin(alloc: Global, head: &AccountHead) -> Result<(Writer, Octets), AllocError>
        ensures { IfOk result (λ begun. (begun.1 ≡ head_text head.now) × HasWritten begun.0 begun.1) }
    {
        let mut text = Octets::new(alloc);
        push_pair(&mut text, b"sieved-account", b"1")?;
        push_owner(&mut text, &head.owner)?;
        push_numbers(&mut text, head.numbers)?;
        let mut hasher = Sha256::new();
        hasher.update(text.as_slice());
        Ok((Writer { hasher }, text))
    }

    /// The line of the next part. If memory runs out, nothing was written.
    pub fn part<'a>(&mut self, alloc: Global, part: &'a Part) -> Result<AccountLine<'a>, AllocError>
        ensures line { IfOk result (λ line. line_octets line ≡ part_line part.now) }
        ensures written { IfOk result (λ line. (text : List ℕ) → HasWritten self.old text → HasWritten self.new (text ++ part_line part.now)) }
    {
        let line = line_of(alloc, part)?;
        self.hasher.update(line.front.as_slice());
        self.hasher.update(line.last);
        self.hasher.update(line.back.as_slice());
        Ok(line)
    }

    /// The last line, with the SHA-256 of all before it.
    pub fn end(self, alloc: Global) -> Result<Octets, AllocError>
        ensures { IfOk result (λ line. (text : List ℕ) → HasWritten self text → line ≡ sum_line text) }
    {
        let Writer { hasher } = self;
        let sum = hex::encode(alloc, hasher.finalize())?;
        let mut line = Octets::new(alloc);
        push_pair(&mut line, b"sum", sum.as_bytes())?;
        Ok(line)
    }
}

/// A line of two fields.
#[tactic(auto, unfolding(crate::specs::Netstring::line))]
fn push_pair(out: &mut Octets, word: &[u8], value: &[u8]) -> Result<(), AllocError>
    ensures { OnOk result (out.new ≡ out.old ++ line (word.now ∷ value.now ∷ [])) }
{
    push_netstring(out, word)?;
    push_netstring(out, value)?;
    out.push(b'\n')
}

#[tactic(auto, unfolding(crate::specs::Netstring::line))]
fn push_owner(out: &mut Octets, owner: &AccountOwner) -> Result<(), AllocError>
    ensures { OnOk result (out.new ≡ out.old ++ line (owner_fields owner.now)) }
{
    push_netstring(out, b"account")?;
    push_netstring(out, owner.name.as_slice())?;
    push_netstring(out, owner.address.as_slice())?;
    push_netstring(out, owner.salt.as_slice())?;
    push_netstring(out, owner.digest.as_slice())?;
    push_name(out, owner.active.as_ref())?;
    out.push(b'\n')
}

/// The name, if there is one.
fn push_name(out: &mut Octets, name: Option<&Octets>) -> Result<(), AllocError>
    ensures { OnOk result (out.new ≡ out.old ++ flat_map netstring (option_to_list (option_copied name.entry))) }
{
    match name {
        Some(name) => push_netstring(out, name.as_slice()),
        None => Ok(()),
    }
}

#[tactic(auto, unfolding(crate::specs::Netstring::line))]
fn push_numbers(out: &mut Octets, numbers: Numbers) -> Result<(), AllocError>
    ensures { OnOk result (out.new ≡ out.old ++ line (numbers_fields numbers)) }
{
    push_netstring(out, b"numbers")?;
    push_number(out, numbers.rounds as u64)?;
    push_number(out, numbers.next_copy)?;
    push_number(out, numbers.next_out)?;
    push_number(out, numbers.next_notice)?;
    out.push(b'\n')
}

/// The flags, if there are any.
fn push_flags(out: &mut Octets, flags: &[u8]) -> Result<(), AllocError>
    ensures { OnOk result (out.new ≡ out.old ++ flat_map netstring (flags_fields flags.now)) }
{
    if flags.is_empty() {
        return Ok(());
    }
    push_netstring(out, flags)
}

/// A line with this text after other fields, and with the flags, if there are any.
#[tactic(auto, unfolding(crate::specs::Netstring::netstring))]
fn ended<'a>(
    alloc: Global,
    mut front: Octets,
    last: &'a [u8],
    flags: &[u8],
) -> Result<AccountLine<'a>, AllocError>
    ensures { IfOk result (λ line. line_octets line ≡ front ++ (netstring last.now ++ (flat_map netstring (flags_fields flags.now) ++ 10 ∷ []))) }
{
    push_length(&mut front, last.len())?;
    let mut back = Octets::new(alloc);
    back.push(b',')?;
    push_flags(&mut back, flags)?;
    back.push(b'\n')?;
    Ok(AccountLine { front, last, back })
}

/// A line with this number after other fields, and with the flags, if there are any.
#[tactic(auto, unfolding(crate::specs::Netstring::netstring))]
fn counted<'a>(
    alloc: Global,
    mut front: Octets,
    last: u64,
    flags: &[u8],
) -> Result<AccountLine<'a>, AllocError>
    ensures { IfOk result (λ line. line_octets line ≡ front ++ (netstring (decimal last) ++ (flat_map netstring (flags_fields flags.now) ++ 10 ∷ []))) }
{
    push_number(&mut front, last)?;
    push_flags(&mut front, flags)?;
    front.push(b'\n')?;
    Ok(AccountLine {
        front,
        last: b"",
        back: Octets::new(alloc),
    })
}

fn word_of(kind: LetterKind) -> &'static [u8]
    ensures { result.now ≡ letter_word kind }
{
    match kind {
        LetterKind::Redirect => b"redirect",
        LetterKind::Answer => b"answer",
    }
}

/// The line of a part.
#[tactic(auto, unfolding(crate::specs::Netstring::line))]
fn line_of(alloc: Global, part: &Part) -> Result<AccountLine<'_>, AllocError>
    ensures { IfOk result (λ line. line_octets line ≡ part_line part.now) }
{
    let mut front = Octets::new(alloc);
    match part {
        Part::Script { name, text } => {
            push_netstring(&mut front, b"script")?;
            push_netstring(&mut front, name.as_slice())?;
            ended(alloc, front, text.as_slice(), b"")
        }
        Part::Reply {
            handle,
            sender,
            moment,
        } => {
            push_netstring(&mut front, b"reply")?;
            push_netstring(&mut front, handle.as_slice())?;
            push_netstring(&mut front, sender.as_slice())?;
            counted(alloc, front, *moment, b"")
        }
        Part::Mail {
            number,
            folder,
            message,
            flags,
        } => {
            push_netstring(&mut front, b"mail")?;
            push_number(&mut front, *number)?;
            push_netstring(&mut front, folder.as_slice())?;
            ended(alloc, front, message.as_slice(), flags.as_slice())
        }
        Part::Copy {
            number,
            folder,
            first,
            flags,
        } => {
            push_netstring(&mut front, b"copy")?;
            push_number(&mut front, *number)?;
            push_netstring(&mut front, folder.as_slice())?;
            counted(alloc, front, *first, flags.as_slice())
        }
        Part::Letter {
            id,
            kind,
            sender,
            target,
            message,
        } => {
            push_netstring(&mut front, word_of(*kind))?;
            push_number(&mut front, *id)?;
            push_netstring(&mut front, sender.as_slice())?;
            push_netstring(&mut front, target.as_slice())?;
            ended(alloc, front, message.as_slice(), b"")
        }
        Part::Notice {
            number,
            moment,
            text,
        } => {
            push_netstring(&mut front, b"notice")?;
            push_number(&mut front, *number)?;
            push_number(&mut front, *moment)?;
            ended(alloc, front, text.as_slice(), b"")
        }
    }
}
