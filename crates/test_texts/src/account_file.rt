//! Texts of accounts.
use octets::{Octets, write_decimal};
use std::alloc::{AllocError, Global};
use store_text::{
    AccountFile, AccountHead, AccountReadError, LetterKind, Part, Writer, read_account_file,
};

/// What the text says, one part after the other; none if it is that of no account.
pub fn add_account(alloc: Global, out: &mut Octets, text: &[u8]) -> Result<(), AllocError> {
    match read_account_file(alloc, text) {
        Ok(file) => add_file(alloc, out, text, &file),
        Err(AccountReadError::NotAnAccount) => out.extend_from_slice(b"none"),
        Err(AccountReadError::Memory) => Err(AllocError),
    }
}

fn add_file(
    alloc: Global,
    out: &mut Octets,
    text: &[u8],
    file: &AccountFile,
) -> Result<(), AllocError> {
    add_head(out, &file.head)?;
    for part in file.parts.as_slice() {
        add_part(out, part)?;
    }
    let again = written(alloc, file)?;
    let told = if again.as_slice() == text {
        b"again".as_slice()
    } else {
        b"another".as_slice()
    };
    out.extend_from_slice(told)
}

/// The text of the account.
fn written(alloc: Global, file: &AccountFile) -> Result<Octets, AllocError> {
    let (mut writer, mut text) = Writer::begin(alloc, &file.head)?;
    for part in file.parts.as_slice() {
        let line = writer.part(alloc, part)?;
        text.extend_from_slice(line.front.as_slice())?;
        text.extend_from_slice(line.last)?;
        text.extend_from_slice(line.back.as_slice())?;
    }
    let end = writer.end(alloc)?;
    text.extend_from_slice(end.as_slice())?;
    Ok(text)
}

fn add_head(out: &mut Octets, head: &AccountHead) -> Result<(), AllocError> {
    out.extend_from_slice(b"account")?;
    add_text(out, head.owner.name.as_slice())?;
    add_text(out, head.owner.address.as_slice())?;
    add_text(out, head.owner.salt.as_slice())?;
    add_text(out, head.owner.digest.as_slice())?;
    if let Some(name) = &head.owner.active {
        add_text(out, name.as_slice())?;
    }
    out.extend_from_slice(b";numbers")?;
    add_number(out, u64::from(head.numbers.rounds))?;
    add_number(out, head.numbers.next_copy)?;
    add_number(out, head.numbers.next_out)?;
    add_number(out, head.numbers.next_notice)?;
    out.push(b';')
}

fn add_part(out: &mut Octets, part: &Part) -> Result<(), AllocError> {
    match part {
        Part::Script { name, text } => {
            out.extend_from_slice(b"script")?;
            add_text(out, name.as_slice())?;
            add_text(out, text.as_slice())?;
        }
        Part::Reply {
            handle,
            sender,
            moment,
        } => {
            out.extend_from_slice(b"reply")?;
            add_text(out, handle.as_slice())?;
            add_text(out, sender.as_slice())?;
            add_number(out, *moment)?;
        }
        Part::Mail {
            number,
            folder,
            message,
            flags,
        } => {
            out.extend_from_slice(b"mail")?;
            add_number(out, *number)?;
            add_text(out, folder.as_slice())?;
            add_text(out, message.as_slice())?;
            add_flags(out, flags.as_slice())?;
        }
        Part::Copy {
            number,
            folder,
            first,
            flags,
        } => {
            out.extend_from_slice(b"copy")?;
            add_number(out, *number)?;
            add_text(out, folder.as_slice())?;
            add_number(out, *first)?;
            add_flags(out, flags.as_slice())?;
        }
        _ => add_late_part(out, part)?,
    }
    out.push(b';')
}

/// A message on its way out, or a notice.
fn add_late_part(out: &mut Octets, part: &Part) -> Result<(), AllocError> {
    match part {
        Part::Letter {
            id,
            kind,
            sender,
            target,
            message,
        } => {
            out.extend_from_slice(match kind {
                LetterKind::Redirect => b"redirect".as_slice(),
                LetterKind::Answer => b"answer".as_slice(),
            })?;
            add_number(out, *id)?;
            add_text(out, sender.as_slice())?;
            add_text(out, target.as_slice())?;
            add_text(out, message.as_slice())
        }
        Part::Notice {
            number,
            moment,
            text,
        } => {
            out.extend_from_slice(b"notice")?;
            add_number(out, *number)?;
            add_number(out, *moment)?;
            add_text(out, text.as_slice())
        }
        _ => Ok(()),
    }
}

fn add_number(out: &mut Octets, number: u64) -> Result<(), AllocError> {
    out.push(b' ')?;
    write_decimal(out, number)
}

/// The flags, if there are some.
fn add_flags(out: &mut Octets, flags: &[u8]) -> Result<(), AllocError> {
    if flags.is_empty() {
        return Ok(());
    }
    add_text(out, flags)
}

/// The text, or the length of a long one.
fn add_text(out: &mut Octets, text: &[u8]) -> Result<(), AllocError> {
    out.push(b' ')?;
    if text.len() > 64 {
        out.push(b'#')?;
        return write_decimal(out, text.len() as u64);
    }
    out.extend_from_slice(text)
}
