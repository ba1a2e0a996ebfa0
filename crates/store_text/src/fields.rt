//! The parts of an account from the fields of a line.
ghost use Rattle.std.specs.Prelude.{◌≡◌, ◌&&◌, IfOk, codes, option_map};
ghost use Rattle.store_text.specs.Fields.{is_version, owner_at, owner_with as owner_by_word, rounds_in, counters_at, numbers_at, sum_at, part_at, script_at, reply_at, mail_at, copy_at, notice_at, four_at, where_flags, five_at, kind_at, letter_at};
ghost use Rattle.store_text.specs.Netstring.{same_text, texts};

use crate::head::{AccountOwner, Numbers};
use crate::netstring::number_of;
use crate::part::{LetterKind, Part};
use octets::Octets;
use std::alloc::{AllocError, Global};

/// A part, if there is one, unless memory ran out.
type Found = Result<Option<Part>, AllocError>;

/// Whether the fields are those of the first line.
#[tactic(auto, unfolding(crate::specs::Fields::is_version))]
pub(crate) fn are_version(fields: &[&[u8]]) -> bool
    ensures { result ≡ is_version (texts fields.now) }
{
    match fields {
        [word, version] => is_version_of(word, version),
        _ => false,
    }
}

fn is_version_of(word: &[u8], version: &[u8]) -> bool
    ensures { result ≡ (same_text word.now (codes "sieved-account") && same_text version.now (codes "1")) }
{
    word == b"sieved-account".as_slice() && version == b"1".as_slice()
}

/// The account's owner; `None` if the fields aren't one's.
#[tactic(auto, unfolding(crate::specs::Fields::owner_at))]
pub(crate) fn owner_of(alloc: Global, fields: &[&[u8]]) -> Result<Option<AccountOwner>, AllocError>
    ensures { IfOk result (λ owner. owner ≡ owner_at (texts fields.now)) }
{
    match fields {
        [word, name, address, salt, digest] => {
            owner_with(alloc, word, name, address, salt, digest, None)
        }
        [word, name, address, salt, digest, active] => {
            let active = Octets::from_slice(alloc, active)?;
            owner_with(alloc, word, name, address, salt, digest, Some(active))
        }
        _ => Ok(None),
    }
}

#[tactic(auto, unfolding(crate::specs::Fields::owner_with))]
fn owner_with(
    alloc: Global,
    word: &[u8],
    name: &[u8],
    address: &[u8],
    salt: &[u8],
    digest: &[u8],
    active: Option<Octets>,
) -> Result<Option<AccountOwner>, AllocError>
    ensures { IfOk result (λ owner. owner ≡ owner_by_word word.now name.now address.now salt.now digest.now active) }
{
    if word != b"account".as_slice() {
        return Ok(None);
    }
    Ok(Some(AccountOwner {
        name: Octets::from_slice(alloc, name)?,
        address: Octets::from_slice(alloc, address)?,
        salt: Octets::from_slice(alloc, salt)?,
        digest: Octets::from_slice(alloc, digest)?,
        active,
    }))
}

/// A number below 2^32.
#[tactic(auto, unfolding(crate::specs::Fields::rounds_in))]
fn rounds_of(text: &[u8]) -> Option<u32>
    ensures { result ≡ rounds_in text.now }
{
    let Some(number) = number_of(text) else {
        return None;
    };
    if number >= 1 << 32 {
        return None;
    }
    Some(number as u32)
}

#[tactic(auto, unfolding(crate::specs::Fields::counters_at))]
fn counters_of(rounds: u32, copy: &[u8], out: &[u8], notice: &[u8]) -> Option<Numbers>
    ensures { result ≡ counters_at rounds copy.now out.now notice.now }
{
    let Some(next_copy) = number_of(copy) else {
        return None;
    };
    let Some(next_out) = number_of(out) else {
        return None;
    };
    let Some(next_notice) = number_of(notice) else {
        return None;
    };
    Some(Numbers {
        rounds,
        next_copy,
        next_out,
        next_notice,
    })
}

/// The account's numbers; `None` if the fields aren't these.
#[tactic(auto, unfolding(crate::specs::Fields::numbers_at))]
pub(crate) fn numbers_of(fields: &[&[u8]]) -> Option<Numbers>
    ensures { result ≡ numbers_at (texts fields.now) }
{
    match fields {
        [word, rounds, copy, out, notice] if *word == b"numbers".as_slice() => {
            let Some(rounds) = rounds_of(rounds) else {
                return None;
            };
            counters_of(rounds, copy, out, notice)
        }
        _ => None,
    }
}

/// The sum at the end; `None` if the fields aren't one.
#[tactic(auto, unfolding(crate::specs::Fields::sum_at))]
pub(crate) fn sum_of<'a>(fields: &[&'a [u8]]) -> Option<&'a [u8]>
    ensures { option_map (λ sum. sum.now) result ≡ sum_at (texts fields.now) }
{
    match fields {
        [word, sum] if *word == b"sum".as_slice() => Some(*sum),
        _ => None,
    }
}

/// The part in the fields; `None` if there is none.
#[tactic(auto, unfolding(crate::specs::Fields::part_at))]
pub(crate) fn part_of(alloc: Global, fields: &[&[u8]]) -> Found
    ensures { IfOk result (λ part. part ≡ part_at (texts fields.now)) }
{
    match fields {
        [word, name, text] => script(alloc, word, name, text),
        [word, a, b, c] => four(alloc, word, a, b, c),
        [word, a, b, c, d] => five(alloc, word, a, b, c, d),
        _ => Ok(None),
    }
}

#[tactic(auto, unfolding(crate::specs::Fields::script_at))]
fn script(alloc: Global, word: &[u8], name: &[u8], text: &[u8]) -> Found
    ensures { IfOk result (λ part. part ≡ script_at word.now name.now text.now) }
{
    if word != b"script".as_slice() {
        return Ok(None);
    }
    Ok(Some(Part::Script {
        name: Octets::from_slice(alloc, name)?,
        text: Octets::from_slice(alloc, text)?,
    }))
}

/// A part with four fields.
#[tactic(auto, unfolding(crate::specs::Fields::four_at))]
fn four(alloc: Global, word: &[u8], a: &[u8], b: &[u8], c: &[u8]) -> Found
    ensures { IfOk result (λ part. part ≡ four_at word.now a.now b.now c.now) }
{
    if word == b"mail".as_slice() {
        mail(alloc, a, b, c, &[])
    } else if word == b"copy".as_slice() {
        copy(alloc, a, b, c, &[])
    } else if word == b"reply".as_slice() {
        reply(alloc, a, b, c)
    } else if word == b"notice".as_slice() {
        notice(alloc, a, b, c)
    } else {
        Ok(None)
    }
}

/// A part with five fields: one whose last field has flags, or a message on its way out.
#[tactic(auto, unfolding(crate::specs::Fields::five_at))]
fn five(alloc: Global, word: &[u8], a: &[u8], b: &[u8], c: &[u8], d: &[u8]) -> Found
    ensures { IfOk result (λ part. part ≡ five_at word.now a.now b.now c.now d.now) }
{
    if word == b"mail".as_slice() {
        flagged_mail(alloc, a, b, c, d)
    } else if word == b"copy".as_slice() {
        flagged_copy(alloc, a, b, c, d)
    } else {
        letter(alloc, word, a, b, c, d)
    }
}

fn flagged_mail(alloc: Global, number: &[u8], folder: &[u8], message: &[u8], flags: &[u8]) -> Found
    ensures { IfOk result (λ part. part ≡ where_flags flags.now (mail_at number.now folder.now message.now flags.now)) }
{
    if flags.is_empty() {
        return Ok(None);
    }
    mail(alloc, number, folder, message, flags)
}

fn flagged_copy(alloc: Global, number: &[u8], folder: &[u8], first: &[u8], flags: &[u8]) -> Found
    ensures { IfOk result (λ part. part ≡ where_flags flags.now (copy_at number.now folder.now first.now flags.now)) }
{
    if flags.is_empty() {
        return Ok(None);
    }
    copy(alloc, number, folder, first, flags)
}

#[tactic(auto, unfolding(crate::specs::Fields::reply_at))]
fn reply(alloc: Global, handle: &[u8], sender: &[u8], moment: &[u8]) -> Found
    ensures { IfOk result (λ part. part ≡ reply_at handle.now sender.now moment.now) }
{
    let Some(moment) = number_of(moment) else {
        return Ok(None);
    };
    Ok(Some(Part::Reply {
        handle: Octets::from_slice(alloc, handle)?,
        sender: Octets::from_slice(alloc, sender)?,
        moment,
    }))
}

#[tactic(auto, unfolding(crate::specs::Fields::mail_at))]
fn mail(alloc: Global, number: &[u8], folder: &[u8], message: &[u8], flags: &[u8]) -> Found
    ensures { IfOk result (λ part. part ≡ mail_at number.now folder.now message.now flags.now) }
{
    let Some(number) = number_of(number) else {
        return Ok(None);
    };
    Ok(Some(Part::Mail {
        number,
        folder: Octets::from_slice(alloc, folder)?,
        message: Octets::from_slice(alloc, message)?,
        flags: Octets::from_slice(alloc, flags)?,
    }))
}

#[tactic(auto, unfolding(crate::specs::Fields::copy_at))]
fn copy(alloc: Global, number: &[u8], folder: &[u8], first: &[u8], flags: &[u8]) -> Found
    ensures { IfOk result (λ part. part ≡ copy_at number.now folder.now first.now flags.now) }
{
    let Some(number) = number_of(number) else {
        return Ok(None);
    };
    let Some(first) = number_of(first) else {
        return Ok(None);
    };
    Ok(Some(Part::Copy {
        number,
        folder: Octets::from_slice(alloc, folder)?,
        first,
        flags: Octets::from_slice(alloc, flags)?,
    }))
}

#[tactic(auto, unfolding(crate::specs::Fields::notice_at))]
fn notice(alloc: Global, number: &[u8], moment: &[u8], text: &[u8]) -> Found
    ensures { IfOk result (λ part. part ≡ notice_at number.now moment.now text.now) }
{
    let Some(number) = number_of(number) else {
        return Ok(None);
    };
    let Some(moment) = number_of(moment) else {
        return Ok(None);
    };
    Ok(Some(Part::Notice {
        number,
        moment,
        text: Octets::from_slice(alloc, text)?,
    }))
}

#[tactic(auto, unfolding(crate::specs::Fields::kind_at))]
fn kind_of(word: &[u8]) -> Option<LetterKind>
    ensures { result ≡ kind_at word.now }
{
    if word == b"redirect".as_slice() {
        Some(LetterKind::Redirect)
    } else if word == b"answer".as_slice() {
        Some(LetterKind::Answer)
    } else {
        None
    }
}

#[tactic(auto, unfolding(crate::specs::Fields::letter_at))]
fn letter(
    alloc: Global,
    word: &[u8],
    id: &[u8],
    sender: &[u8],
    target: &[u8],
    message: &[u8],
) -> Found
    ensures { IfOk result (λ part. part ≡ letter_at word.now id.now sender.now target.now message.now) }
{
    let Some(kind) = kind_of(word) else {
        return Ok(None);
    };
    let Some(id) = number_of(id) else {
        return Ok(None);
    };
    Ok(Some(Part::Letter {
        id,
        kind,
        sender: Octets::from_slice(alloc, sender)?,
        target: Octets::from_slice(alloc, target)?,
        message: Octets::from_slice(alloc, message)?,
    }))
}
