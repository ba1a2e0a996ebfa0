//! The contents of the lines of a text.
ghost use Rattle.std.specs.Prelude.{◌≡◌, ◌++◌, ⊤, ℕ, List, IfOk, IfErr};
ghost use Rattle.store_text.specs.Netstring.{line, texts};
ghost use Rattle.store_text.specs.Fields.{version_fields, owner_fields, numbers_fields};
ghost use Rattle.store_text.specs.Reading.{ReadsAccountLine, entry_fields, IsEntry, AreSmall, entry_at};

use crate::account_file::AccountReadError;
use crate::fields::{are_version, numbers_of, owner_of, part_of, sum_of};
use crate::head::{AccountOwner, Numbers};
use crate::line::take_line;
use crate::part::Part;
use octets::Octets;
use std::alloc::{AllocError, Global};

/// The contents of a line after the first ones.
#[derive(Drop)]
pub(crate) enum Entry {
    Part(Part),
    /// The SHA-256 at the end, as it is written.
    Sum(Octets),
}

/// Reads the first line, and returns the rest.
pub(crate) fn take_version(alloc: Global, octets: &[u8]) -> Result<&[u8], AccountReadError>
    ensures found { IfOk result (λ rest. octets.now ≡ line version_fields ++ rest.now) }
    ensures none { IfErr result (λ e. e ≡ AccountReadError.NotAnAccount → (more : List ℕ) → octets.now ≡ line version_fields ++ more → ⊥) }
{
    let Some((fields, rest)) = take_line(alloc, octets)? else {
        return Err(AccountReadError::NotAnAccount);
    };
    if !are_version(fields.as_slice()) {
        return Err(AccountReadError::NotAnAccount);
    }
    Ok(rest)
}

/// Reads the line on the account's owner, and returns it with the rest.
pub(crate) fn take_owner(
    alloc: Global,
    octets: &[u8],
) -> Result<(AccountOwner, &[u8]), AccountReadError>
    ensures { ReadsAccountLine owner_fields (λ _. ⊤) octets.now result }
{
    let Some((fields, rest)) = take_line(alloc, octets)? else {
        return Err(AccountReadError::NotAnAccount);
    };
    let Some(owner) = owner_of(alloc, fields.as_slice())? else {
        return Err(AccountReadError::NotAnAccount);
    };
    Ok((owner, rest))
}

/// Reads the line with the account's numbers, and returns them with the rest.
pub(crate) fn take_numbers(
    alloc: Global,
    octets: &[u8],
) -> Result<(Numbers, &[u8]), AccountReadError>
    ensures { ReadsAccountLine numbers_fields AreSmall octets.now result }
{
    let Some((fields, rest)) = take_line(alloc, octets)? else {
        return Err(AccountReadError::NotAnAccount);
    };
    let Some(numbers) = numbers_of(fields.as_slice()) else {
        return Err(AccountReadError::NotAnAccount);
    };
    Ok((numbers, rest))
}

/// Reads the next line, and returns its contents with the rest.
pub(crate) fn take_entry(alloc: Global, octets: &[u8]) -> Result<(Entry, &[u8]), AccountReadError>
    ensures { ReadsAccountLine entry_fields IsEntry octets.now result }
{
    let Some((fields, rest)) = take_line(alloc, octets)? else {
        return Err(AccountReadError::NotAnAccount);
    };
    let Some(entry) = entry_of(alloc, fields.as_slice())? else {
        return Err(AccountReadError::NotAnAccount);
    };
    Ok((entry, rest))
}

/// The contents of a line after the first ones, from its fields.
fn entry_of(alloc: Global, fields: &[&[u8]]) -> Result<Option<Entry>, AllocError>
    ensures { IfOk result (λ entry. entry ≡ entry_at (texts fields.now)) }
{
    if let Some(sum) = sum_of(fields) {
        return Ok(Some(Entry::Sum(Octets::from_slice(alloc, sum)?)));
    }
    match part_of(alloc, fields)? {
        Some(part) => Ok(Some(Entry::Part(part))),
        None => Ok(None),
    }
}
