//! Reads an account's text.
ghost use Rattle.std.specs.Prelude.{◌≡◌, ◌++◌, ⊤, ℕ, List, option_copied, IfOk, IfErr};
ghost use Rattle.store_text.specs.declared.head.AccountHead.{AccountHead};
ghost use Rattle.store_text.specs.declared.part.Part.{Part};
ghost use Rattle.store_text.specs.Text.{IsAccountText, IsHead, head_text};
ghost use Rattle.store_text.specs.Reading.{ReadsAccountLine, entry_fields, MayStand, stands, ends};

use crate::account_file::{AccountFile, AccountReadError};
use crate::entry::{Entry, take_entry, take_numbers, take_owner, take_version};
use crate::head::{AccountHead, Numbers};
use crate::order::{are_numbers, fits, follows, has_active};
use crate::part::Part;
use sha2::{Digest, Sha256};
use std::alloc::{AllocError, Global};

/// Reads the account whose text this is, a part at a time.
///
/// A text that is cut or changed, one with octets after its end and one of another version are not the text of an account. The
/// SHA-256 at the end shows that nothing was changed: it detects damage, not forgery. Time and memory are linear in the text: each
/// part is copied.
///
/// # Errors
///
/// `NotAnAccount` if it isn't the text of an account, and `Memory`.
pub fn read_account_file(alloc: Global, text: &[u8]) -> Result<AccountFile, AccountReadError>
    ensures found { IfOk result (λ file. IsAccountText text.now file.head file.parts) }
    ensures none { IfErr result (λ e. e ≡ AccountReadError.NotAnAccount → (head : AccountHead) (parts : List Part) → IsAccountText text.now head parts → ⊥) }
{
    let (head, mut rest) = take_head(alloc, text)?;
    let mut parts = octets::List::new(alloc);
    'parts: loop {
        let (entry, more) = take_next(alloc, &head.numbers, parts.as_slice().last(), rest)?;
        match entry {
            Entry::Part(part) => {
                parts.push(part)?;
                rest = more;
            }
            Entry::Sum(sum) => {
                let body = &text[..text.len() - rest.len()];
                let ends = is_end(alloc, &head, parts.as_slice(), body, sum.as_slice(), more)?;
                if !ends {
                    return Err(AccountReadError::NotAnAccount);
                }
                return Ok(AccountFile { head, parts });
            }
        }
    }
}

/// Whether the parts are those of an account, nothing comes after the last line, and that line has the SHA-256 of all before it.
fn is_end(
    alloc: Global,
    head: &AccountHead,
    parts: &[Part],
    body: &[u8],
    sum: &[u8],
    behind: &[u8],
) -> Result<bool, AllocError>
    ensures { IfOk result (λ is. is ≡ ends head.now parts.now body.now sum.now behind.now) }
{
    if !behind.is_empty() || !has_active(head.owner.active.as_ref(), parts) {
        return Ok(false);
    }
    let digest = hex::encode(alloc, Sha256::digest(body))?;
    Ok(sum == digest.as_bytes())
}

/// What the account has once, and the rest.
fn take_head(alloc: Global, text: &[u8]) -> Result<(AccountHead, &[u8]), AccountReadError>
    ensures found { IfOk result (λ taken. text.now ≡ head_text taken.0 ++ taken.1.now) }
    ensures head { IfOk result (λ taken. IsHead taken.0) }
    ensures none { IfErr result (λ e. e ≡ AccountReadError.NotAnAccount → (head : AccountHead) (more : List ℕ) → IsHead head → text.now ≡ head_text head ++ more → ⊥) }
{
    let rest = take_version(alloc, text)?;
    let (owner, rest) = take_owner(alloc, rest)?;
    let (numbers, rest) = take_numbers(alloc, rest)?;
    if !are_numbers(numbers) {
        return Err(AccountReadError::NotAnAccount);
    }
    Ok((AccountHead { owner, numbers }, rest))
}

/// The contents of the next line, if it may come after the last part, and the rest.
fn take_next<'a>(
    alloc: Global,
    numbers: &Numbers,
    last: Option<&Part>,
    octets: &'a [u8],
) -> Result<(Entry, &'a [u8]), AccountReadError>
    ensures { ReadsAccountLine entry_fields (MayStand numbers.now (option_copied last.entry)) octets.now result }
{
    let (entry, rest) = take_entry(alloc, octets)?;
    if !may_stand(numbers, last, &entry) {
        return Err(AccountReadError::NotAnAccount);
    }
    Ok((entry, rest))
}

/// Whether the contents of a line may come after the last part.
fn may_stand(numbers: &Numbers, last: Option<&Part>, entry: &Entry) -> bool
    ensures { result ≡ stands numbers.now (option_copied last.entry) entry.now }
{
    match entry {
        Entry::Part(part) => fits(numbers, part) && follows(last, part),
        Entry::Sum(_) => true,
    }
}
