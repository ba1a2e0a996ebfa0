//! The names under which the account of a recipient is looked for.
ghost use Rattle.std.specs.Prelude.{◌≡◌, ◌≤◌, ◌++◌, ℕ, List, ◌∷◌, length, take, drop, IfOk, OnOk};
ghost use Rattle.lmtp_dialogue.specs.Names as s;
ghost use Rattle.lmtp_dialogue.specs.declared.path.Quoting.TheVariants.{Outside as outside};

use crate::path::Quoting;
use octets::{Octets, Texts, lowered};
use std::alloc::{AllocError, Global};

/// What names an account.
#[derive(Clone, Copy, Debug, PartialEq, Eq)]
pub enum Names {
    /// The local part of an address, without quotation marks.
    Local,
    /// The whole address, as it is written.
    Whole,
}

/// The names under which the account of a recipient is looked for, in this order and none twice: as it is, in lower case, without
/// `+detail`, and both.
///
/// Lack of memory is the only error. Time is linear in the octets of the address.
pub fn name_forms(alloc: Global, names: Names, address: &[u8]) -> Result<Texts, AllocError>
    ensures { IfOk result (λ forms. s.AreForms names address.now forms) }
{
    let (local, tail) = address.split_at(local_length(address));
    match names {
        Names::Local => forms_by_local(alloc, local),
        Names::Whole => forms_by_address(alloc, local, tail),
    }
}

fn forms_by_local(alloc: Global, local: &[u8]) -> Result<Texts, AllocError>
    ensures { IfOk result (λ forms. forms ≡ s.local_forms local.now) }
{
    let text = unquoted(alloc, local)?;
    forms_of(alloc, text.as_slice(), without_detail(text.as_slice()))
}

fn forms_by_address(alloc: Global, local: &[u8], tail: &[u8]) -> Result<Texts, AllocError>
    ensures { IfOk result (λ forms. forms ≡ s.whole_forms local.now tail.now) }
{
    let name = joined(alloc, local, tail)?;
    let bare = joined(alloc, without_detail(local), tail)?;
    forms_of(alloc, name.as_slice(), bare.as_slice())
}

fn joined(alloc: Global, front: &[u8], back: &[u8]) -> Result<Octets, AllocError>
    ensures { IfOk result (λ text. text ≡ front.now ++ back.now) }
{
    let mut text = Octets::from_slice(alloc, front)?;
    text.extend_from_slice(back)?;
    Ok(text)
}

fn forms_of(alloc: Global, name: &[u8], bare: &[u8]) -> Result<Texts, AllocError>
    ensures { IfOk result (λ forms. forms ≡ s.forms_of name.now bare.now) }
{
    let mut forms = Texts::new(alloc);
    forms.push(Octets::from_slice(alloc, name)?)?;
    add_form(&mut forms, lowered(alloc, name)?)?;
    add_form(&mut forms, Octets::from_slice(alloc, bare)?)?;
    add_form(&mut forms, lowered(alloc, bare)?)?;
    Ok(forms)
}

// Adds a form, unless it is there.
fn add_form(forms: &mut Texts, form: Octets) -> Result<(), AllocError>
    ensures { OnOk result (forms.new ≡ s.with_form forms.old form) }
{
    if forms.as_slice().contains(&form) {
        return Ok(());
    }
    forms.push(form)
}

// What comes before the first `+`, if anything does.
fn without_detail(text: &[u8]) -> &[u8]
    ensures { result.now ≡ s.without_detail text.now }
{
    let count = bare_length(text);
    if count == 0 { text } else { &text[..count] }
}

fn bare_length(text: &[u8]) -> usize
    ensures value { result ≡ s.bare_length text.now }
    ensures within { result ≤ length text.now }
{
    text.iter().take_while(|octet| **octet != b'+').count()
}

// A local part without its quotation marks, and without the backslashes between them.
fn unquoted(alloc: Global, local: &[u8]) -> Result<Octets, AllocError>
    ensures { IfOk result (λ text. text ≡ s.unquoted_local outside local.now) }
{
    let mut text = Octets::new(alloc);
    let mut quoting = Quoting::Outside;
    for octet in local {
        quoting = add_unquoted(&mut text, quoting, *octet)?;
    }
    Ok(text)
}

fn add_unquoted(text: &mut Octets, quoting: Quoting, octet: u8) -> Result<Quoting, AllocError>
    ensures { IfOk result (λ next. (rest : List ℕ) → text.new ++ s.unquoted_local next rest ≡ text.old ++ s.unquoted_local quoting (octet ∷ rest)) }
{
    match (quoting, octet) {
        (Quoting::Outside, b'"') => Ok(Quoting::Inside),
        (Quoting::Inside, b'"') => Ok(Quoting::Outside),
        (Quoting::Inside, b'\\') => Ok(Quoting::Escaped),
        (Quoting::Outside, _) => {
            text.push(octet)?;
            Ok(Quoting::Outside)
        }
        (Quoting::Inside | Quoting::Escaped, _) => {
            text.push(octet)?;
            Ok(Quoting::Inside)
        }
    }
}

// How many octets the local part has: up to the last `@` outside quotation marks, or all.
fn local_length(address: &[u8]) -> usize
    ensures within { result ≤ length address.now }
    ensures parts { s.SplitsAddress address.now (take result address.now) (drop result address.now) }
{
    let mut quoting = Quoting::Outside;
    let mut count = address.len();
    for (at, octet) in address.iter().enumerate() {
        count = local_end(count, at, quoting, *octet);
        let Some(next) = quoting.after(*octet) else {
            return count;
        };
        quoting = next;
    }
    count
}

// Where the local part ends, after one more octet.
fn local_end(count: usize, at: usize, quoting: Quoting, octet: u8) -> usize
    ensures { s.EndsLocal count at quoting octet result }
{
    match (quoting, octet) {
        (Quoting::Outside, b'@') => at,
        _ => count,
    }
}
