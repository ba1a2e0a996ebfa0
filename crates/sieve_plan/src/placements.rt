//! The copies of a message that scripts file.
ghost use Rattle.std.specs.Prelude.{◌≡◌, [], ◌∷◌, map, nat_eq, not, IfOk};
ghost use Rattle.std.specs.List.{filter};
ghost use Rattle.std.specs.Cmp.Lexicographic.{pointwise};
ghost use Rattle.sieve_syntax.specs.RunState.{inbox as inbox_of, is_filed};
ghost use Rattle.sieve_plan.specs.Delivered.{unflagged_copy, with_inbox};
ghost use Rattle.sieve_plan.specs.Handover.{filed_behind as filed_behind_of, filed_for_good as filed_for_good_of, inbox_flags as inbox_flags_of};

use mail_flags::Placement;
use octets::{List, Octets, Texts};
use sieve_exec::INBOX;
use std::alloc::{AllocError, Global};

/// Only INBOX, without flags.
pub(crate) fn inbox(alloc: Global) -> Result<List<Placement>, AllocError>
    ensures { IfOk result (λ filed. filed ≡ unflagged_copy inbox_of ∷ []) }
{
    let mut filed = List::new(alloc);
    filed.push(Placement {
        mailbox: Octets::from_slice(alloc, INBOX)?,
        flags: Octets::new(alloc),
    })?;
    Ok(filed)
}

/// The names of the mailboxes.
pub(crate) fn mailboxes(alloc: Global, filed: &[Placement]) -> Result<Texts, AllocError>
    ensures { IfOk result (λ texts. texts ≡ map (λ f. f.mailbox) filed.now) }
{
    let mut texts = Texts::new(alloc);
    for placement in filed {
        texts.push(placement.mailbox.try_clone(alloc)?)?;
    }
    Ok(texts)
}

/// The mailboxes, INBOX among them: without flags where it isn't there.
pub(crate) fn with_inbox(
    alloc: Global,
    filed: List<Placement>,
) -> Result<List<Placement>, AllocError>
    ensures { IfOk result (λ all. all ≡ with_inbox filed) }
{
    if has_inbox(filed.as_slice()) {
        return Ok(filed);
    }
    let mut all = filed;
    all.push(Placement {
        mailbox: Octets::from_slice(alloc, INBOX)?,
        flags: Octets::new(alloc),
    })?;
    Ok(all)
}

/// Whether INBOX is among the mailboxes.
pub(crate) fn has_inbox(filed: &[Placement]) -> bool
    ensures { result ≡ is_filed filed.now inbox_of }
{
    filed.iter().any(|placement| is_inbox(placement))
}

fn is_inbox(placement: &Placement) -> bool
    ensures { result ≡ pointwise nat_eq placement.now.mailbox inbox_of }
{
    placement.mailbox.as_slice() == INBOX
}

/// Copies of the placements, in order.
pub(crate) fn copied_placements(
    alloc: Global,
    filed: &[Placement],
) -> Result<Vec<Placement>, AllocError>
    ensures { IfOk result (λ copies. copies.items ≡ filed.now) }
{
    let mut copies = Vec::new(alloc);
    for placement in filed {
        copies.push(Placement {
            mailbox: placement.mailbox.try_clone(alloc)?,
            flags: placement.flags.try_clone(alloc)?,
        })?;
    }
    Ok(copies)
}

/// Those that stand whatever comes behind: without INBOX, unless a `fileinto` named it.
pub(crate) fn filed_for_good(names_inbox: bool, filed: Vec<Placement>) -> Vec<Placement>
    ensures { result.items ≡ filed_for_good_of names_inbox filed.items }
{
    if names_inbox {
        return filed;
    }
    let mut others = filed;
    leave_others(&mut others);
    others
}

/// Keeps those that aren't in INBOX.
fn leave_others(filed: &mut Vec<Placement>)
    ensures { filed.new.items ≡ filter (λ there. not (pointwise nat_eq there.mailbox inbox_of)) filed.old.items }
{
    filed.retain(|placement| !is_inbox(placement));
}

/// What earlier scripts filed, and behind it what a run filed besides, which began with as many.
pub(crate) fn filed_behind(
    before: Vec<Placement>,
    filed: Vec<Placement>,
) -> Result<List<Placement>, AllocError>
    ensures { IfOk result (λ all. all ≡ filed_behind_of before.items filed.items) }
{
    let mut all = before;
    let mut filed = filed;
    if all.len() < filed.len() {
        let mut more = filed.split_off(all.len())?;
        all.append(&mut more)?;
    }
    Ok(List::from_vec(all))
}

/// The flags of the copy in INBOX, if there is one.
pub(crate) fn inbox_flags(alloc: Global, filed: &[Placement]) -> Result<Option<Octets>, AllocError>
    ensures { IfOk result (λ flags. flags ≡ inbox_flags_of filed.now) }
{
    for placement in filed {
        if is_inbox(placement) {
            return Ok(Some(placement.flags.try_clone(alloc)?));
        }
    }
    Ok(None)
}
