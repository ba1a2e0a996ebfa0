//! The addresses of a list.
ghost use Rattle.std.specs.Prelude.{◌≡◌, ◌++◌, List, IfOk, OnOk, All, option_to_list};
ghost use Rattle.mail_address.specs.declared.address.Addr.{Addr};
ghost use Rattle.mail_address.specs.Parts as spec;
ghost use Rattle.mail_address.specs.Drafts as drafts;
ghost use Rattle.mail_address.specs.Reading as reading;
ghost use Rattle.mail_address.specs.Spelling.{IsDomain};

use crate::address::Addr;
use crate::draft::{BracketState, Draft};
use crate::scanner::{AddrPieceKind, next_token};
use std::alloc::{AllocError, Global};

fn is_separator(kind: AddrPieceKind) -> bool
    ensures { result ≡ spec.is_separator kind }
{
    match kind {
        AddrPieceKind::Comma | AddrPieceKind::Colon | AddrPieceKind::Semicolon => true,
        _ => false,
    }
}

fn push_some(found: &mut Vec<Addr>, address: Option<Addr>) -> Result<(), AllocError>
    ensures { OnOk result (found.new.items ≡ found.old.items ++ option_to_list address) }
{
    if let Some(address) = address {
        if let Err(_) = found.push(address) {
            return Err(AllocError);
        }
    }
    Ok(())
}

/// Ends the part at this mark and adds its address, if it gives one; a part before a colon gives none.
fn end_part(
    alloc: Global,
    draft: &mut Draft<'_>,
    mark: AddrPieceKind,
    found: &mut Vec<Addr>,
) -> Result<(), AllocError>
    ensures given { OnOk result (found.new.items ≡ found.old.items ++ option_to_list (drafts.part_address draft.old mark)) }
    ensures anew { OnOk result (draft.new ≡ drafts.empty_draft) }
{
    if let AddrPieceKind::Colon = mark {
        draft.restart();
        return Ok(());
    }
    let address = draft.finish(alloc)?;
    push_some(found, address)
}

/// Returns the addresses of a header value, in order (RFC 5322, 3.4). The value has been unfolded, and isn't decoded.
///
/// A part that isn't an address gives none. The value may have any octets. One pass, linear in the value's length; memory
/// for the addresses, and for the local part and the domain of one address whose pieces are apart or are quoted.
pub fn addresses(alloc: Global, value: &[u8]) -> Result<Vec<Addr>, AllocError>
    ensures found { IfOk result (λ found. spec.AreAddresses value.now found.items) }
    ensures only { IfOk result (λ found. (others : List Addr) → spec.AreAddresses value.now others → others ≡ found.items) }
    ensures read { IfOk result (λ found. found.items ≡ reading.addrs value.now) }
    ensures domains { IfOk result (λ found. All (λ address. IsDomain address.domain) found.items) }
{
    let mut found = Vec::new(alloc);
    let mut draft = Draft::new(alloc, BracketState::Front);
    let mut rest = value;
    while let Some((token, after)) = next_token(rest) {
        if is_separator(token.kind) && draft.is_outside() {
            end_part(alloc, &mut draft, token.kind, &mut found)?;
        } else {
            draft.take(alloc, token.kind, token.text, rest)?;
        }
        rest = after;
    }
    let last = draft.finish(alloc)?;
    push_some(&mut found, last)?;
    Ok(found)
}
