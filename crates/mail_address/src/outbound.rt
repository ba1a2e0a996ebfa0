//! The address that a script or a command names.
ghost use Rattle.std.specs.Prelude.{◌≡◌, ℕ, ◌≤◌, false, List, length, IfOk, IfSome, MatchOption, Some, None};
ghost use Rattle.mail_address.specs.declared.address.Addr.{Addr};
ghost use Rattle.std.specs.List.{list_all};
ghost use Rattle.mail_address.specs.Outbound as spec;
ghost use Rattle.mail_address.specs.Drafts as drafts;
ghost use Rattle.mail_address.specs.Reading as reading;
ghost use Rattle.mail_address.specs.Spelling.{IsDomain};

use crate::address::Addr;
use crate::draft::{BracketState, Draft};
use crate::pieces::unquote;
use crate::scanner::{AddrPieceKind, next_token};
use octets::{Octets, trim_blanks};
use std::alloc::{AllocError, Global};

/// The most octets of an address to which mail is sent, with its display name.
pub const MAX_LEN: usize = 512;

/// Whether the octet isn't a control character.
fn is_shown(octet: u8) -> bool
    ensures { result ≡ spec.is_no_control octet }
{
    32 <= octet && octet != 127
}

fn all_shown(text: &[u8]) -> bool
    ensures { result ≡ list_all spec.is_no_control text.now }
{
    text.iter().all(|octet| is_shown(*octet))
}

/// Whether the text is short enough and has no control characters.
fn is_fit(text: &[u8]) -> bool
    ensures { result ≡ spec.is_fit text.now }
{
    text.len() <= MAX_LEN && all_shown(text)
}

/// The place of the `<` after a display name, which is one or more words, perhaps with dots after the first, and what follows it.
fn opening(text: &[u8]) -> Option<(usize, &[u8])>
    ensures is { let opens = reading.display_opening false 0 (reading.pieces text.now) in
        MatchOption result (opens ≡ None) (λ r. opens ≡ Some (r.0, reading.pieces r.1.now)) }
    ensures within { IfSome result (λ r. r.0 ≤ length text.now) }
{
    let mut seen = false;
    let mut at = 0;
    let mut rest = text;
    while let Some((token, after)) = next_token(rest) {
        match token.kind {
            AddrPieceKind::Blank => {}
            AddrPieceKind::Atom | AddrPieceKind::Quoted => seen = true,
            AddrPieceKind::Dot if seen => {}
            AddrPieceKind::Less if seen => return Some((at, after)),
            _ => return None,
        }
        at += token.text.len();
        rest = after;
    }
    None
}

/// The addr-spec that the text is, or that precedes a `>` at its end.
fn addr_spec_only(
    alloc: Global,
    place: BracketState,
    text: &[u8],
) -> Result<Option<Addr>, AllocError>
    ensures { IfOk result (λ found. found ≡ reading.addr_spec_only (drafts.empty_draft_at place) (reading.pieces text.now)) }
{
    let mut draft = Draft::new(alloc, place);
    let mut rest = text;
    while let Some((token, after)) = next_token(rest) {
        match token.kind {
            AddrPieceKind::Comment | AddrPieceKind::Less => return Ok(None),
            _ => draft.take(alloc, token.kind, token.text, rest)?,
        }
        rest = after;
    }
    draft.finish(alloc)
}

/// The display name and the address of a text that is fit.
fn read_fit(alloc: Global, text: &[u8]) -> Result<Option<(Octets, Addr)>, AllocError>
    ensures { IfOk result (λ found. found ≡ reading.outbound_fit text.now) }
{
    let mut display_name = Octets::new(alloc);
    let found = match opening(text) {
        None => addr_spec_only(alloc, BracketState::Front, text)?,
        Some((at, after)) => {
            let (before, _) = text.split_at(at);
            unquote(&mut display_name, trim_blanks(before))?;
            addr_spec_only(alloc, BracketState::Inside, after)?
        }
    };
    Ok(found.map(|address| (display_name, address)))
}

/// Returns the display name and the address of a text that is an addr-spec, or words and an addr-spec in angle brackets (RFC 5228,
/// 2.4.2.3). The display name is empty if there are no words; it is without the quotation marks of quoted strings, and without the
/// backslashes of quoted pairs.
///
/// `None` for any other text: one with a comment, a route, a control character, more than 512 octets, or more than one
/// address. Linear in the text's length; takes memory only for the display name and the address.
pub fn sieve_address(alloc: Global, text: &[u8]) -> Result<Option<(Octets, Addr)>, AllocError>
    ensures unfit { spec.is_fit text.now ≡ false → result ≡ Ok None }
    ensures found { IfOk result (λ found. IfSome found (λ r. spec.IsOutbound text.now r.0 r.1)) }
    ensures only { IfOk result (λ found. (display_name : List ℕ) (address : Addr) →
        spec.IsOutbound text.now display_name address → found ≡ Some (display_name, address)) }
    ensures read { IfOk result (λ found. found ≡ reading.outbound text.now) }
    ensures domain { IfOk result (λ found. IfSome found (λ r. IsDomain r.1.domain)) }
{
    if is_fit(text) {
        read_fit(alloc, text)
    } else {
        Ok(None)
    }
}

/// Returns the address of a text that is only an addr-spec, without display name and angle brackets (RFC 5322, 3.4.1): `a@b`, and
/// not `<a@b>` or `"" <a@b>`.
///
/// `None` for any other text, and for one that `sieve_address` refuses. Linear in the text's length; takes memory only for the
/// address.
pub fn bare_address(alloc: Global, text: &[u8]) -> Result<Option<Addr>, AllocError>
    ensures unfit { spec.is_fit text.now ≡ false → result ≡ Ok None }
    ensures found { IfOk result (λ found. IfSome found (λ address. spec.IsBareAddress text.now address)) }
    ensures only { IfOk result (λ found. (address : Addr) → spec.IsBareAddress text.now address → found ≡ Some address) }
    ensures read { IfOk result (λ found. found ≡ reading.bare text.now) }
    ensures domain { IfOk result (λ found. IfSome found (λ address. IsDomain address.domain)) }
{
    if !is_fit(text) {
        return Ok(None);
    }
    addr_spec_only(alloc, BracketState::Front, text)
}
