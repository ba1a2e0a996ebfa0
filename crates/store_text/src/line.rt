//! Lines of netstrings.
ghost use Rattle.std.specs.Prelude.{◌≡◌, ◌∷◌, ◌++◌, ℕ, List, IfOk, IfSome, IfNone};
ghost use Rattle.store_text.specs.Netstring.{line, texts, AreFields};

use crate::netstring::take_netstring;
use std::alloc::{AllocError, Global};

/// The fields of the line at the start, and the rest; `None` if there is no line.
pub(crate) fn take_line(
    alloc: Global,
    octets: &[u8],
) -> Result<Option<(Vec<&[u8]>, &[u8])>, AllocError>
    ensures found { IfOk result (λ o. IfSome o (λ taken. octets.now ≡ line (texts taken.0.items) ++ taken.1.now)) }
    ensures fields { IfOk result (λ o. IfSome o (λ taken. AreFields (texts taken.0.items))) }
    ensures none { IfOk result (λ o. IfNone o ((fields : List (List ℕ)) (more : List ℕ) → AreFields fields → octets.now ≡ line fields ++ more → ⊥)) }
{
    let mut fields = Vec::new(alloc);
    let mut rest = octets;
    'fields: loop {
        if let Some(behind) = after_feed(rest) {
            return Ok(Some((fields, behind)));
        }
        let Some((field, more)) = take_netstring(rest) else {
            return Ok(None);
        };
        fields.push(field)?;
        rest = more;
    }
}

/// What comes after an LF at the start; `None` if there is none.
fn after_feed(octets: &[u8]) -> Option<&[u8]>
    ensures found { IfSome result (λ rest. octets.now ≡ 10 ∷ rest.now) }
    ensures none { IfNone result ((rest : List ℕ) → octets.now ≡ 10 ∷ rest → ⊥) }
{
    match octets.split_first() {
        Some((b'\n', rest)) => Some(rest),
        _ => None,
    }
}
