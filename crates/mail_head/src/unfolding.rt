//! Unfolding (RFC 5322, section 2.2.3).
ghost use Rattle.std.specs.Prelude.{◌≡◌, IfOk};
ghost use Rattle.mail_head.specs.Heads.{unfold_of};

use crate::line::{begins_blank, first_line, without_end};
use std::alloc::{AllocError, Global};

/// Unfolds a raw value: removes each line end that a space or a tab follows. The result is the value on one line, as a
/// test or an address parser reads it.
///
/// One pass, and one reservation of as many octets as `raw` has.
pub fn unfold_value(alloc: Global, raw: &[u8]) -> Result<Vec<u8>, AllocError>
    ensures { IfOk result (λ value. value.items ≡ unfold_of raw.now) }
{
    let mut value = Vec::with_capacity(alloc, raw.len())?;
    let mut rest = raw;
    while !rest.is_empty() {
        let (line, after) = first_line(rest);
        let kept = if begins_blank(after) {
            without_end(line)
        } else {
            line
        };
        value.extend_from_slice(kept)?;
        rest = after;
    }
    Ok(value)
}
