//! `copy`: the tag `:copy` of `fileinto` and `redirect` (RFC 3894).
ghost use Rattle.std.specs.Prelude.{◌≡◌};
ghost use Rattle.sieve_syntax.specs.Extension.Copy.{copy_in};

use crate::table::tag_group::TagValue;

/// Whether the implicit keep isn't cancelled.
///
/// Syntax: fileinto [":copy"], redirect [":copy"]; requires `copy` (RFC 3894, 3).
pub(crate) fn given_copy(tag_values: &[TagValue]) -> bool
    ensures { result ≡ copy_in tag_values.now }
{
    for tag_value in tag_values {
        if let TagValue::Copy = tag_value {
            return true;
        }
    }
    false
}
