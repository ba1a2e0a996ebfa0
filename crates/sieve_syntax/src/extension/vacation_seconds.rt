//! `vacation-seconds`: the tag `:seconds` of `vacation`, and all that `vacation` has (RFC 6131).
ghost use Rattle.std.specs.Prelude.{◌≡◌};
ghost use Rattle.sieve_syntax.specs.Extension.VacationSeconds.{seconds_in};

use crate::table::tag_group::TagValue;

/// The seconds of `vacation`, if they are given.
///
/// Syntax: vacation [":seconds" number], in place of `:days`; requires `vacation-seconds` (RFC 6131, 2).
pub(crate) fn given_seconds(tag_values: &[TagValue]) -> Option<u64>
    ensures { result ≡ seconds_in tag_values.now }
{
    for tag_value in tag_values {
        if let TagValue::Seconds(seconds) = tag_value {
            return Some(*seconds);
        }
    }
    None
}
