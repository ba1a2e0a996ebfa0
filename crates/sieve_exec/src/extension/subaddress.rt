//! `subaddress`: the user and the detail of a local part, `:user` and `:detail` (RFC 5233, 4).
ghost use Rattle.std.specs.Prelude.{◌≡◌, None, Some, MatchOption};
ghost use Rattle.sieve_exec.specs.Extension.Subaddress.{user_of, detail_of};

use memchr::memchr;

/// What precedes the first `+`, or all of it if it has none. Linear in the local part; takes no memory.
pub(crate) fn user_in(local: &[u8]) -> &[u8]
    ensures { result.now ≡ user_of local.now }
{
    match memchr(b'+', local) {
        Some(at) => local.split_at(at).0,
        None => local,
    }
}

/// What follows the first `+`; `None` if it has none. Linear in the local part; takes no memory.
pub(crate) fn detail_in(local: &[u8]) -> Option<&[u8]>
    ensures { MatchOption result (detail_of local.now ≡ None) (λ detail. detail_of local.now ≡ Some detail.now) }
{
    match memchr(b'+', local) {
        Some(at) => Some(local.split_at(at + 1).1),
        None => None,
    }
}
