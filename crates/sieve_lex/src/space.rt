//! White space: blanks, line ends and comments.
ghost use Rattle.std.specs.Prelude.{◌≡◌, ◌<◌, ◌≤◌, length, drop, MatchResult, Some, None};
ghost use Rattle.sieve_lex.specs.Skip.{begins_space, space_from};
ghost use Rattle.sieve_lex.specs.declared.space.SpaceState.TheVariants.{Between, Comment};

use crate::class::is_white;
use memchr::memchr;

/// Where in white space an octet is.
#[derive(Clone, Copy)]
pub(crate) enum SpaceState {
    /// After whole pieces.
    Between,
    /// After a `#`.
    Comment,
    /// After the `/` of a `/*`.
    Opening,
    /// After a `/*`.
    Inner,
    /// After a `/*` and directly after a `*`.
    Star,
}

impl SpaceState {
    ghost use Rattle.sieve_lex.specs.Skip.{space_state_after};

    /// Where the octet after this one is.
    fn after(self, octet: u8) -> SpaceState
        ensures { result ≡ space_state_after self octet }
    {
        match self {
            SpaceState::Between => match octet {
                b'#' => SpaceState::Comment,
                b'/' => SpaceState::Opening,
                _ => SpaceState::Between,
            },
            SpaceState::Comment => match octet {
                b'\n' => SpaceState::Between,
                _ => SpaceState::Comment,
            },
            SpaceState::Opening => SpaceState::Inner,
            SpaceState::Inner => match octet {
                b'*' => SpaceState::Star,
                _ => SpaceState::Inner,
            },
            SpaceState::Star => match octet {
                b'/' => SpaceState::Between,
                b'*' => SpaceState::Star,
                _ => SpaceState::Inner,
            },
        }
    }
}

/// Whether the text begins with a white octet, `#` or `/*`.
fn begins_space(octets: &[u8]) -> bool
    ensures { result ≡ begins_space octets.now }
{
    match octets.split_first() {
        Some((first, rest)) => is_white(*first)
            || *first == b'#'
            || (*first == b'/' && rest.first() == Some(&b'*')),
        None => false,
    }
}

/// How many octets of a `#` comment are left, including its line end.
fn comment_len(octets: &[u8]) -> usize
    ensures within { result ≤ length octets.now }
    ensures some { 0 < length octets.now → 0 < result }
    ensures goes_on { space_from Between (drop result octets.now) ≡ space_from Comment octets.now }
{
    match memchr(b'\n', octets) {
        Some(at) => at + 1,
        None => octets.len(),
    }
}

/// How many octets of white space the text begins with, or where the comment begins that is not closed.
#[inline(always)]
pub(crate) fn space_len(octets: &[u8]) -> Result<usize, usize>
    ensures { MatchResult result
        (λ n. (n ≤ length octets.now) × (space_from Between octets.now ≡ Some (drop n octets.now)))
        (λ opened. (opened ≤ length octets.now) × (space_from Between octets.now ≡ None)) }
{
    let mut place = SpaceState::Between;
    let mut opened = 0;
    let mut at = 0;
    while at < octets.len() {
        let (_, ahead) = octets.split_at(at);
        match place {
            SpaceState::Between => {
                if !begins_space(ahead) {
                    return Ok(at);
                }
                opened = at;
                place = place.after(octets[at]);
                at += 1;
            }
            SpaceState::Comment => {
                at += comment_len(ahead);
                place = SpaceState::Between;
            }
            _ => {
                place = place.after(octets[at]);
                at += 1;
            }
        }
    }
    match place {
        SpaceState::Between | SpaceState::Comment => Ok(octets.len()),
        _ => Err(opened),
    }
}
