//! A script with each token on a line of its own.
ghost use Rattle.std.specs.Prelude.{◌≡◌, ◌^◌, ◌<◌, ◌≤◌, IfOk, IfSome, All, length};
ghost use Rattle.sieve_lex.specs.Spelling.{IsPlaced};
ghost use Rattle.sieve_lex.specs.Text.{line_ends};
ghost use Rattle.sieve_places.specs.Spread.{token_spelling, spread_text, token_on};

use octets::Octets;
use sieve_lex::Token;
use std::alloc::{AllocError, Global};

/// How a token is spelled in the text.
fn spelled<'a>(text: &'a [u8], token: &Token<'_>) -> &'a [u8]
    requires { IsPlaced text.now token.now }
    ensures { result.now ≡ token_spelling text.now token.now }
{
    let (_, ahead) = text.split_at(token.start);
    let (octets, _) = ahead.split_at(token.end - token.start);
    octets
}

/// The tokens of the text, each after an LF, with nothing else between them.
///
/// It is a script with the same tokens; a fault that is found after some of them is found after the same ones, so its line tells
/// how many. Time and memory are linear in the text.
pub(crate) fn spread(alloc: Global, text: &[u8], tokens: &[Token<'_>]) -> Result<Octets, AllocError>
    requires { All (IsPlaced text.now) tokens.now }
    ensures { IfOk result (λ out. out ≡ spread_text text.now tokens.now) }
{
    let mut out = Octets::new(alloc);
    for token in tokens {
        out.push(b'\n')?;
        out.extend_from_slice(spelled(text, token))?;
    }
    Ok(out)
}

/// The index of the token that begins on this line of the spread text.
pub(crate) fn index_on(text: &[u8], tokens: &[Token<'_>], line: u64) -> Option<usize>
    requires placed { All (IsPlaced text.now) tokens.now }
    requires small { line ≤ 2 ^ 63 }
    ensures value { result ≡ token_on text.now line tokens.now }
    ensures within { IfSome result (λ index. index < length tokens.now) }
{
    let mut before: u64 = 1;
    for (index, token) in tokens.iter().enumerate() {
        if line <= before {
            return None;
        }
        if before + 1 == line {
            return Some(index);
        }
        before += 1 + line_feeds(spelled(text, token));
    }
    None
}

/// How many LFs there are.
fn line_feeds(octets: &[u8]) -> u64
    ensures value { result ≡ line_ends octets.now }
    ensures bound { result < 2 ^ 63 }
{
    octets.iter().filter(|octet| **octet == b'\n').count() as u64
}
