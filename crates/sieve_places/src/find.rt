//! The place of a script's fault.
ghost use Rattle.std.specs.Prelude.{◌≡◌, ◌^◌, ◌<◌, ◌≤◌, Some, IfOk, MatchOption, All, length, option_copied, slice_get};
ghost use Rattle.sieve_lex.specs.Spelling.{IsPlaced, SpellsTokens};
ghost use Rattle.sieve_places.specs.Places.{HasNoTokens, IsCheckedAs, IsFaultPlace, IsSpreadPlace, place_after, place_of_token};
ghost use Rattle.sieve_places.specs.Spread.{spread_text};

use crate::column::column_of;
use crate::pick::{PickedToken, pick};
use crate::spread::{index_on, spread};
use crate::words::word_of;
use octets::Octets;
use sieve_lex::{FaultKind, ScriptError, ScriptFault, Token, tokens};
use sieve_syntax::check;
use std::alloc::{AllocError, Global};

/// Where a script's fault is.
#[derive(Drop)]
pub struct FaultPlace {
    /// The line of the word, counted from 1: a line ends at its LF.
    pub line: u64,
    /// The octets before the word on its line, and one.
    pub column: u64,
    /// The word: a name, a tag with its colon, a number's value, what a string stands for, a mark.
    pub word: Octets,
    /// Whether the fault is this word itself. Else it is in the command or the test of this name, or at the end of the text.
    pub is_exact: bool,
}

/// The place of a fault of this kind, which the check of a script found. `None` if the text isn't a list of tokens: then the fault's
/// line is all that is known.
///
/// A fault's line is that of the last token that the check read, and no more is kept of it. So the same tokens are checked again,
/// each on a line of its own: there that line tells the token, and which of those before it is meant is said by the fault's kind
/// ([`pick_at`](crate::pick)). Time and memory are those of the check.
pub fn find_place(
    alloc: Global,
    text: &[u8],
    kind: FaultKind,
) -> Result<Option<FaultPlace>, AllocError>
    ensures { IfOk result (IsFaultPlace text.now kind) }
{
    match read_tokens(alloc, text)? {
        Some(tokens) => place_among(alloc, text, tokens.as_slice(), kind),
        None => Ok(None),
    }
}

/// The tokens of a text, if it is a list of tokens.
fn read_tokens<'a>(alloc: Global, text: &'a [u8]) -> Result<Option<Vec<Token<'a>>>, AllocError>
    ensures { IfOk result (λ found. MatchOption found (HasNoTokens text.now) (λ tokens. SpellsTokens text.now tokens.items)) }
{
    match tokens(alloc, text) {
        Ok(tokens) => Ok(Some(tokens)),
        Err(ScriptError::Memory) => Err(AllocError),
        Err(ScriptError::Fault(_)) => Ok(None),
    }
}

/// The place of a fault of this kind among these tokens of the text.
fn place_among(
    alloc: Global,
    text: &[u8],
    tokens: &[Token<'_>],
    kind: FaultKind,
) -> Result<Option<FaultPlace>, AllocError>
    requires { SpellsTokens text.now tokens.now }
    ensures { IfOk result (IsSpreadPlace text.now kind) }
{
    let lines = spread(alloc, text, tokens)?;
    match verdict_on(alloc, lines.as_slice())? {
        Some(fault) => place_by_fault(alloc, text, tokens, kind, fault),
        None => Ok(None),
    }
}

/// The place of a fault of this kind, if this is the fault of the spread text.
fn place_by_fault(
    alloc: Global,
    text: &[u8],
    tokens: &[Token<'_>],
    kind: FaultKind,
    fault: ScriptFault,
) -> Result<Option<FaultPlace>, AllocError>
    requires written { SpellsTokens text.now tokens.now }
    requires checked { IsCheckedAs (spread_text text.now tokens.now) (Some fault) }
    requires small { fault.line ≤ 2 ^ 63 }
    ensures { IfOk result (IsSpreadPlace text.now kind) }
{
    if fault.kind.number() != kind.number() {
        return Ok(None);
    }
    match index_on(text, tokens, fault.line) {
        Some(index) => place_at(alloc, text, tokens, kind, index),
        None => Ok(None),
    }
}

/// The fault of a script, if it has one.
fn verdict_on(alloc: Global, text: &[u8]) -> Result<Option<ScriptFault>, AllocError>
    ensures { IfOk result (IsCheckedAs text.now) }
{
    match check(alloc, text) {
        Ok(_) => Ok(None),
        Err(ScriptError::Memory) => Err(AllocError),
        Err(ScriptError::Fault(fault)) => Ok(Some(fault)),
    }
}

/// The place of a fault of this kind, if the last token that was read has this index.
fn place_at(
    alloc: Global,
    text: &[u8],
    tokens: &[Token<'_>],
    kind: FaultKind,
    index: usize,
) -> Result<Option<FaultPlace>, AllocError>
    requires placed { All (IsPlaced text.now) tokens.now }
    requires within { index < length tokens.now }
    ensures { IfOk result (λ place. place ≡ place_after text.now tokens.now kind index) }
{
    let (read, behind) = tokens.split_at(index + 1);
    let Some(pick) = pick(kind, read, !behind.is_empty()) else {
        return Ok(None);
    };
    let Some(token) = token_at(tokens, pick.index) else {
        return Ok(None);
    };
    Ok(Some(place_of(alloc, text, token, pick)?))
}

/// The token with this index.
fn token_at<'a, 'b>(tokens: &'a [Token<'b>], index: usize) -> Option<&'a Token<'b>>
    ensures { option_copied result ≡ slice_get tokens.now index }
{
    tokens.get(index)
}

/// The place of a token of the text.
fn place_of(
    alloc: Global,
    text: &[u8],
    token: &Token<'_>,
    pick: PickedToken,
) -> Result<FaultPlace, AllocError>
    requires { IsPlaced text.now token.now }
    ensures { IfOk result (λ place. place ≡ place_of_token text.now pick.is_exact token.now) }
{
    Ok(FaultPlace {
        line: token.line,
        column: column_of(text, token.start),
        word: word_of(alloc, &token.content)?,
        is_exact: pick.is_exact,
    })
}
