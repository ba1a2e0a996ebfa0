//! The tokens of a text.
ghost use Rattle.std.specs.Prelude.{◌≡◌, ◌+◌, ◌<◌, ◌≤◌, List, [], Some, length, take, IfOk, MatchOption};
ghost use Rattle.sieve_lex.specs.Finding.{IfFault, IfFaultLine, on_line};
ghost use Rattle.sieve_lex.specs.Spelling.{IsNextToken, IsPlaced, SpellsFrom, SpellsTokens, placed};
ghost use Rattle.sieve_lex.specs.Text.{line_ends};
ghost use Rattle.sieve_lex.specs.declared.token.Token.{Token};

use crate::fault::{FaultKind, ScriptError, ScriptFault};
use crate::front::read_front;
use crate::space::space_len;
use crate::text::{line_feeds, text_fault};
use crate::token::{Content, Token};
use std::alloc::Global;

/// The tokens of a script, in order (RFC 5228, 8.1), each with its position and line.
///
/// Unless memory runs out, a fault is returned exactly if the text isn't a list of tokens; it names the line of
/// the octet at which something that is neither a token nor a comment begins. After a check of the whole text for UTF-8,
/// NUL and lone CRs one pass goes from the beginning to the end, in time linear in the text's length. Only
/// those values of strings are copied that aren't spelled as they are, each once.
pub fn tokens<'a>(alloc: Global, text: &'a [u8]) -> Result<Vec<Token<'a>>, ScriptError>
    ensures found { IfOk result (λ ts. SpellsTokens text.now ts.items) }
    ensures only { IfOk result (λ ts. (us : List Token) → SpellsTokens text.now us → us ≡ ts.items) }
    ensures fault { IfFault result ((ts : List Token) → SpellsTokens text.now ts → ⊥) }
    ensures lines { IfFaultLine result (λ n. (1 ≤ n) × (n ≤ 1 + line_ends text.now)) }
{
    if let Some(fault) = text_fault(text) {
        return Err(ScriptError::Fault(fault));
    }
    read_tokens(alloc, text)
}

/// The tokens of a text that has no bad octet.
fn read_tokens<'a>(alloc: Global, text: &'a [u8]) -> Result<Vec<Token<'a>>, ScriptError>
    ensures found { IfOk result (λ ts. SpellsFrom text.now 0 ts.items) }
    ensures only { IfOk result (λ ts. (us : List Token) → SpellsFrom text.now 0 us → us ≡ ts.items) }
    ensures fault { IfFault result ((ts : List Token) → SpellsFrom text.now 0 ts → ⊥) }
    ensures lines { IfFaultLine result (λ n. (1 ≤ n) × (n ≤ 1 + line_ends text.now)) }
{
    let mut tokens = Vec::new(alloc);
    let mut at = 0;
    let mut line = 1;
    while let Some(token) = next(alloc, text, at, line)? {
        line = end_line(text, &token);
        at = token.end;
        tokens.push(token)?;
    }
    Ok(tokens)
}

/// A token of a text, without its line.
#[derive(Drop)]
pub(crate) struct Piece<'a> {
    /// What it is and says.
    pub(crate) content: Content<'a>,
    /// The index of its first octet in the text, from 0.
    pub(crate) start: usize,
    /// The index after its last octet.
    pub(crate) end: usize,
}

/// The next token from a position of the text on, or `None` if only white space is left.
pub(crate) fn next<'a>(
    alloc: Global,
    text: &'a [u8],
    at: usize,
    line: u64,
) -> Result<Option<Token<'a>>, ScriptError>
    requires inside { at ≤ length text.now }
    requires on_line { line ≡ 1 + line_ends (take at text.now) }
    ensures found { IfOk result (λ o. MatchOption o (SpellsFrom text.now at []) (λ t. IsNextToken text.now at t)) }
    ensures only { IfOk result (λ o. (t : Token) → IsNextToken text.now at t → o ≡ Some t) }
    ensures further { IfOk result (λ o. MatchOption o (Unit {0}) (λ t. (at < t.end) × IsPlaced text.now t)) }
    ensures fault { IfFault result ((ts : List Token) → SpellsFrom text.now at ts → ⊥) }
    ensures lines { IfFaultLine result (λ n. (1 ≤ n) × (n ≤ 1 + line_ends text.now)) }
{
    let Some(piece) = next_piece(alloc, text, at)? else {
        return Ok(None);
    };
    let Piece {
        content,
        start,
        end,
    } = piece;
    let (_, ahead) = text.split_at(at);
    let (gap, _) = ahead.split_at(start - at);
    Ok(Some(Token {
        content,
        start,
        end,
        line: line + line_feeds(gap),
    }))
}

/// The next token without its line: lines are counted when there is a fault, not token by token.
#[inline(always)]
pub(crate) fn next_piece<'a>(
    alloc: Global,
    text: &'a [u8],
    at: usize,
) -> Result<Option<Piece<'a>>, ScriptError>
    requires { at ≤ length text.now }
    ensures found { IfOk result (λ o. MatchOption o (SpellsFrom text.now at []) (λ p. IsNextToken text.now at (placed text.now p))) }
    ensures only { IfOk result (λ o. (t : Token) → IsNextToken text.now at t → MatchOption o ⊥ (λ p. Some (placed text.now p) ≡ Some t)) }
    ensures further { IfOk result (λ o. MatchOption o (Unit {0}) (λ p. (at ≤ p.start) × (p.start ≤ p.end) × (at < p.end) × (p.end ≤ length text.now))) }
    ensures fault { IfFault result ((ts : List Token) → SpellsFrom text.now at ts → ⊥) }
    ensures lines { IfFaultLine result (λ n. (1 ≤ n) × (n ≤ 1 + line_ends text.now)) }
{
    let (_, ahead) = text.split_at(at);
    let white = match space_len(ahead) {
        Ok(white) => white,
        Err(opened) => {
            return Err(ScriptError::Fault(ScriptFault {
                line: line_at(text, at + opened),
                kind: FaultKind::OpenComment,
            }));
        }
    };
    let (_, octets) = ahead.split_at(white);
    if octets.is_empty() {
        return Ok(None);
    }
    let start = at + white;
    match read_front(alloc, octets, 1) {
        Ok(front) => Ok(Some(Piece {
            content: front.content,
            start,
            end: start + front.len,
        })),
        Err(error) => Err(at_line(error, line_at(text, start))),
    }
}

/// The same error; if it is a fault of the script, on this line.
#[cold]
fn at_line(error: ScriptError, line: u64) -> ScriptError
    ensures { result ≡ on_line line error }
{
    match error {
        ScriptError::Memory => ScriptError::Memory,
        ScriptError::Fault(fault) => ScriptError::Fault(ScriptFault {
            line,
            kind: fault.kind,
        }),
    }
}

/// The line of a position of the text.
#[cold]
fn line_at(text: &[u8], place: usize) -> u64
    requires { place ≤ length text.now }
    ensures { result ≡ 1 + line_ends (take place text.now) }
{
    let (before, _) = text.split_at(place);
    1 + line_feeds(before)
}

/// The line on which this token of the text ends.
pub(crate) fn end_line(text: &[u8], token: &Token<'_>) -> u64
    requires { IsPlaced text.now token.now }
    ensures { result ≡ 1 + line_ends (take token.now.end text.now) }
{
    let (_, spelled) = text.split_at(token.start);
    let (spelled, _) = spelled.split_at(token.end - token.start);
    token.line + line_feeds(spelled)
}
