//! The token at which a fault is.
ghost use Rattle.std.specs.Prelude.{◌≡◌, ◌+◌, ◌^◌, ◌<◌, length, IfSome, count_by, option_map, position};
ghost use Rattle.sieve_places.specs.declared.pick.TokenClass.TheVariants.{Tag};
ghost use Rattle.sieve_places.specs.Picks.{is_of_class, is_unknown_name, last_index, only_tag as only_tag_in, pick_at, argument_or_name, picked};

use sieve_lex::{Content, FaultKind, Token};
use sieve_syntax::Capability;

/// A token at which a fault is.
#[derive(Clone, Copy)]
pub(crate) struct PickedToken {
    /// Its index among the tokens.
    pub(crate) index: usize,
    /// Whether the fault is this word itself; else the word is where it is.
    pub(crate) is_exact: bool,
}

/// What a token is.
#[derive(Clone, Copy)]
pub(crate) enum TokenClass {
    Name,
    Tag,
    String,
}

/// Whether a token is of this class.
fn is_of(token: &Token<'_>, class: TokenClass) -> bool
    ensures { result ≡ is_of_class class token.now }
{
    match class {
        TokenClass::Name => matches!(token.content, Content::Identifier(_)),
        TokenClass::Tag => matches!(token.content, Content::Tag(_)),
        TokenClass::String => matches!(token.content, Content::Text(_)),
    }
}

/// Whether a token is a string that names no capability.
fn is_unknown(token: &Token<'_>) -> bool
    ensures { result ≡ is_unknown_name token.now }
{
    match &token.content {
        Content::Text(name) => Capability::named(name.as_slice()).is_none(),
        _ => false,
    }
}

/// The index of the last token of this class.
fn last_of(tokens: &[Token<'_>], class: TokenClass) -> Option<usize>
    ensures value { result ≡ last_index class tokens.now }
    ensures within { IfSome result (λ index. index < length tokens.now) }
{
    let mut found = None;
    for (index, token) in tokens.iter().enumerate() {
        if is_of(token, class) {
            found = Some(index);
        }
    }
    found
}

/// The index of the only tag, if there is only one.
fn only_tag(tokens: &[Token<'_>]) -> Option<usize>
    ensures value { result ≡ only_tag_in tokens.now }
    ensures within { IfSome result (λ index. index < length tokens.now) }
{
    if tag_count(tokens) == 1 {
        first_tag(tokens)
    } else {
        None
    }
}

/// How many tags there are.
fn tag_count(tokens: &[Token<'_>]) -> usize
    ensures { result ≡ count_by (is_of_class Tag) tokens.now }
{
    tokens
        .iter()
        .filter(|token| is_of(token, TokenClass::Tag))
        .count()
}

/// The index of the first tag.
fn first_tag(tokens: &[Token<'_>]) -> Option<usize>
    ensures value { result ≡ position (is_of_class Tag) tokens.now }
    ensures within { IfSome result (λ index. index < length tokens.now) }
{
    tokens
        .iter()
        .position(|token| is_of(token, TokenClass::Tag))
}

/// The index of the first string that names no capability.
fn first_unknown(tokens: &[Token<'_>]) -> Option<usize>
    ensures value { result ≡ position is_unknown_name tokens.now }
    ensures within { IfSome result (λ index. index < length tokens.now) }
{
    tokens.iter().position(|token| is_unknown(token))
}

/// The token at which a fault of this kind is, given those that were read, of which the last is the last one that the check read.
/// Whether others follow says if the fault may be at the text's end.
#[tactic(auto, unfolding(crate::specs::Picks::pick_at))]
pub(crate) fn pick(kind: FaultKind, read: &[Token<'_>], follows: bool) -> Option<PickedToken>
    ensures { result ≡ pick_at kind read.now follows }
{
    match kind {
        FaultKind::Unexpected => Some(PickedToken {
            index: read.len().saturating_sub(1),
            is_exact: follows,
        }),
        FaultKind::UnknownCommand
        | FaultKind::UnknownTest
        | FaultKind::LateRequire
        | FaultKind::StrayElse => at(last_of(read, TokenClass::Name), true),
        FaultKind::BadMailbox | FaultKind::BadCharacter => {
            at(last_of(read, TokenClass::String), true)
        }
        FaultKind::UnknownCapability => {
            let name = last_of(read, TokenClass::Name)?;
            let (_, args) = read.split_at(name + 1);
            Some(argument_or(name, first_unknown(args)))
        }
        FaultKind::UnknownTag | FaultKind::DoubleTag => {
            let name = last_of(read, TokenClass::Name)?;
            let (_, args) = read.split_at(name + 1);
            Some(argument_or(name, only_tag(args)))
        }
        _ => at(last_of(read, TokenClass::Name), false),
    }
}

/// This token, if there is one.
fn at(index: Option<usize>, is_exact: bool) -> Option<PickedToken>
    ensures { result ≡ option_map (picked is_exact) index }
{
    let index = index?;
    Some(PickedToken { index, is_exact })
}

/// The argument of the command or test with the name, if there is one; else the name.
fn argument_or(name: usize, argument: Option<usize>) -> PickedToken
    requires { IfSome argument (λ index. name + 1 + index < 2 ^ 64) }
    ensures { result ≡ argument_or_name name argument }
{
    match argument {
        Some(index) => PickedToken {
            index: name + 1 + index,
            is_exact: true,
        },
        None => PickedToken {
            index: name,
            is_exact: false,
        },
    }
}
