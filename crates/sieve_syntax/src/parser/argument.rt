//! Arguments, as the grammar alone has them (RFC 5228, 8.2).
ghost use Rattle.std.specs.Prelude.{◌≡◌, ℕ, List, ◌∷◌, Result, Ok, Some, None, MatchBool, MatchOption, IfOk, true, false};
ghost use Rattle.sieve_lex.specs.declared.token.Mark.TheVariants as K;
ghost use Rattle.sieve_lex.specs.Encoded.{decoded};
ghost use Rattle.sieve_syntax.specs.Lexemes.{Lexemes, text, mark};
ghost use Rattle.sieve_syntax.specs.Parsing.{IfParseFault, Parses, ParsesMore, StandsAlone, StandsNowhere, Closed};
ghost use Rattle.sieve_syntax.specs.Chains.{Chain};

use crate::error::ParseError;
use crate::parser::lexeme::Lexeme;
use crate::parser::reader::Reader;
use crate::table::tag::Tag;
use octets::{List, Octets};
use sieve_lex::{FaultKind, Mark, Said, decode};
use std::alloc::Global;

/// Room for this many strings is reserved when a list begins: most lists have no more, and the room is freed with the argument.
const LIST_ROOM: usize = 4;

/// An argument of a command or a test. What a string says isn't copied if the script spells it as it is.
#[derive(Drop)]
pub enum Argument<'a> {
    /// A tag.
    Tag(Tag),
    /// A number, including its multiplier.
    Number(u64),
    /// One string without brackets.
    Text(Said<'a>),
    /// One or more strings in brackets.
    Strings(List<Said<'a>>),
}

ghost use Rattle.sieve_syntax.specs.Arguments.{IsOther, AreStrings, IsArgument, IsArgumentsEnd, AreArguments};

/// Reads all the arguments that come next. Their room is the reader's, which gets it back by [`Reader::keep_room`].
pub(crate) fn read_arguments<'a>(
    alloc: Global,
    reader: &mut Reader<'a>,
) -> Result<Vec<Argument<'a>>, ParseError>
    ensures { Parses (λ v. v.items) AreArguments reader.old reader.new result }
{
    let mut arguments = reader.take_room(alloc);
    'arguments: while let Some(argument) = read_argument(alloc, reader)? {
        arguments.push(argument)?;
    }
    Ok(arguments)
}

/// Reads the next argument, or `None` if no argument begins here.
fn read_argument<'a>(
    alloc: Global,
    reader: &mut Reader<'a>,
) -> Result<Option<Argument<'a>>, ParseError>
    ensures found { IfOk result (λ o. MatchOption o (IsArgumentsEnd reader.old × (reader.new ≡ reader.old)) (λ a. IsArgument a reader.old reader.new)) }
    ensures only { IfOk result (λ o. MatchOption o (Unit {0}) (λ a. StandsAlone IsArgument a reader.old reader.new)) }
    ensures begun { IfParseFault result (IsArgumentsEnd reader.old → ⊥) }
    ensures fault { IfParseFault result (StandsNowhere IsArgument reader.old) }
{
    if !begins_argument(reader) {
        return Ok(None);
    }
    let Some(lexeme) = reader.next() else {
        return Ok(None);
    };
    match lexeme {
        Lexeme::Tag(tag) => { Ok(Some(Argument::Tag(tag))) }
        Lexeme::Number(number) => { Ok(Some(Argument::Number(number))) }
        Lexeme::Text(string) => { Ok(Some(Argument::Text(Said::in_text(string)))) }
        Lexeme::Encoded(written) => {
            Ok(Some(Argument::Text(Said::apart(read_encoded(alloc, written)?))))
        }
        Lexeme::Mark(Mark::OpenBracket) => {
            Ok(Some(Argument::Strings(read_strings(alloc, reader)?)))
        }
        _ => Ok(None),
    }
}

/// Whether an argument begins here.
fn begins_argument(reader: &Reader<'_>) -> bool
    ensures { MatchBool result (IsArgumentsEnd reader.now → ⊥) (IsArgumentsEnd reader.now) }
{
    match reader.first() {
        None | Some(Lexeme::Keyword(_)) => false,
        Some(Lexeme::Mark(mark)) => mark == Mark::OpenBracket,
        Some(_) => true,
    }
}

/// Reads the strings of a list, after its open bracket.
fn read_strings<'a>(alloc: Global, reader: &mut Reader<'a>) -> Result<List<Said<'a>>, ParseError>
    ensures { Parses (λ strings. strings) AreStrings reader.old reader.new result }
{
    let mut strings = List::from_vec(Vec::with_capacity(alloc, LIST_ROOM)?);
    strings.push(read_text(alloc, reader)?)?;
    read_others(alloc, reader, strings)
}

/// Reads the other strings of a list, and its close bracket.
fn read_others<'a>(
    alloc: Global,
    reader: &mut Reader<'a>,
    strings: List<Said<'a>>,
) -> Result<List<Said<'a>>, ParseError>
    ensures { ParsesMore (λ all. all) (Closed K.CloseBracket (Chain IsOther)) strings.entry reader.old reader.new result }
{
    let mut strings = strings;
    'others: while read_separator(reader, Mark::CloseBracket)? {
        strings.push(read_text(alloc, reader)?)?;
    }
    Ok(strings)
}

/// Reads a separator: whether it is a comma, or this closing mark.
pub(crate) fn read_separator(reader: &mut Reader<'_>, close: Mark) -> Result<bool, ParseError>
    ensures comma { result ≡ Ok true → reader.old ≡ mark K.Comma ∷ reader.new }
    ensures closed { result ≡ Ok false → reader.old ≡ mark close ∷ reader.new }
    ensures no_comma { IfParseFault result ((to : Lexemes) → reader.old ≡ mark K.Comma ∷ to → ⊥) }
    ensures no_close { IfParseFault result ((to : Lexemes) → reader.old ≡ mark close ∷ to → ⊥) }
{
    let Some(lexeme) = reader.next() else {
        return Err(ParseError::Fault(FaultKind::Unexpected));
    };
    match lexeme {
        Lexeme::Mark(mark) if mark == Mark::Comma => Ok(true),
        Lexeme::Mark(mark) if mark == close => Ok(false),
        _ => Err(ParseError::Fault(FaultKind::Unexpected)),
    }
}

/// Reads a string without brackets.
fn read_text<'a>(alloc: Global, reader: &mut Reader<'a>) -> Result<Said<'a>, ParseError>
    ensures found { IfOk result (λ string. reader.old ≡ text string ∷ reader.new) }
    ensures fault { IfParseFault result ((string : List ℕ) (to : Lexemes) → reader.old ≡ text string ∷ to → ⊥) }
{
    let Some(lexeme) = reader.next() else {
        return Err(ParseError::Fault(FaultKind::Unexpected));
    };
    match lexeme {
        Lexeme::Text(string) => Ok(Said::in_text(string)),
        Lexeme::Encoded(written) => Ok(Said::apart(read_encoded(alloc, written)?)),
        _ => Err(ParseError::Fault(FaultKind::Unexpected)),
    }
}

/// Decodes a string (RFC 5228, 2.4.2.4).
fn read_encoded(alloc: Global, written: &[u8]) -> Result<Octets, ParseError>
    ensures found { IfOk result (λ string. decoded written.now ≡ Some string) }
    ensures fault { IfParseFault result (decoded written.now ≡ None) }
{
    match decode(alloc, written)? {
        Some(string) => Ok(string),
        None => Err(ParseError::Fault(FaultKind::BadCharacter)),
    }
}
