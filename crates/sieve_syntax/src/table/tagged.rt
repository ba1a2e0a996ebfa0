//! The values after tags (RFC 5228, 2.6.2).
ghost use Rattle.std.specs.Prelude.{◌≡◌, ℕ, List, ◌∷◌, IfOk, Some, None};
ghost use Rattle.sieve_syntax.specs.declared.parser.argument.Argument.{Argument};
ghost use Rattle.sieve_syntax.specs.declared.parser.argument.Argument.TheVariants as A;
ghost use Rattle.sieve_syntax.specs.Parsing.{IfParseFault};
ghost use Rattle.sieve_syntax.specs.Tags.{strings_of};

use crate::error::ParseError;
use crate::parser::argument::Argument;
use octets::{Octets, Texts};
use sieve_lex::{FaultKind, Said};
use std::alloc::{AllocError, Global};

/// The first argument, and what follows it.
pub(crate) fn value_at<'a, 't>(
    args: &'a [Argument<'t>],
) -> Result<(&'a Argument<'t>, &'a [Argument<'t>]), ParseError>
    ensures found { IfOk result (λ r. args.now ≡ r.0.now ∷ r.1.now) }
    ensures fault { IfParseFault result ((a : Argument) (to : List Argument) → args.now ≡ a ∷ to → ⊥) }
{
    match args.split_first() {
        Some((value, rest)) => Ok((value, rest)),
        None => Err(ParseError::Fault(FaultKind::MissingArgument)),
    }
}

/// A number.
pub(crate) fn number_at<'a, 't>(
    args: &'a [Argument<'t>],
) -> Result<(u64, &'a [Argument<'t>]), ParseError>
    ensures found { IfOk result (λ r. args.now ≡ A.Number r.0 ∷ r.1.now) }
    ensures fault { IfParseFault result ((n : ℕ) (to : List Argument) → args.now ≡ A.Number n ∷ to → ⊥) }
{
    let (value, rest) = value_at(args)?;
    match value {
        Argument::Number(number) => Ok((*number, rest)),
        _ => Err(ParseError::Fault(FaultKind::WrongArgument)),
    }
}

/// One string without brackets.
pub(crate) fn text_at<'a, 't>(
    alloc: Global,
    args: &'a [Argument<'t>],
) -> Result<(Octets, &'a [Argument<'t>]), ParseError>
    ensures found { IfOk result (λ r. args.now ≡ A.Text r.0 ∷ r.1.now) }
    ensures fault { IfParseFault result ((s : List ℕ) (to : List Argument) → args.now ≡ A.Text s ∷ to → ⊥) }
{
    let (value, rest) = value_at(args)?;
    match value {
        Argument::Text(string) => Ok((string.to_octets(alloc)?, rest)),
        _ => Err(ParseError::Fault(FaultKind::WrongArgument)),
    }
}

/// A string, or strings in brackets.
pub(crate) fn texts_at<'a, 't>(
    alloc: Global,
    args: &'a [Argument<'t>],
) -> Result<(Texts, &'a [Argument<'t>]), ParseError>
    ensures found { IfOk result (λ r. (a : Argument) × ((args.now ≡ a ∷ r.1.now) × (strings_of a ≡ Some r.0))) }
    ensures fault { IfParseFault result ((a : Argument) (xs : List (List ℕ)) (to : List Argument) → args.now ≡ a ∷ to → strings_of a ≡ Some xs → ⊥) }
{
    let (value, rest) = value_at(args)?;
    Ok((strings(alloc, value)?, rest))
}

/// The strings of an argument: a string stands for the list that has only it (RFC 5228, 2.4.2.1).
pub(crate) fn strings(alloc: Global, value: &Argument<'_>) -> Result<Texts, ParseError>
    ensures found { IfOk result (λ xs. strings_of value.now ≡ Some xs) }
    ensures fault { IfParseFault result (strings_of value.now ≡ None) }
{
    match value {
        Argument::Text(string) => {
            let mut strings = Texts::from_vec(Vec::with_capacity(alloc, 1)?);
            strings.push(string.to_octets(alloc)?)?;
            Ok(strings)
        }
        Argument::Strings(strings) => Ok(copies(alloc, strings.as_slice())?),
        _ => Err(ParseError::Fault(FaultKind::WrongArgument)),
    }
}

/// Copies each string, in order.
fn copies(alloc: Global, strings: &[Said<'_>]) -> Result<Texts, AllocError>
    ensures { IfOk result (λ copies. copies ≡ strings.now) }
{
    let mut copies = Texts::from_vec(Vec::with_capacity(alloc, strings.len())?);
    for string in strings {
        copies.push(string.to_octets(alloc)?)?;
    }
    Ok(copies)
}
