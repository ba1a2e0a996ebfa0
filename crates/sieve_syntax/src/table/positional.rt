//! Positional arguments.
ghost use Rattle.std.specs.Prelude.{◌≡◌, [], IfOk, OnOk, Some, None};
ghost use Rattle.sieve_syntax.specs.Parsing.{IfParseFault, FindsValue};
ghost use Rattle.sieve_syntax.specs.Positional.{one_number, one_text, one_list, two_lists, string_of, text_and_list, two_texts_and_list};
ghost use Rattle.sieve_syntax.specs.Rows.{IsList};

use crate::error::ParseError;
use crate::parser::argument::Argument;
use crate::table::tag_group::split_tags;
use crate::table::tagged::strings;
use octets::{Octets, Texts};
use sieve_lex::FaultKind;
use std::alloc::Global;

/// No arguments at all.
pub(crate) fn no_arguments(args: &[Argument<'_>]) -> Result<(), ParseError>
    ensures found { OnOk result (args.now ≡ []) }
    ensures fault { IfParseFault result (args.now ≡ [] → ⊥) }
{
    match args.first() {
        None => Ok(()),
        Some(Argument::Tag(_)) => Err(ParseError::Fault(FaultKind::UnknownTag)),
        Some(_) => Err(ParseError::Fault(FaultKind::ExtraArgument)),
    }
}

/// One number.
pub(crate) fn number(args: &[Argument<'_>]) -> Result<u64, ParseError>
    ensures found { IfOk result (λ n. one_number args.now ≡ Some n) }
    ensures fault { IfParseFault result (one_number args.now ≡ None) }
{
    match args {
        [value] => match value {
            Argument::Number(number) => Ok(*number),
            _ => Err(ParseError::Fault(FaultKind::WrongArgument)),
        },
        _ => Err(ParseError::Fault(count_fault(args, 1))),
    }
}

/// One string without brackets.
pub(crate) fn text(alloc: Global, args: &[Argument<'_>]) -> Result<Octets, ParseError>
    ensures found { IfOk result (λ s. one_text args.now ≡ Some s) }
    ensures fault { IfParseFault result (one_text args.now ≡ None) }
{
    match args {
        [value] => match value {
            Argument::Text(string) => Ok(string.to_octets(alloc)?),
            _ => Err(ParseError::Fault(FaultKind::WrongArgument)),
        },
        _ => Err(ParseError::Fault(count_fault(args, 1))),
    }
}

/// One list of strings.
pub(crate) fn list(alloc: Global, args: &[Argument<'_>]) -> Result<Texts, ParseError>
    ensures found { IfOk result (λ xs. one_list args.now ≡ Some xs) }
    ensures fault { IfParseFault result (one_list args.now ≡ None) }
{
    match args {
        [value] => Ok(strings(alloc, value)?),
        _ => Err(ParseError::Fault(count_fault(args, 1))),
    }
}

/// Reads the names of `require`, the fields of `exists`, or the flags of `setflag`.
pub(crate) fn read_list(alloc: Global, args: &[Argument<'_>]) -> Result<Texts, ParseError>
    ensures { FindsValue (IsList args.now) result }
{
    let (_tag_values, positional) = split_tags(alloc, args, &[])?;
    list(alloc, positional)
}

/// Two lists of strings.
pub(crate) fn lists(alloc: Global, args: &[Argument<'_>]) -> Result<(Texts, Texts), ParseError>
    ensures found { IfOk result (λ both. two_lists args.now ≡ Some (both.0, both.1)) }
    ensures fault { IfParseFault result (two_lists args.now ≡ None) }
{
    match args {
        [first, second] => {
            let one = strings(alloc, first)?;
            let two = strings(alloc, second)?;
            Ok((one, two))
        }
        _ => Err(ParseError::Fault(count_fault(args, 2))),
    }
}

/// One string without brackets, and a list of strings.
pub(crate) fn text_and_list(
    alloc: Global,
    args: &[Argument<'_>],
) -> Result<(Octets, Texts), ParseError>
    ensures found { IfOk result (λ both. text_and_list args.now ≡ Some (both.0, both.1)) }
    ensures fault { IfParseFault result (text_and_list args.now ≡ None) }
{
    match args {
        [first, second] => {
            let text = text_in(alloc, first)?;
            let keys = strings(alloc, second)?;
            Ok((text, keys))
        }
        _ => Err(ParseError::Fault(count_fault(args, 2))),
    }
}

/// Two strings without brackets, and a list of strings.
pub(crate) fn two_texts_and_list(
    alloc: Global,
    args: &[Argument<'_>],
) -> Result<(Octets, Octets, Texts), ParseError>
    ensures found { IfOk result (λ all. two_texts_and_list args.now ≡ Some (all.0, (all.1, all.2))) }
    ensures fault { IfParseFault result (two_texts_and_list args.now ≡ None) }
{
    match args {
        [first, second, third] => {
            let one = text_in(alloc, first)?;
            let two = text_in(alloc, second)?;
            let keys = strings(alloc, third)?;
            Ok((one, two, keys))
        }
        _ => Err(ParseError::Fault(count_fault(args, 3))),
    }
}

/// The string of an argument without brackets.
fn text_in(alloc: Global, value: &Argument<'_>) -> Result<Octets, ParseError>
    ensures found { IfOk result (λ s. string_of value.now ≡ Some s) }
    ensures fault { IfParseFault result (string_of value.now ≡ None) }
{
    match value {
        Argument::Text(string) => Ok(string.to_octets(alloc)?),
        _ => Err(ParseError::Fault(FaultKind::WrongArgument)),
    }
}

/// Why these positional arguments are not those expected: their number, or otherwise their form.
fn count_fault(args: &[Argument<'_>], wanted: usize) -> FaultKind {
    if args.len() < wanted {
        FaultKind::MissingArgument
    } else if args.len() > wanted {
        FaultKind::ExtraArgument
    } else {
        FaultKind::WrongArgument
    }
}
