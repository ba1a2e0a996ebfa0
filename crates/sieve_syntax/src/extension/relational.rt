//! `relational`: the match types `:value` and `:count` (RFC 5231).
ghost use Rattle.std.specs.Prelude.{◌≡◌, List, ◌∷◌, IfOk};
ghost use Rattle.sieve_syntax.specs.declared.parser.argument.Argument.{Argument};
ghost use Rattle.sieve_syntax.specs.declared.parser.argument.Argument.TheVariants as A;
ghost use Rattle.sieve_syntax.specs.declared.extension.relational.Relation.{Relation};
ghost use Rattle.sieve_syntax.specs.Extension.Relational.{relation_name};
ghost use Rattle.sieve_syntax.specs.Extension.Relational as spec;
ghost use Rattle.sieve_syntax.specs.Parsing.{IfParseFault};

use crate::error::ParseError;
use crate::parser::argument::Argument;
use crate::table::tagged::value_at;
use crate::tree::checks::Matching;
use sieve_lex::FaultKind;

/// The relation that the left side has to have to the right side in a comparator's order (RFC 5231, 4).
#[derive(Clone, Copy, Debug, PartialEq, Eq)]
pub enum Relation {
    /// `gt`: greater.
    Greater,
    /// `ge`: greater or equal.
    GreaterOrEqual,
    /// `lt`: less.
    Less,
    /// `le`: less or equal.
    LessOrEqual,
    /// `eq`: equal.
    Equal,
    /// `ne`: not equal.
    NotEqual,
}

/// Whether only `relational` has this match type.
///
/// Syntax: MATCH-TYPE =/ ":value" relational-match / ":count" relational-match; requires `relational` (RFC 5231, 4).
pub(crate) fn is_relational(matching: Matching) -> bool
    ensures { result ≡ spec.is_relational matching }
{
    matches!(matching, Matching::Value(_) | Matching::Count(_))
}

/// The relation with this name, compared by octets.
pub(crate) fn relation_at<'a, 't>(
    args: &'a [Argument<'t>],
) -> Result<(Relation, &'a [Argument<'t>]), ParseError>
    ensures found { IfOk result (λ r. args.now ≡ A.Text (relation_name r.0) ∷ r.1.now) }
    ensures fault { IfParseFault result ((relation : Relation) (to : List Argument) → args.now ≡ A.Text (relation_name relation) ∷ to → ⊥) }
{
    let (value, rest) = value_at(args)?;
    match value {
        Argument::Text(name) => Ok((relation_named(name.as_slice())?, rest)),
        _ => Err(ParseError::Fault(FaultKind::WrongArgument)),
    }
}

fn relation_named(name: &[u8]) -> Result<Relation, ParseError>
    ensures found { IfOk result (λ relation. name.now ≡ relation_name relation) }
    ensures fault { IfParseFault result ((relation : Relation) → name.now ≡ relation_name relation → ⊥) }
{
    if name == b"gt".as_slice() {
        Ok(Relation::Greater)
    } else if name == b"ge".as_slice() {
        Ok(Relation::GreaterOrEqual)
    } else if name == b"lt".as_slice() {
        Ok(Relation::Less)
    } else if name == b"le".as_slice() {
        Ok(Relation::LessOrEqual)
    } else if name == b"eq".as_slice() {
        Ok(Relation::Equal)
    } else if name == b"ne".as_slice() {
        Ok(Relation::NotEqual)
    } else {
        Err(ParseError::Fault(FaultKind::WrongArgument))
    }
}
