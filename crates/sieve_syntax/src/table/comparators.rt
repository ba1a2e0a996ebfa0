//! How values may be matched: COMPARATOR and MATCH-TYPE (RFC 5228, 2.7).
ghost use Rattle.std.specs.Prelude.{◌≡◌, List, ◌∷◌, IfOk, OnOk};
ghost use Rattle.sieve_syntax.specs.declared.parser.argument.Argument.{Argument};
ghost use Rattle.sieve_syntax.specs.declared.parser.argument.Argument.TheVariants as A;
ghost use Rattle.sieve_syntax.specs.declared.tree.checks.Collation.{Collation};
ghost use Rattle.sieve_syntax.specs.Capabilities.{granted_by};
ghost use Rattle.sieve_syntax.specs.Comparators.{MayMatch};
ghost use Rattle.sieve_syntax.specs.Parsing.{IfParseFault};
ghost use Rattle.sieve_syntax.specs.Tags.{collation_name};

use crate::capability::{Capabilities, Capability};
use crate::error::ParseError;
use crate::extension::numeric::is_numeric;
use crate::extension::relational::is_relational;
use crate::parser::argument::Argument;
use crate::table::tagged::value_at;
use crate::tree::checks::{Collation, Matching};
use sieve_lex::FaultKind;

/// Returns a fault if values may not be matched like this: `relational` and `comparator-i;ascii-numeric` have to be required if they
/// are used (RFC 5231; RFC 5228, 2.7.3), and a number has no parts (RFC 4790, 9.1).
pub(crate) fn require_match(
    granted: &Capabilities,
    comparator: Collation,
    matching: Matching,
) -> Result<(), ParseError>
    ensures granted { OnOk result (MayMatch (granted_by granted.now) comparator matching) }
    ensures fault { IfParseFault result (MayMatch (granted_by granted.now) comparator matching → ⊥) }
{
    granted.require_if(is_relational(matching), Capability::Relational)?;
    granted.require_if(is_numeric(comparator), Capability::AsciiNumeric)?;
    if is_numeric(comparator) && matching.seeks_part() {
        return Err(ParseError::Fault(FaultKind::WrongArgument));
    }
    Ok(())
}

/// The comparator with this name, compared by octets.
pub(crate) fn collation_at<'a, 't>(
    args: &'a [Argument<'t>],
) -> Result<(Collation, &'a [Argument<'t>]), ParseError>
    ensures found { IfOk result (λ r. args.now ≡ A.Text (collation_name r.0) ∷ r.1.now) }
    ensures fault { IfParseFault result ((c : Collation) (to : List Argument) → args.now ≡ A.Text (collation_name c) ∷ to → ⊥) }
{
    let (value, rest) = value_at(args)?;
    match value {
        Argument::Text(name) => Ok((collation_named(name.as_slice())?, rest)),
        _ => Err(ParseError::Fault(FaultKind::WrongArgument)),
    }
}

fn collation_named(name: &[u8]) -> Result<Collation, ParseError>
    ensures found { IfOk result (λ c. name.now ≡ collation_name c) }
    ensures fault { IfParseFault result ((c : Collation) → name.now ≡ collation_name c → ⊥) }
{
    if name == b"i;octet".as_slice() {
        Ok(Collation::Octet)
    } else if name == b"i;ascii-casemap".as_slice() {
        Ok(Collation::AsciiCasemap)
    } else if name == b"i;ascii-numeric".as_slice() {
        Ok(Collation::AsciiNumeric)
    } else {
        Err(ParseError::Fault(FaultKind::NotRequired))
    }
}
