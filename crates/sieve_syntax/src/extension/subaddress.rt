//! `subaddress`: the parts of a local part (RFC 5233).
ghost use Rattle.std.specs.Prelude.{◌≡◌, OnOk};
ghost use Rattle.sieve_syntax.specs.Capabilities.{granted_by};
ghost use Rattle.sieve_syntax.specs.Extension.Subaddress.{MayNamePart};
ghost use Rattle.sieve_syntax.specs.Extension.Subaddress as spec;
ghost use Rattle.sieve_syntax.specs.Parsing.{IfParseFault};

use crate::capability::{Capabilities, Capability};
use crate::error::ParseError;
use crate::tree::checks::AddressPart;

/// Returns a fault if this part of an address may not be named.
///
/// Syntax: ADDRESS-PART =/ ":user" / ":detail"; requires `subaddress` (RFC 5233, 4).
pub(crate) fn require_part(granted: &Capabilities, part: AddressPart) -> Result<(), ParseError>
    ensures granted { OnOk result (MayNamePart (granted_by granted.now) part) }
    ensures fault { IfParseFault result (MayNamePart (granted_by granted.now) part → ⊥) }
{
    granted.require_if(is_subaddress(part), Capability::Subaddress)
}

/// Whether it is part of a local part, which only `subaddress` names.
fn is_subaddress(part: AddressPart) -> bool
    ensures { result ≡ spec.is_subaddress part }
{
    matches!(part, AddressPart::User | AddressPart::Detail)
}
