//! The addresses that a script names (RFC 5228, 2.4.2.3), and the arguments of `redirect`.
ghost use Rattle.std.specs.Prelude.{◌≡◌, ℕ, List, Some, IfOk, IfSome};
ghost use Rattle.mail_address.specs.declared.address.Addr.{Addr};
ghost use Rattle.sieve_syntax.specs.Parsing.{IfParseFault, FindsValue};
ghost use Rattle.sieve_syntax.specs.Table.{IsRedirect, SaysRedirect};
ghost use Rattle.sieve_syntax.specs.NamedAddresses.{IsNamedAs};

use crate::error::ParseError;
use crate::extension::copy::given_copy;
use crate::parser::argument::Argument;
use crate::table::positional::text;
use crate::table::tag_group::{TagGroup, TagValue, split_tags};
use crate::table::utf8::is_utf8;
use crate::tree::action::Redirect;
use mail_address::{Addr, sieve_address};
use octets::Octets;
use sieve_lex::FaultKind;
use std::alloc::{AllocError, Global};

/// Reads the arguments of `redirect`.
pub(crate) fn read_redirect(alloc: Global, args: &[Argument<'_>]) -> Result<Redirect, ParseError>
    ensures { FindsValue (IsRedirect args.now) result }
{
    let (tag_values, positional) = split_tags(alloc, args, &[TagGroup::Copy])?;
    redirect_from(alloc, tag_values.as_slice(), positional)
}

fn redirect_from(
    alloc: Global,
    tag_values: &[TagValue],
    positional: &[Argument<'_>],
) -> Result<Redirect, ParseError>
    ensures { FindsValue (SaysRedirect tag_values.now positional.now) result }
{
    let text = text(alloc, positional)?;
    let (_display, target) = outbound(alloc, text.as_slice())?;
    Ok(Redirect {
        target,
        copy: given_copy(tag_values),
    })
}

/// The display name and the address that a text names; a fault if it names none.
pub(crate) fn outbound(alloc: Global, text: &[u8]) -> Result<(Octets, Addr), ParseError>
    ensures found { IfOk result (λ r. IsNamedAs text.now r.0 r.1) }
    ensures fault { IfParseFault result ((display : List ℕ) (address : Addr) → IsNamedAs text.now display address → ⊥) }
{
    match named_address(alloc, text)? {
        Some(found) => Ok(found),
        None => Err(ParseError::Fault(FaultKind::BadAddress)),
    }
}

/// The display name and the address that a text names, if it names one.
pub(crate) fn named_address(
    alloc: Global,
    text: &[u8],
) -> Result<Option<(Octets, Addr)>, AllocError>
    ensures found { IfOk result (λ found. IfSome found (λ r. IsNamedAs text.now r.0 r.1)) }
    ensures only { IfOk result (λ found. (display : List ℕ) (address : Addr) → IsNamedAs text.now display address → found ≡ Some (display, address)) }
{
    if !is_utf8(text) {
        return Ok(None);
    }
    sieve_address(alloc, text)
}
