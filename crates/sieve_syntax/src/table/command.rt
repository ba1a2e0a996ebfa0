//! The table of commands without a block: what may follow each name (RFC 5228, 3 and 4; RFC 5230; RFC 5232).
ghost use Rattle.std.specs.Prelude.{◌≡◌, IfOk};
ghost use Rattle.sieve_syntax.specs.Capabilities.{granted_by};
ghost use Rattle.sieve_syntax.specs.Parsing.{IfParseFault, FindsFit};
ghost use Rattle.sieve_syntax.specs.Tree.{CommandTree};
ghost use Rattle.sieve_syntax.specs.View.{command_view};
ghost use Rattle.sieve_syntax.specs.Table.{IsPlainCommand, IsKeep, IsRedirect};
ghost use Rattle.sieve_syntax.specs.Valid.{MayAct, MayStand};
ghost use Rattle.sieve_syntax.specs.declared.tree.action.Action.TheVariants as D;

use crate::capability::{Capabilities, Capability};
use crate::error::ParseError;
use crate::extension::fileinto::permitted_filing;
use crate::extension::imap4flags::permitted_flags;
use crate::extension::vacation::permitted_vacation;
use crate::parser::argument::Argument;
use crate::table::keep::read_keep;
use crate::table::keyword::Keyword;
use crate::table::positional::no_arguments;
use crate::table::redirect::read_redirect;
use crate::tree::action::{Action, Redirect};
use crate::tree::command::Command;
use octets::Texts;
use sieve_lex::FaultKind;
use std::alloc::Global;

/// The command of this word and these arguments, if it is permitted.
pub(crate) fn plain_command(
    alloc: Global,
    keyword: Keyword,
    args: &[Argument<'_>],
    granted: &Capabilities,
) -> Result<Command, ParseError>
    ensures found { IfOk result (λ c. IsPlainCommand keyword args.now (command_view c) × MayStand (granted_by granted.now) (command_view c)) }
    ensures only { IfOk result (λ c. (other : CommandTree) → IsPlainCommand keyword args.now other → other ≡ command_view c) }
    ensures fault { IfParseFault result ((other : CommandTree) → IsPlainCommand keyword args.now other → MayStand (granted_by granted.now) other → ⊥) }
{
    match keyword {
        // Syntax: stop (RFC 5228, 3.3)
        Keyword::Stop => {
            no_arguments(args)?;
            Ok(Command::Stop)
        }
        // Syntax: keep [":flags" <list-of-flags: string-list>]; `:flags` requires `imap4flags` (RFC 5228, 4.3; RFC 5232, 5)
        Keyword::Keep => {
            let given = permitted_keep(alloc, args, granted)?;
            Ok(Command::Act(Action::Keep(given)))
        }
        // Syntax: discard (RFC 5228, 4.4)
        Keyword::Discard => {
            no_arguments(args)?;
            Ok(Command::Act(Action::Discard))
        }
        Keyword::FileInto => {
            let filing = permitted_filing(alloc, args, granted)?;
            Ok(Command::Act(Action::FileInto(filing)))
        }
        // Syntax: redirect [":copy"] <address: string>; `:copy` requires `copy` (RFC 5228, 4.2; RFC 3894)
        Keyword::Redirect => {
            let redirect = permitted_redirect(alloc, args, granted)?;
            Ok(Command::Act(Action::Redirect(redirect)))
        }
        Keyword::Vacation => {
            let vacation = permitted_vacation(alloc, args, granted)?;
            Ok(Command::Act(Action::Vacation(vacation)))
        }
        Keyword::SetFlag => {
            let texts = permitted_flags(alloc, args, granted)?;
            Ok(Command::Act(Action::SetFlag(texts)))
        }
        Keyword::AddFlag => {
            let texts = permitted_flags(alloc, args, granted)?;
            Ok(Command::Act(Action::AddFlag(texts)))
        }
        Keyword::RemoveFlag => {
            let texts = permitted_flags(alloc, args, granted)?;
            Ok(Command::Act(Action::RemoveFlag(texts)))
        }
        Keyword::Require => Err(ParseError::Fault(FaultKind::LateRequire)),
        Keyword::Elsif => Err(ParseError::Fault(FaultKind::StrayElse)),
        Keyword::Else => Err(ParseError::Fault(FaultKind::StrayElse)),
        _ => Err(ParseError::Fault(FaultKind::UnknownCommand)),
    }
}

/// The texts of `:flags` of `keep`; a fault if `imap4flags` isn't required.
fn permitted_keep(
    alloc: Global,
    args: &[Argument<'_>],
    granted: &Capabilities,
) -> Result<Option<Texts>, ParseError>
    ensures { FindsFit (IsKeep args.now) (λ given. MayAct (granted_by granted.now) (D.Keep given)) result }
{
    let given = read_keep(alloc, args)?;
    granted.require_if(given.is_some(), Capability::Imap4flags)?;
    Ok(given)
}

/// The arguments of `redirect`, if it is permitted.
fn permitted_redirect(
    alloc: Global,
    args: &[Argument<'_>],
    granted: &Capabilities,
) -> Result<Redirect, ParseError>
    ensures { FindsFit (IsRedirect args.now) (λ redirect. MayAct (granted_by granted.now) (D.Redirect redirect)) result }
{
    let redirect = read_redirect(alloc, args)?;
    granted.require_if(redirect.copy, Capability::Copy)?;
    Ok(redirect)
}
