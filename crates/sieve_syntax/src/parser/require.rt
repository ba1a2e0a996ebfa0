//! The requires at the beginning of a script, and a whole script (RFC 5228, 3.2).
ghost use Rattle.std.specs.Prelude.{◌≡◌, ◌∷◌, IfOk, MatchBool, map};
ghost use Rattle.sieve_syntax.specs.declared.table.keyword.Keyword.TheVariants as W;
ghost use Rattle.sieve_syntax.specs.Lexemes.{keyword};
ghost use Rattle.sieve_syntax.specs.Parsing.{IfParseFault, Parses, StandsNowhere};
ghost use Rattle.sieve_syntax.specs.Tree.{Commands, require};
ghost use Rattle.sieve_syntax.specs.View.{command_view, commands_view};
ghost use Rattle.sieve_syntax.specs.Capabilities.{granted_by};
ghost use Rattle.sieve_syntax.specs.Valid.{IsValid};
ghost use Rattle.sieve_syntax.specs.Grammar.{IsStatement, ReadsScript};
ghost use Rattle.sieve_syntax.specs.Steps.{TakesRequires, ReadsRequires, ReadsRequiresAlone, IsPastRequires};

use crate::capability::Capabilities;
use crate::error::ParseError;
use crate::parser::argument::read_arguments;
use crate::parser::command_parser::read_commands;
use crate::parser::lexeme::Lexeme;
use crate::parser::reader::Reader;
use crate::table::keyword::Keyword;
use crate::table::positional::read_list;
use crate::tree::command::Command;
use octets::Texts;
use sieve_lex::Mark;
use std::alloc::Global;

/// How deep blocks may be nested: it bounds the stack of the check.
const MAX_BLOCKS: usize = 32;

/// Reads the commands of a whole script.
pub(crate) fn read_script(
    alloc: Global,
    reader: &mut Reader<'_>,
) -> Result<Vec<Command>, ParseError>
    ensures found { IfOk result (λ all. ReadsScript (commands_view all.items) reader.old × IsValid (commands_view all.items)) }
    ensures only { IfOk result (λ all. (tree : Commands) → ReadsScript tree reader.old → IsValid tree → tree ≡ commands_view all.items) }
    ensures fault { IfParseFault result ((tree : Commands) → ReadsScript tree reader.old → IsValid tree → ⊥) }
{
    let (opening, granted) = read_requires(alloc, reader)?;
    let commands = read_commands(alloc, reader, &granted, MAX_BLOCKS, opening)?;
    reader.read_end()?;
    Ok(commands)
}

/// Reads the requires that come next, and returns what they grant.
fn read_requires(
    alloc: Global,
    reader: &mut Reader<'_>,
) -> Result<(Vec<Command>, Capabilities), ParseError>
    ensures found { IfOk result (λ r. ReadsRequires (map command_view r.0.items) (granted_by r.1) reader.old reader.new) }
    ensures only { IfOk result (λ r. ReadsRequiresAlone (map command_view r.0.items) (granted_by r.1) reader.old reader.new) }
    ensures fault { IfParseFault result (StandsNowhere TakesRequires reader.old) }
{
    let mut found = Vec::new(alloc);
    let mut granted = Capabilities::none(alloc);
    'found: while take_require(reader) {
        let names = read_names(alloc, reader)?;
        granted.grant(alloc, names.as_slice())?;
        found.push(Command::Require(names))?;
    }
    Ok((found, granted))
}

/// Takes the word `require`, if it is next.
fn take_require(reader: &mut Reader<'_>) -> bool
    ensures { MatchBool result (reader.old ≡ keyword W.Require ∷ reader.new) (IsPastRequires reader.old × (reader.new ≡ reader.old)) }
{
    match reader.first() {
        Some(Lexeme::Keyword(Keyword::Require)) => reader.next().is_some(),
        _ => false,
    }
}

/// Reads the names of a `require`, after its word.
fn read_names(alloc: Global, reader: &mut Reader<'_>) -> Result<Texts, ParseError>
    ensures { Parses (λ names. names) (λ names from to. IsStatement (require names) W.Require from to) reader.old reader.new result }
{
    let args = read_arguments(alloc, reader)?;
    let names = read_list(alloc, args.as_slice())?;
    reader.keep_room(args);
    reader.read_mark(Mark::Semicolon)?;
    Ok(names)
}
