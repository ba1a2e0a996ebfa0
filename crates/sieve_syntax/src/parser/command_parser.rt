//! Commands and blocks, by recursive descent: one pass, and no deeper than blocks may be nested.
ghost use Rattle.std.specs.Prelude.{◌≡◌, ◌↔◌, ◌∷◌, [], IfOk, IsTrue, MatchBool, map};
ghost use Rattle.sieve_syntax.specs.Capabilities.{granted_by};
ghost use Rattle.sieve_syntax.specs.declared.table.keyword.Keyword.TheVariants as W;
ghost use Rattle.sieve_syntax.specs.Lexemes.{keyword};
ghost use Rattle.sieve_syntax.specs.Parsing.{Parses, ParsesMore};
ghost use Rattle.sieve_syntax.specs.Tree.{Commands};
ghost use Rattle.sieve_syntax.specs.View.{branch_view, command_view, commands_view};
ghost use Rattle.sieve_syntax.specs.Steps.{TakesCommand, TakesAfter, TakesBlock, TakesBranch, TakesElsifs, TakesElse, IsPastElsif, IsPastElse, TakesAll, IsStop};

use crate::capability::Capabilities;
use crate::error::ParseError;
use crate::parser::argument::read_arguments;
use crate::parser::lexeme::Lexeme;
use crate::parser::reader::Reader;
use crate::parser::test_parser::read_test;
use crate::table::command::plain_command;
use crate::table::keyword::Keyword;
use crate::tree::command::{Branch, Command};
use crate::tree::test::Test;
use sieve_lex::{FaultKind, Mark};
use std::alloc::{AllocError, Global};

/// At most this many test lists may enclose a test: it bounds the stack of the check.
const MAX_LISTS: usize = 32;

/// At most this many `not`s, counted separately, may enclose a test: it bounds the stack of the check.
const MAX_NOTS: usize = 32;

/// Reads commands after those read so far, up to the close of a block or the end.
#[cycle(parse)]
pub(crate) fn read_commands(
    alloc: Global,
    reader: &mut Reader<'_>,
    granted: &Capabilities,
    room: usize,
    commands: Vec<Command>,
) -> Result<Vec<Command>, ParseError>
    ensures { ParsesMore (λ all. map command_view all.items) (TakesAll (granted_by granted.now) room) (map command_view commands.items) reader.old reader.new result }
{
    let mut commands = commands;
    'commands: while !is_stop(reader) {
        commands.push(read_command(alloc, reader, granted, room)?)?;
    }
    Ok(commands)
}

/// Reads a command that is permitted here. Its blocks are nested no deeper than `room`.
#[cycle(parse)]
fn read_command(
    alloc: Global,
    reader: &mut Reader<'_>,
    granted: &Capabilities,
    room: usize,
) -> Result<Command, ParseError>
    ensures { Parses command_view (TakesCommand (granted_by granted.now) room) reader.old reader.new result }
{
    let name = reader.read_keyword()?;
    match name {
        Keyword::If => read_if(alloc, reader, granted, room),
        _ => read_statement(alloc, reader, granted, room, name),
    }
}

/// Reads an `if`, after its name: a test and a block, each `elsif`, and an `else`.
#[cycle(parse)]
fn read_if(
    alloc: Global,
    reader: &mut Reader<'_>,
    granted: &Capabilities,
    room: usize,
) -> Result<Command, ParseError>
    ensures { Parses command_view (TakesAfter (granted_by granted.now) room W.If) reader.old reader.new result }
{
    let first = read_branch(alloc, reader, granted, room)?;
    let one = vec![in alloc; first]?;
    let branches = read_elsifs(alloc, reader, granted, room, one)?;
    let branches = read_else(alloc, reader, granted, room, branches)?;
    Ok(Command::If(branches))
}

/// Reads a test and a block.
#[cycle(parse)]
fn read_branch(
    alloc: Global,
    reader: &mut Reader<'_>,
    granted: &Capabilities,
    room: usize,
) -> Result<Branch, ParseError>
    ensures { Parses branch_view (TakesBranch (granted_by granted.now) room) reader.old reader.new result }
{
    let test = read_test(alloc, reader, granted, MAX_LISTS, MAX_NOTS)?;
    let block = read_block(alloc, reader, granted, room)?;
    Ok(Branch { test, block })
}

/// Reads each `elsif` after the branches read so far.
#[cycle(parse)]
fn read_elsifs(
    alloc: Global,
    reader: &mut Reader<'_>,
    granted: &Capabilities,
    room: usize,
    branches: Vec<Branch>,
) -> Result<Vec<Branch>, ParseError>
    ensures { ParsesMore (λ all. map branch_view all.items) (TakesElsifs (granted_by granted.now) room) (map branch_view branches.items) reader.old reader.new result }
{
    let mut branches = branches;
    'elsifs: while take_elsif(reader) {
        branches.push(read_branch(alloc, reader, granted, room)?)?;
    }
    Ok(branches)
}

/// Reads the `else` after the branches read so far, if there is one.
#[cycle(parse)]
fn read_else(
    alloc: Global,
    reader: &mut Reader<'_>,
    granted: &Capabilities,
    room: usize,
    branches: Vec<Branch>,
) -> Result<Vec<Branch>, ParseError>
    requires { IsPastElsif reader.old }
    ensures { ParsesMore (λ all. map branch_view all.items) (TakesElse (granted_by granted.now) room) (map branch_view branches.items) reader.old reader.new result }
{
    let mut branches = branches;
    if take_else(reader) {
        let block = read_block(alloc, reader, granted, room)?;
        branches.push(Branch {
            test: Test::True,
            block,
        })?;
    }
    Ok(branches)
}

/// Reads a block that is permitted here.
#[cycle(parse)]
fn read_block(
    alloc: Global,
    reader: &mut Reader<'_>,
    granted: &Capabilities,
    room: usize,
) -> Result<Vec<Command>, ParseError>
    ensures { Parses (λ v. commands_view v.items) (TakesBlock (granted_by granted.now) room) reader.old reader.new result }
{
    reader.read_mark(Mark::OpenBrace)?;
    if room == 0 {
        return Err(ParseError::Fault(FaultKind::TooDeep));
    }
    let none = no_commands(alloc, reader)?;
    let block = read_commands(alloc, reader, granted, room - 1, none)?;
    reader.read_mark(Mark::CloseBrace)?;
    Ok(block)
}

/// No commands yet, with room for one if one follows: most blocks have only one.
fn no_commands(alloc: Global, reader: &Reader<'_>) -> Result<Vec<Command>, AllocError>
    ensures { IfOk result (λ none. none.items ≡ []) }
{
    if is_stop(reader) {
        Ok(Vec::new(alloc))
    } else {
        Vec::with_capacity(alloc, 1)
    }
}

/// Reads a command without a block, after its name.
fn read_statement(
    alloc: Global,
    reader: &mut Reader<'_>,
    granted: &Capabilities,
    room: usize,
    name: Keyword,
) -> Result<Command, ParseError>
    requires { name ≡ W.If → ⊥ }
    ensures { Parses command_view (TakesAfter (granted_by granted.now) room name) reader.old reader.new result }
{
    let args = read_arguments(alloc, reader)?;
    let command = plain_command(alloc, name, args.as_slice(), granted)?;
    reader.keep_room(args);
    reader.read_mark(Mark::Semicolon)?;
    Ok(command)
}

/// Whether commands end here.
fn is_stop(reader: &Reader<'_>) -> bool
    ensures { IsTrue result ↔ IsStop reader.now }
{
    match reader.first() {
        None => true,
        Some(Lexeme::Mark(Mark::CloseBrace)) => true,
        Some(_) => false,
    }
}

/// Takes the word `elsif`, if it is next.
fn take_elsif(reader: &mut Reader<'_>) -> bool
    ensures { MatchBool result (reader.old ≡ keyword W.Elsif ∷ reader.new) (IsPastElsif reader.old × (reader.new ≡ reader.old)) }
{
    match reader.first() {
        Some(Lexeme::Keyword(Keyword::Elsif)) => reader.next().is_some(),
        _ => false,
    }
}

/// Takes the word `else`, if it is next.
fn take_else(reader: &mut Reader<'_>) -> bool
    ensures { MatchBool result (reader.old ≡ keyword W.Else ∷ reader.new) (IsPastElse reader.old × (reader.new ≡ reader.old)) }
{
    match reader.first() {
        Some(Lexeme::Keyword(Keyword::Else)) => reader.next().is_some(),
        _ => false,
    }
}
