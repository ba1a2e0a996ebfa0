//! Tests, by recursive descent: no deeper than test lists and `not`s may enclose them.
ghost use Rattle.std.specs.Prelude.{◌≡◌, map};
ghost use Rattle.sieve_syntax.specs.Capabilities.{granted_by};
ghost use Rattle.sieve_syntax.specs.declared.table.keyword.Keyword.TheVariants as W;
ghost use Rattle.sieve_syntax.specs.Parsing.{Parses, ParsesMore};
ghost use Rattle.sieve_syntax.specs.View.{test_view, tests_view};
ghost use Rattle.sieve_syntax.specs.Steps.{TakesTest, AsksAfter, TakesMoreTests, TakesTests};

use crate::capability::Capabilities;
use crate::error::ParseError;
use crate::parser::argument::{read_arguments, read_separator};
use crate::parser::reader::Reader;
use crate::table::keyword::Keyword;
use crate::table::test::plain_test;
use crate::tree::test::Test;
use sieve_lex::{FaultKind, Mark};
use std::alloc::Global;

/// Reads a test that is permitted here: that many test lists and that many `not`s may enclose the tests within it.
#[cycle(ask)]
pub(crate) fn read_test(
    alloc: Global,
    reader: &mut Reader<'_>,
    granted: &Capabilities,
    lists: usize,
    nots: usize,
) -> Result<Test, ParseError>
    ensures { Parses test_view (TakesTest (granted_by granted.now) lists nots) reader.old reader.new result }
{
    let name = reader.read_keyword()?;
    match name {
        Keyword::Not => read_not(alloc, reader, granted, lists, nots),
        Keyword::AllOf => Ok(Test::AllOf(read_tests(alloc, reader, granted, lists, nots)?)),
        Keyword::AnyOf => Ok(Test::AnyOf(read_tests(alloc, reader, granted, lists, nots)?)),
        _ => read_plain(alloc, reader, granted, lists, nots, name),
    }
}

/// Reads a `not`, after its name.
#[cycle(ask)]
fn read_not(
    alloc: Global,
    reader: &mut Reader<'_>,
    granted: &Capabilities,
    lists: usize,
    nots: usize,
) -> Result<Test, ParseError>
    ensures { Parses test_view (AsksAfter (granted_by granted.now) lists nots W.Not) reader.old reader.new result }
{
    if nots == 0 {
        return Err(ParseError::Fault(FaultKind::TooDeep));
    }
    let inner = read_test(alloc, reader, granted, lists, nots - 1)?;
    Ok(Test::Not(Box::new(alloc, inner)?))
}

/// Reads a test list.
#[cycle(ask)]
fn read_tests(
    alloc: Global,
    reader: &mut Reader<'_>,
    granted: &Capabilities,
    lists: usize,
    nots: usize,
) -> Result<Vec<Test>, ParseError>
    ensures { Parses (λ v. tests_view v.items) (TakesTests (granted_by granted.now) lists nots) reader.old reader.new result }
{
    reader.read_mark(Mark::OpenParen)?;
    if lists == 0 {
        return Err(ParseError::Fault(FaultKind::TooDeep));
    }
    let first = read_test(alloc, reader, granted, lists - 1, nots)?;
    let one = vec![in alloc; first]?;
    read_more_tests(alloc, reader, granted, lists - 1, nots, one)
}

/// Reads the tests of a list after those read so far, and its close parenthesis.
#[cycle(ask)]
fn read_more_tests(
    alloc: Global,
    reader: &mut Reader<'_>,
    granted: &Capabilities,
    lists: usize,
    nots: usize,
    tests: Vec<Test>,
) -> Result<Vec<Test>, ParseError>
    ensures { ParsesMore (λ all. map test_view all.items) (TakesMoreTests (granted_by granted.now) lists nots) (map test_view tests.items) reader.old reader.new result }
{
    let mut tests = tests;
    'tests: while read_separator(reader, Mark::CloseParen)? {
        tests.push(read_test(alloc, reader, granted, lists, nots)?)?;
    }
    Ok(tests)
}

/// Reads a test without tests in it, after its name.
fn read_plain(
    alloc: Global,
    reader: &mut Reader<'_>,
    granted: &Capabilities,
    lists: usize,
    nots: usize,
    name: Keyword,
) -> Result<Test, ParseError>
    requires no_not { name ≡ W.Not → ⊥ }
    requires no_allof { name ≡ W.AllOf → ⊥ }
    requires no_anyof { name ≡ W.AnyOf → ⊥ }
    ensures { Parses test_view (AsksAfter (granted_by granted.now) lists nots name) reader.old reader.new result }
{
    let args = read_arguments(alloc, reader)?;
    let test = plain_test(alloc, name, args.as_slice(), granted)?;
    reader.keep_room(args);
    Ok(test)
}
