//! Code is written from its last instruction to its first, so the place that a jump leads to is known when the
//! jump is written. Until the code is reversed, a target is the number of instructions from it to the end.
ghost use Rattle.std.specs.Prelude.{◌≡◌, ◌∷◌, OnOk};
ghost use Rattle.sieve_syntax.specs.View.{test_view, tests_view, command_view, commands_view, branches_view};
ghost use Rattle.sieve_syntax.specs.Tree.{all_of, any_of, choose};
ghost use Rattle.sieve_code.specs.Instructions.{instructions_of, instr_view};
ghost use Rattle.sieve_code.specs.Layout.{test_code, command_code, commands_code};

use crate::instr::Instr;
use sieve_syntax::{Branch, Command, Test};
use std::alloc::{AllocError, Global};

/// Puts one instruction before the code.
fn put<'a>(rows: &mut Vec<Instr<'a>>, instr: Instr<'a>) -> Result<(), AllocError>
    ensures { OnOk result (instructions_of rows.new.items ≡ instr_view instr.entry ∷ instructions_of rows.old.items) }
{
    rows.push(instr)?;
    Ok(())
}

/// Puts the code of a test before the code: it sets the flag to whether the test holds.
#[cycle(tests)]
fn emit_test<'a>(rows: &mut Vec<Instr<'a>>, test: &'a Test) -> Result<(), AllocError>
    ensures { OnOk result (instructions_of rows.new.items ≡ test_code (test_view test.now) (instructions_of rows.old.items)) }
{
    match test {
        Test::True => put(rows, Instr::Set(true)),
        Test::False => put(rows, Instr::Set(false)),
        Test::Check(check) => put(rows, Instr::Look(check)),
        Test::Not(inner) => {
            put(rows, Instr::Flip)?;
            emit_test(rows, inner)
        }
        Test::AllOf(inner) => emit_all(rows, inner.as_slice()),
        Test::AnyOf(inner) => emit_any(rows, inner.as_slice()),
    }
}

/// Puts the code of tests before the code: it sets the flag to whether each holds.
#[cycle(tests)]
fn emit_all<'a>(rows: &mut Vec<Instr<'a>>, tests: &'a [Test]) -> Result<(), AllocError>
    ensures { OnOk result (instructions_of rows.new.items ≡ test_code (all_of (tests_view tests.now)) (instructions_of rows.old.items)) }
{
    let end = rows.len();
    put(rows, Instr::Set(true))?;
    for test in tests.iter().rev() {
        put(rows, Instr::JumpUnless(end))?;
        emit_test(rows, test)?;
    }
    Ok(())
}

/// Puts before the code what sets the flag to whether some test holds.
#[cycle(tests)]
fn emit_any<'a>(rows: &mut Vec<Instr<'a>>, tests: &'a [Test]) -> Result<(), AllocError>
    ensures { OnOk result (instructions_of rows.new.items ≡ test_code (any_of (tests_view tests.now)) (instructions_of rows.old.items)) }
{
    let end = rows.len();
    put(rows, Instr::Set(false))?;
    for test in tests.iter().rev() {
        put(rows, Instr::JumpIf(end))?;
        emit_test(rows, test)?;
    }
    Ok(())
}

/// Puts the code of commands before the code.
#[cycle(commands)]
pub(crate) fn emit_commands<'a>(
    rows: &mut Vec<Instr<'a>>,
    commands: &'a [Command],
) -> Result<(), AllocError>
    ensures { OnOk result (instructions_of rows.new.items ≡ commands_code (commands_view commands.now) (instructions_of rows.old.items)) }
{
    for command in commands.iter().rev() {
        emit_command(rows, command)?;
    }
    Ok(())
}

/// Puts the code of a command before the code.
#[cycle(commands)]
fn emit_command<'a>(rows: &mut Vec<Instr<'a>>, command: &'a Command) -> Result<(), AllocError>
    ensures { OnOk result (instructions_of rows.new.items ≡ command_code (command_view command.now) (instructions_of rows.old.items)) }
{
    match command {
        Command::Require(_) => Ok(()),
        Command::If(branches) => emit_branches(rows, branches.as_slice()),
        Command::Stop => put(rows, Instr::Stop),
        Command::Act(action) => put(rows, Instr::Act(action)),
    }
}

/// Puts the code of branches before the code: the first block whose test holds is run, and then a jump past the last.
#[cycle(commands)]
fn emit_branches<'a>(rows: &mut Vec<Instr<'a>>, branches: &'a [Branch]) -> Result<(), AllocError>
    ensures { OnOk result (instructions_of rows.new.items ≡ command_code (choose (branches_view branches.now)) (instructions_of rows.old.items)) }
{
    let end = rows.len();
    for branch in branches.iter().rev() {
        let next = rows.len();
        put(rows, Instr::Jump(end))?;
        emit_commands(rows, branch.block.as_slice())?;
        put(rows, Instr::JumpUnless(next))?;
        emit_test(rows, &branch.test)?;
    }
    Ok(())
}
