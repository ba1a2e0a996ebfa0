//! Compiled scripts.
ghost use Rattle.std.specs.Prelude.{◌≡◌, ◌≤◌, ◌*◌, length, map, IfOk};
ghost use Rattle.sieve_syntax.specs.View.{script_tree};
ghost use Rattle.sieve_code.specs.Instructions.{instr_view, instructions_of};
ghost use Rattle.sieve_code.specs.Jumps.{IsCodeOf};
ghost use Rattle.sieve_code.specs.Layout.{code_in_order as turned_of};
ghost use Rattle.sieve_code.specs.Size.{size};

use crate::emit::emit_commands;
use crate::instr::Instr;
use sieve_syntax::Script;
use std::alloc::{AllocError, Global};
use std::marker::Model;

/// Flat code. It borrows the tests and the actions of the script that it was compiled from. Each jump leads to a
/// place after its own, or to the end of the code, so a run takes at most as many steps as the code has instructions.
#[derive(Drop)]
pub struct Code<'a> {
    instrs: Vec<Instr<'a>>,
}

impl<'a> Model for Code<'a> {
    ghost use Rattle.std.specs.Prelude.{List, map};
    ghost use Rattle.sieve_code.specs.Instructions.{Instruction, instr_view};
    ghost use Rattle.sieve_code.specs.Jumps.{IsForward};

    ghost Value = { List Instruction };

    ghost view = { λ code. map instr_view code.instrs.items };

    ghost invariant = { λ code. IsForward (map instr_view code.instrs.items) };
}

impl<'a> Code<'a> {
    ghost use Rattle.sieve_code.specs.Jumps.{IsForward};

    /// The instructions, in order.
    pub fn instrs(&self) -> &[Instr<'a>]
        ensures instrs { map instr_view result.now ≡ self.now }
        ensures forward { IsForward self.now }
    {
        self.instrs.as_slice()
    }
}

/// Compiles a script. The code does what the script's tree does, and asks the tests that the tree asks, in the same order, so that it takes
/// the same work: however tests are asked, also where they change what the run has done, and whatever work they take (RFC 5228, 2.10, 3 and
/// 5; RFC 5229, 3.2).
///
/// Time and memory are linear in the number of commands, branches and tests: the code has at most two
/// instructions for each. The stack that it takes is bounded by the script's depth.
///
/// # Errors
///
/// [`AllocError`] if an allocation failed.
pub fn compile<'a>(alloc: Global, script: &'a Script) -> Result<Code<'a>, AllocError>
    ensures is_code { IfOk result (λ code. IsCodeOf code (script_tree script.now)) }
    ensures short { IfOk result (λ code. length code ≤ 2 * size (script_tree script.now)) }
{
    let mut rows = Vec::new(alloc);
    emit_commands(&mut rows, script.commands())?;
    Ok(Code {
        instrs: reversed_code(alloc, rows.as_slice())?,
    })
}

/// Puts instructions that were written from the last to the first in order, with the places that jumps lead to.
fn reversed_code<'a>(alloc: Global, rows: &[Instr<'a>]) -> Result<Vec<Instr<'a>>, AllocError>
    ensures { IfOk result (λ code. map instr_view code.items ≡ turned_of (instructions_of rows.now)) }
{
    let len = rows.len();
    rows.iter().rev().map(|row| row.forward(len)).collect(alloc)
}
