//! A checked script.
ghost use Rattle.std.specs.Prelude.{◌≡◌, ◌+◌, ◌-◌, ◌≤◌, List, IfOk, IfErr};
ghost use Rattle.sieve_lex.specs.declared.token.Token.{Token};
ghost use Rattle.sieve_lex.specs.Spelling.{SpellsTokens};
ghost use Rattle.sieve_lex.specs.Finding.{IfFault, IfFaultLine, OnFaultLine};
ghost use Rattle.sieve_lex.specs.Contents.{contents, line_at};
ghost use Rattle.sieve_lex.specs.Text.{line_ends};
ghost use Rattle.sieve_syntax.specs.Extension.EncodedCharacter.{as_read};
ghost use Rattle.sieve_syntax.specs.Lexemes.{lexemes_of};
ghost use Rattle.sieve_syntax.specs.Tree.{Commands};
ghost use Rattle.sieve_syntax.specs.Valid.{IsValid};
ghost use Rattle.sieve_syntax.specs.Grammar.{ReadsScript};
ghost use Rattle.sieve_syntax.specs.Parsing.{OnParseFault};

use crate::error::ParseError;
use crate::parser::reader::Reader;
use crate::parser::require::read_script;
use crate::tree::command::Command;
use sieve_lex::{FaultKind, Packed, ScriptError, ScriptFault, line_of, pack};
use std::alloc::Global;

/// A script that has been checked: its tree is valid.
#[derive(Drop)]
pub struct Script {
    commands: Vec<Command>,
}

impl Script {
    ghost use Rattle.sieve_syntax.specs.View.{commands_view, script_tree};

    /// The commands of the script, in order.
    pub fn commands(&self) -> &[Command]
        ensures { commands_view result.now ≡ script_tree self.now }
    {
        self.commands.as_slice()
    }
}

ghost use Rattle.sieve_syntax.specs.View.{script_tree};
ghost use Rattle.sieve_syntax.specs.Means.{Means};

/// Checks a script: returns the only tree that the text means, or if it means none, the first fault (RFC 5228, 8.2). The text may
/// have any octets.
///
/// Time and memory are linear in the text's length, and the stack that it takes is bounded: blocks, test lists and
/// `not`s are nested no deeper than 32 levels each.
///
/// # Errors
///
/// [`ScriptError::Fault`] if the text isn't a valid script, and [`ScriptError::Memory`] if an allocation failed.
pub fn check(alloc: Global, text: &[u8]) -> Result<Script, ScriptError>
    ensures found { IfOk result (λ script. Means text.now (script_tree script)) }
    ensures only { IfOk result (λ script. (tree : Commands) → Means text.now tree → tree ≡ script_tree script) }
    ensures fault { IfFault result ((tree : Commands) → Means text.now tree → ⊥) }
    ensures lines { IfFaultLine result (λ n. (1 ≤ n) × (n ≤ 1 + line_ends text.now)) }
{
    let tokens = pack(alloc, text)?;
    match check_tokens(alloc, &tokens) {
        Ok(script) => Ok(script),
        Err((ParseError::Memory, _)) => Err(ScriptError::Memory),
        Err((ParseError::Fault(kind), read)) => Err(fault_after(alloc, text, read, kind)),
    }
}

/// The script of these tokens, or why they aren't one, with how many of them were read.
fn check_tokens(alloc: Global, tokens: &Packed) -> Result<Script, (ParseError, usize)>
    ensures found { IfOk result (λ script. ReadsScript (script_tree script) (as_read (lexemes_of (contents tokens.now))) × IsValid (script_tree script)) }
    ensures only { IfOk result (λ script. (tree : Commands) → ReadsScript tree (as_read (lexemes_of (contents tokens.now))) → IsValid tree → tree ≡ script_tree script) }
    ensures fault { IfErr result (λ e. OnParseFault e.0 ((tree : Commands) → ReadsScript tree (as_read (lexemes_of (contents tokens.now))) → IsValid tree → ⊥)) }
{
    let mut reader = Reader::new(alloc, tokens);
    match read_script(alloc, &mut reader) {
        Ok(commands) => Ok(Script { commands }),
        Err(error) => Err((error, tokens.len().saturating_sub(reader.left()))),
    }
}

/// The fault of a script that was found after that many of its tokens: its line is that of the last of them.
fn fault_after(alloc: Global, text: &[u8], read: usize, kind: FaultKind) -> ScriptError
    ensures exact { (ts : List Token) → SpellsTokens text.now ts → OnFaultLine result (λ n. n ≡ line_at (read - 1) ts) }
    ensures lines { OnFaultLine result (λ n. (1 ≤ n) × (n ≤ 1 + line_ends text.now)) }
{
    match line_of(alloc, text, read.saturating_sub(1)) {
        Ok(line) => ScriptError::Fault(ScriptFault { line, kind }),
        Err(error) => error,
    }
}
