//! One script run on one mail.
ghost use Rattle.std.specs.Prelude.{◌≡◌, ◌≤◌, ◌+◌, IfOk};
ghost use Rattle.sieve_lex.specs.Finding.{IfFault, IfFaultLine};
ghost use Rattle.sieve_lex.specs.Text.{line_ends};
ghost use Rattle.sieve_syntax.specs.Tree.{Commands};
ghost use Rattle.sieve_syntax.specs.Means.{Means};
ghost use Rattle.sieve_exec.specs.Outcomes.{outcome_at};
ghost use Rattle.sieve_exec.specs.Runs.{outcome_view};

use sieve_code::compile;
use sieve_exec::{Mail, Outcome, run_code};
use sieve_lex::ScriptError;
use sieve_syntax::check;
use std::alloc::Global;

/// Returns the outcome of a script on a mail (RFC 5228, 2.10), or why it isn't a valid script.
///
/// Nothing is filed, sent or answered: the outcome says what is to be done. The script is compiled in time linear in its length, and
/// each of its tests is evaluated at most once; the values of a field are decoded once, if a test asks for them. Memory is
/// proportional to the script and to the values that tests ask for.
///
/// # Errors
///
/// [`ScriptError::Fault`] if the text isn't a valid script, and [`ScriptError::Memory`] if an allocation failed.
pub fn evaluate_script(
    alloc: Global,
    script: &[u8],
    mail: &Mail<'_>,
) -> Result<Outcome, ScriptError>
    ensures valid { IfOk result (λ done. (tree : Commands) × Means script.now tree) }
    ensures done { IfOk result (λ done. (tree : Commands) → Means script.now tree → outcome_view done ≡ outcome_at mail.now tree) }
    ensures fault { IfFault result ((tree : Commands) → Means script.now tree → ⊥) }
    ensures line { IfFaultLine result (λ line. (1 ≤ line) × (line ≤ 1 + line_ends script.now)) }
{
    let checked = check(alloc, script)?;
    let code = compile(alloc, &checked)?;
    Ok(run_code(alloc, &code, mail)?)
}
