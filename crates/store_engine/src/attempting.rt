//! Tries one script on one message.
ghost use Rattle.std.specs.Prelude.{◌≡◌, ◌≤◌, ◌+◌, ℕ, List, IfOk};
ghost use Rattle.mail_head.specs.Heads.{size_of};
ghost use Rattle.mail_head.specs.Prefixes.{IsHeaderPrefix};
ghost use Rattle.sieve_lex.specs.Finding.{IfFault, IfFaultLine};
ghost use Rattle.sieve_plan.specs.Sequences.{SettlesInTurn, at_beginning, sequence_of};
ghost use Rattle.sieve_plan.specs.SequencePlans.{settled_of};
ghost use Rattle.store_accounts.specs.Cells.{borrowed_octets};
ghost use Rattle.store_engine.specs.AccountEvents.{script_or_default};
ghost use Rattle.store_engine.specs.Attempts.{IsValidOrNone, IsNoScript, SettlesUnderTerms, own_lines};
ghost use Rattle.store_engine.specs.Terms.{terms_of};

use crate::terms::{HostSettings, LentTerms};
use octets::as_deref;
use sieve_exec::{Envelope, Mail};
use sieve_lex::ScriptError;
use sieve_plan::{KeptScripts, Settlement, settle_scripts};
use sieve_syntax::check;
use std::alloc::Global;

/// What a user's script and the host's come to on a message that is delivered under these terms (RFC 5228, 2.10), or why it is no
/// valid script. Without one the user has no active script: the host's default, if there is one, stands in its place.
///
/// Nothing is filed, sent or answered: it is said what would be. Scripts, envelope and message have no limit on their size. A script
/// is compiled in time linear in it, and each of its tests is asked at most once; the values of a field are decoded once, when a test
/// asks for them. Memory is in proportion to the scripts, to the names of the message's fields and to the values that tests ask for;
/// the message isn't copied.
///
/// # Errors
///
/// [`ScriptError::Fault`] if the text is no valid script, and [`ScriptError::Memory`] if memory was refused.
pub fn attempt(
    alloc: Global,
    own: Option<&[u8]>,
    envelope: Envelope,
    message: &[u8],
    terms: LentTerms<'_>,
) -> Result<Settlement, ScriptError>
    ensures valid { IfOk result (λ done. IsValidOrNone (borrowed_octets own.entry)) }
    ensures done { IfOk result (λ done. SettlesUnderTerms (terms_of terms.entry) envelope (borrowed_octets own.entry) message.now (settled_of done)) }
    ensures fault { IfFault result (IsNoScript (borrowed_octets own.entry)) }
    ensures line { IfFaultLine result (λ line. (1 ≤ line) × (line ≤ 1 + own_lines (borrowed_octets own.entry))) }
{
    let mail = Mail::read(alloc, message, envelope, terms.when)?;
    settle_on(alloc, own, &mail, terms.host)
}

/// What they come to on a message of which a prefix with an empty line, and the size, are known: the same as `attempt` says of the
/// message, whatever follows the prefix.
///
/// Time and memory are those of `attempt` on the prefix.
///
/// # Errors
///
/// Those of [`attempt`].
pub fn attempt_on_prefix(
    alloc: Global,
    own: Option<&[u8]>,
    envelope: Envelope,
    front: &[u8],
    size: u64,
    terms: LentTerms<'_>,
) -> Result<Settlement, ScriptError>
    ensures valid { IfOk result (λ done. IsValidOrNone (borrowed_octets own.entry)) }
    ensures done { IfOk result (λ done. (message : List ℕ) → IsHeaderPrefix front.now message → size ≡ size_of message
        → SettlesUnderTerms (terms_of terms.entry) envelope (borrowed_octets own.entry) message (settled_of done)) }
    ensures fault { IfFault result (IsNoScript (borrowed_octets own.entry)) }
    ensures line { IfFaultLine result (λ line. (1 ≤ line) × (line ≤ 1 + own_lines (borrowed_octets own.entry))) }
{
    let known = Mail::read_prefix(alloc, front, size, envelope, terms.when)?;
    settle_on(alloc, own, &known, terms.host)
}

/// What they come to on a mail; or why the user's text is no valid script.
fn settle_on(
    alloc: Global,
    own: Option<&[u8]>,
    mail: &Mail<'_>,
    host: &HostSettings,
) -> Result<Settlement, ScriptError>
    ensures valid { IfOk result (λ done. IsValidOrNone (borrowed_octets own.entry)) }
    ensures done { IfOk result (λ done.
        SettlesInTurn mail.now (sequence_of host.now.scripts (script_or_default (borrowed_octets own.entry) host.now.default)) at_beginning (settled_of done)) }
    ensures fault { IfFault result (IsNoScript (borrowed_octets own.entry)) }
    ensures line { IfFaultLine result (λ line. (1 ≤ line) × (line ≤ 1 + own_lines (borrowed_octets own.entry))) }
{
    let mut kept = KeptScripts::new(alloc);
    let Some(text) = own else {
        return Ok(settle_scripts(
            alloc,
            &mut kept,
            &host.scripts,
            as_deref(&host.default),
            mail,
        )?);
    };
    check(alloc, text)?;
    Ok(settle_scripts(alloc, &mut kept, &host.scripts, own, mail)?)
}
