//! What the host's scripts and the user's come to.
ghost use Rattle.std.specs.Prelude.{◌≡◌, false, map, IfOk};
ghost use Rattle.store_accounts.specs.Cells.{borrowed_octets};
ghost use Rattle.sieve_plan.specs.Delivered.{has_long_header};
ghost use Rattle.sieve_plan.specs.Sequences.{SettlesInTurn, SettlesUnder, at_beginning, sequence_of, settled_well};
ghost use Rattle.sieve_plan.specs.SequencePlans.{settled_of};
ghost use Rattle.sieve_plan.specs.Turns.{script_in, sequence_state_of};

use crate::deeds::Deeds;
use crate::handover::Handover;
use crate::kept::KeptScripts;
use crate::looping::is_looping;
use crate::notice::FailureNotice;
use crate::scripts::{HostScripts, SequenceScript, sequence};
use crate::turn::{SequenceState, TurnEnd, take_turn};
use sieve_exec::Mail;
use std::alloc::{AllocError, Global};

/// What the scripts come to.
#[derive(Drop)]
pub struct Settlement {
    /// What they do.
    pub deeds: Deeds,
    /// Why they don't decide on the message any further, if one of them failed or none was run.
    pub notice: Option<FailureNotice>,
}

/// What a mail comes to under the host's scripts and the text of the account's active script, if one is active (RFC 5228, 2.10).
///
/// Its header isn't long (`has_long_header`). Each text is compiled and run once, in turn, as long as the message is still to be
/// kept; it is checked first, unless its script is kept. The host's scripts may take 50,000,000 units of work among them all, the
/// user's a run's limit. What a script leaves to the next is copied, once for each. The fields are looked through once more for
/// Received. Lack of memory is the only error.
pub fn settle(
    alloc: Global,
    kept: &mut KeptScripts,
    host: &HostScripts,
    own: Option<&[u8]>,
    mail: &Mail<'_>,
) -> Result<Settlement, AllocError>
    requires { has_long_header mail.now.octets ≡ false }
    ensures { IfOk result (λ settlement. SettlesUnder host.now (borrowed_octets own.entry) mail.now (settled_of settlement)) }
{
    if is_looping(mail) {
        return Ok(Settlement {
            deeds: Deeds::kept(alloc)?,
            notice: Some(FailureNotice::Loop),
        });
    }
    settle_scripts(alloc, kept, host, own, mail)
}

/// What the host's scripts and the user's come to on a mail, as [`settle`] says it, however often that mail was received.
pub fn settle_scripts(
    alloc: Global,
    kept: &mut KeptScripts,
    host: &HostScripts,
    own: Option<&[u8]>,
    mail: &Mail<'_>,
) -> Result<Settlement, AllocError>
    ensures { IfOk result (λ settlement. SettlesInTurn mail.now (sequence_of host.now (borrowed_octets own.entry)) at_beginning (settled_of settlement)) }
{
    let scripts = sequence(alloc, host, own)?;
    settle_in_turn(alloc, kept, scripts.as_slice(), mail)
}

/// What these scripts come to, each in its turn.
fn settle_in_turn(
    alloc: Global,
    kept: &mut KeptScripts,
    scripts: &[SequenceScript<'_>],
    mail: &Mail<'_>,
) -> Result<Settlement, AllocError>
    ensures { IfOk result (λ settlement. SettlesInTurn mail.now (map script_in scripts.now) at_beginning (settled_of settlement)) }
{
    let mut state = SequenceState::first(alloc)?;
    for script in scripts {
        match take_turn(alloc, kept, script, mail, state)? {
            TurnEnd::Failed(deeds, cause) => {
                return Ok(Settlement {
                    deeds,
                    notice: Some(FailureNotice::Script {
                        whose: script.whose,
                        cause,
                    }),
                });
            }
            TurnEnd::Ended(next) => {
                if !next.left.is_kept {
                    return Ok(settled_well(next));
                }
                state = next;
            }
        }
    }
    Ok(settled_well(state))
}

/// What is done is done, and nobody is told.
fn settled_well(state: SequenceState) -> Settlement
    ensures { settled_of result ≡ settled_well (sequence_state_of state).done }
{
    let SequenceState { left, .. } = state;
    let Handover { stands, .. } = left;
    Settlement {
        deeds: stands.done,
        notice: None,
    }
}
