//! The scripts of a delivery: the host's, before and after the user's.
ghost use Rattle.std.specs.Prelude.{◌≡◌, ◌++◌, map, IfOk, OnOk};
ghost use Rattle.store_accounts.specs.Cells.{borrowed_octets};
ghost use Rattle.sieve_plan.specs.Sequences.{no_host_scripts, scripts_of, sequence_of};
ghost use Rattle.sieve_plan.specs.Turns.{script_in};

use octets::{Octets, Texts};
use std::alloc::{AllocError, Global};

/// The texts of the host's scripts, in order: before the user's script, and after it.
#[derive(Drop)]
pub struct HostScripts {
    pub before: Texts,
    pub after: Texts,
}

impl HostScripts {
    /// The host has none. Takes no memory.
    pub fn none(alloc: Global) -> HostScripts
        ensures { result ≡ no_host_scripts }
    {
        HostScripts {
            before: Texts::new(alloc),
            after: Texts::new(alloc),
        }
    }

    /// A copy of the texts.
    pub fn try_clone(&self, alloc: Global) -> Result<HostScripts, AllocError>
        ensures { IfOk result (λ copy. copy ≡ self.now) }
    {
        Ok(HostScripts {
            before: self.before.try_clone(alloc)?,
            after: self.after.try_clone(alloc)?,
        })
    }
}

/// Whose a script is.
#[derive(Clone, Copy, Debug)]
pub enum Whose {
    /// The host's, before the user's.
    Before,
    /// The user's, in whose place the default stands where none is active.
    Own,
    /// The host's, after the user's.
    After,
}

/// A script of a sequence, by its text, and whose it is.
#[derive(Drop)]
pub struct SequenceScript<'t> {
    pub whose: Whose,
    pub text: &'t [u8],
}

/// The scripts of a delivery, in order: first the host's, then the user's, if there is one, then the host's others. Their texts are
/// borrowed.
pub(crate) fn sequence<'t>(
    alloc: Global,
    host: &'t HostScripts,
    own: Option<&'t [u8]>,
) -> Result<Vec<SequenceScript<'t>>, AllocError>
    ensures { IfOk result (λ scripts. map script_in scripts.items ≡ sequence_of host.now (borrowed_octets own.entry)) }
{
    let mut scripts = Vec::new(alloc);
    add_scripts(&mut scripts, Whose::Before, host.before.as_slice())?;
    if let Some(text) = own {
        scripts.push(SequenceScript {
            whose: Whose::Own,
            text,
        })?;
    }
    add_scripts(&mut scripts, Whose::After, host.after.as_slice())?;
    Ok(scripts)
}

/// Adds scripts with these texts, in order.
fn add_scripts<'t>(
    scripts: &mut Vec<SequenceScript<'t>>,
    whose: Whose,
    texts: &'t [Octets],
) -> Result<(), AllocError>
    ensures { OnOk result (map script_in scripts.new.items ≡ map script_in scripts.old.items ++ scripts_of whose texts.now) }
{
    for text in texts {
        scripts.push(SequenceScript {
            whose,
            text: text.as_slice(),
        })?;
    }
    Ok(())
}
