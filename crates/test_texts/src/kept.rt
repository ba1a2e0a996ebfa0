//! Checked scripts that are kept by their texts.
use octets::{Octets, write_decimal};
use sieve_lex::ScriptError;
use sieve_plan::{FoundScript, KeptScripts};
use std::alloc::{AllocError, Global};

/// Looks for each of the texts `given`, and then for each of those `asked`; tells the place at which each of these is found, as many
/// as there are, with a blank between two. Between two texts stands NUL.
pub fn add_places(
    alloc: Global,
    out: &mut Octets,
    given: &[u8],
    asked: &[u8],
) -> Result<(), AllocError> {
    let mut kept = KeptScripts::new(alloc);
    for text in given.split(|octet| *octet == 0) {
        let _ = kept.find_or_check(alloc, text);
    }
    let mut between: &[u8] = b"";
    for text in asked.split(|octet| *octet == 0) {
        out.extend_from_slice(between)?;
        add_place(out, kept.find_or_check(alloc, text))?;
        between = b" ";
    }
    Ok(())
}

fn add_place(out: &mut Octets, found: Result<FoundScript, ScriptError>) -> Result<(), AllocError> {
    match found {
        Ok(FoundScript::Kept(place)) => write_decimal(out, place as u64),
        Ok(FoundScript::Checked(_)) => out.extend_from_slice(b"unkept"),
        Err(ScriptError::Fault(_)) => out.extend_from_slice(b"fault"),
        Err(ScriptError::Memory) => Err(AllocError),
    }
}
