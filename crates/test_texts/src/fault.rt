//! Scripts and their first fault.
use crate::trial::Trial;
use octets::Octets;
use sieve_exec::Mail;
use sieve_lex::ScriptError;
use sieve_plan::evaluate_script;
use std::alloc::{AllocError, Global};

/// The first fault of a script, or `valid`.
pub fn add_fault(alloc: Global, out: &mut Octets, script: &[u8]) -> Result<(), AllocError> {
    let mail = Trial::empty().mail(alloc, b"")?;
    add(alloc, out, script, &mail)
}

fn add(alloc: Global, out: &mut Octets, script: &[u8], mail: &Mail<'_>) -> Result<(), AllocError> {
    match evaluate_script(alloc, script, mail) {
        Ok(_) => out.extend_from_slice(b"valid"),
        Err(error) => add_error(alloc, out, &error),
    }
}

fn add_error(alloc: Global, out: &mut Octets, error: &ScriptError) -> Result<(), AllocError> {
    match error {
        ScriptError::Fault(fault) => out.extend_from_slice(fault.told(alloc)?.as_slice()),
        ScriptError::Memory => Err(AllocError),
    }
}
