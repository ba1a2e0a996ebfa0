//! Scripts and tests, each tried on a message with its envelope (RFC 5228).
use cli_reports::{report_fault, report_settlement};
use octets::Octets;
use sieve_lex::ScriptError;
use std::alloc::{AllocError, Global};
use store_engine::{HostSettings, LentTerms, attempt};
use test_files::LinePart::Text;
use test_files::{
    CaseTally, Lines, Section, Sections, add_parts, decode_cell, trim_end, try_lines, try_sections,
};
use test_texts::Trial;

/// Tries each case of the file.
pub fn try_script_file(alloc: Global, tally: &mut CaseTally, file: &str) -> Result<(), AllocError> {
    let mut scripts = Scripts {
        trial: Trial::empty(),
    };
    try_sections(alloc, tally, &mut scripts, file)
}

/// A file of scripts, each with what is in force.
#[derive(Clone, Copy)]
struct Scripts<'a> {
    trial: Trial<'a>,
}

impl<'a> Sections<'a> for Scripts<'a> {
    fn try_section(
        &mut self,
        alloc: Global,
        tally: &mut CaseTally,
        section: &Section<'a>,
    ) -> Result<(), AllocError> {
        try_section(alloc, tally, self.trial, section)?;
        self.trial = self.trial.after(section);
        Ok(())
    }
}

/// Tries the cases of a section: `wanted` is one, and each line of `holds` and of `fails`.
fn try_section(
    alloc: Global,
    tally: &mut CaseTally,
    trial: Trial<'_>,
    section: &Section<'_>,
) -> Result<(), AllocError> {
    match section.name {
        "wanted" => try_script(alloc, tally, trial, section),
        "holds" => try_tests(alloc, tally, trial, section, b"discard"),
        "fails" => try_tests(alloc, tally, trial, section, b"file INBOX"),
        _ => tally.skip(
            section,
            &["from", "to", "at", "zone", "script", "message", "mail"],
        ),
    }
}

fn try_script(
    alloc: Global,
    tally: &mut CaseTally,
    trial: Trial<'_>,
    section: &Section<'_>,
) -> Result<(), AllocError> {
    let script = trial.script(alloc)?;
    let got = answer(alloc, script.as_slice(), trial)?;
    tally.note_text(alloc, section, got.as_slice())
}

/// Tries a test per line, which holds if this is what a script that discards then comes to.
fn try_tests(
    alloc: Global,
    tally: &mut CaseTally,
    trial: Trial<'_>,
    section: &Section<'_>,
    wanted: &'static [u8],
) -> Result<(), AllocError> {
    try_lines(alloc, tally, &Tests { trial, wanted }, section)
}

/// Tests of a mail, and what a script comes to that discards if one holds.
#[derive(Drop)]
struct Tests<'a> {
    trial: Trial<'a>,
    wanted: &'static [u8],
}

impl Lines for Tests<'_> {
    fn try_line(
        &self,
        alloc: Global,
        tally: &mut CaseTally,
        number: usize,
        line: &str,
    ) -> Result<(), AllocError> {
        let script = discard_after(alloc, line)?;
        let got = answer(alloc, script.as_slice(), self.trial)?;
        tally.note(number, self.wanted, trim_end(got.as_slice()))
    }
}

/// A script that discards if a test holds.
fn discard_after(alloc: Global, test: &str) -> Result<Octets, AllocError> {
    let test = decode_cell(alloc, test)?;
    let mut script = Octets::new(alloc);
    add_parts(
        &mut script,
        &[
            Text(
                b"require [\"envelope\", \"subaddress\", \"relational\", \"comparator-i;ascii-numeric\", \"encoded-character\", \"mailbox\", \"date\", \"imap4flags\"]; if ",
            ),
            Text(test.as_slice()),
            Text(b" { discard; }"),
        ],
    )?;
    Ok(script)
}

/// The report on a script, or its fault.
fn answer(alloc: Global, script: &[u8], trial: Trial<'_>) -> Result<Octets, AllocError> {
    let message = trial.message(alloc)?;
    answer_on(alloc, script, trial, message.as_slice())
}

fn answer_on(
    alloc: Global,
    script: &[u8],
    trial: Trial<'_>,
    message: &[u8],
) -> Result<Octets, AllocError> {
    let envelope = trial.envelope(alloc)?;
    let host = HostSettings::in_utc(alloc);
    let terms = LentTerms {
        when: trial.when(),
        host: &host,
    };
    match attempt(alloc, Some(script), envelope, message, terms) {
        Ok(settlement) => report_settlement(alloc, &settlement),
        Err(ScriptError::Fault(fault)) => report_fault(alloc, fault),
        Err(ScriptError::Memory) => Err(AllocError),
    }
}
