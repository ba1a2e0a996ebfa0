//! What `vacation` answers: keys, decisions and responses (RFC 5230).
use crate::answering::Answering;
use crate::date::Dates;
use crate::trial::Trial;
use mail_address::{Addr, bare_address};
use sieve_exec::{Mail, Outcome};
use sieve_lex::ScriptError;
use sieve_plan::evaluate_script;
use sieve_syntax::VacationArgs;
use std::alloc::{AllocError, Global};
use test_files::{CaseTally, Section, Sections, decode_cell, try_lines, try_sections};

/// What is in force, as the file has it: each text stays until another section has its name.
#[derive(Clone, Copy)]
struct Absence<'a> {
    trial: Trial<'a>,
    /// The address of the user who is away.
    own: &'a str,
    /// When the response is sent, in seconds since 1970-01-01 UTC.
    moment: &'a str,
}

/// Tries each case of the file.
pub fn try_vacations(alloc: Global, tally: &mut CaseTally, file: &str) -> Result<(), AllocError> {
    let mut absence = Absence {
        trial: Trial::empty(),
        own: "",
        moment: "",
    };
    try_sections(alloc, tally, &mut absence, file)
}

impl<'a> Sections<'a> for Absence<'a> {
    fn try_section(
        &mut self,
        alloc: Global,
        tally: &mut CaseTally,
        section: &Section<'a>,
    ) -> Result<(), AllocError> {
        self.try_cases(alloc, tally, section)?;
        *self = self.after(section);
        Ok(())
    }
}

impl<'a> Absence<'a> {
    /// What is in force after a section.
    fn after(self, section: &Section<'a>) -> Absence<'a> {
        let mut next = self;
        match section.name {
            "own" => next.own = section.text.trim_ascii_end(),
            "moment" => next.moment = section.text.trim_ascii_end(),
            _ => next.trial = self.trial.after(section),
        }
        next
    }

    /// Tries the cases of a section: `key` and `reply` are one, and each line of `has`, `lacks`, `decisions` and `dates`.
    fn try_cases(
        &self,
        alloc: Global,
        tally: &mut CaseTally,
        section: &Section<'_>,
    ) -> Result<(), AllocError> {
        match section.name {
            "dates" => try_lines(alloc, tally, &Dates, section),
            "key" | "reply" | "has" | "lacks" | "decisions" => self.try_answer(
                alloc, tally, section,
            ),
            _ => tally.skip(
                section,
                &["from", "to", "own", "moment", "script", "message", "mail"],
            ),
        }
    }

    /// Tries the cases of a section on the mail in force, which the script has to answer.
    fn try_answer(
        &self,
        alloc: Global,
        tally: &mut CaseTally,
        section: &Section<'_>,
    ) -> Result<(), AllocError> {
        let message = self.trial.message(alloc)?;
        self.try_message(alloc, tally, section, message.as_slice())
    }

    fn try_message(
        &self,
        alloc: Global,
        tally: &mut CaseTally,
        section: &Section<'_>,
        message: &[u8],
    ) -> Result<(), AllocError> {
        let mail = self.trial.mail(alloc, message)?;
        self.try_mail(alloc, tally, section, &mail)
    }

    fn try_mail(
        &self,
        alloc: Global,
        tally: &mut CaseTally,
        section: &Section<'_>,
        mail: &Mail<'_>,
    ) -> Result<(), AllocError> {
        match self.run_on(alloc, mail)? {
            Some(args) => self.try_asked(alloc, tally, section, mail, &args),
            None => tally.note(section.line, b"a vacation", b"none"),
        }
    }

    /// What the script asks to be answered, if it does.
    fn run_on(&self, alloc: Global, mail: &Mail<'_>) -> Result<Option<VacationArgs>, AllocError> {
        let script = self.trial.script(alloc)?;
        match evaluate_script(alloc, script.as_slice(), mail) {
            Ok(Outcome::Done { reply, .. }) => Ok(reply),
            Ok(Outcome::Failed(_)) | Err(ScriptError::Fault(_)) => Ok(None),
            Err(ScriptError::Memory) => Err(AllocError),
        }
    }

    fn try_asked(
        &self,
        alloc: Global,
        tally: &mut CaseTally,
        section: &Section<'_>,
        mail: &Mail<'_>,
        args: &VacationArgs,
    ) -> Result<(), AllocError> {
        match self.own(alloc)? {
            Some(own) => {
                let answering = Answering { args, own: &own };
                answering.try_section(alloc, tally, section, mail, self.moment)
            }
            None => tally.note(section.line, b"an address", b"none"),
        }
    }

    fn own(&self, alloc: Global) -> Result<Option<Addr>, AllocError> {
        let own = decode_cell(alloc, self.own)?;
        bare_address(alloc, own.as_slice())
    }
}
