//! What a script asks to be answered.
use crate::decision::try_decisions;
use crate::response::Response;
use mail_address::Addr;
use octets::{Octets, parse_decimal};
use sieve_exec::Mail;
use sieve_syntax::VacationArgs;
use sieve_vacation::{AddressedMail, MAX_MOMENT, handle_key, has_short_texts, reply_bytes};
use std::alloc::{AllocError, Global};
use test_files::{CaseTally, Section, try_lines, with_ends};

/// What a script asks to be answered, and the address of its user.
#[derive(Clone, Copy)]
pub struct Answering<'a> {
    pub args: &'a VacationArgs,
    pub own: &'a Addr,
}

impl Answering<'_> {
    /// Tries the cases of a section: the key, the response to a mail at a moment, lines that it has or lacks, or
    /// decisions on it.
    pub fn try_section(
        &self,
        alloc: Global,
        tally: &mut CaseTally,
        section: &Section<'_>,
        mail: &Mail<'_>,
        moment: &str,
    ) -> Result<(), AllocError> {
        match section.name {
            "key" => self.try_key(alloc, tally, section),
            "decisions" => self.try_decisions(alloc, tally, section, mail),
            _ => {
                let reply = self.reply(alloc, mail, moment)?;
                try_reply(alloc, tally, section, reply.as_slice())
            }
        }
    }

    fn try_key(
        &self,
        alloc: Global,
        tally: &mut CaseTally,
        section: &Section<'_>,
    ) -> Result<(), AllocError> {
        let key = self.key(alloc)?;
        tally.note_text(alloc, section, key.as_slice())
    }

    fn key(&self, alloc: Global) -> Result<Octets, AllocError> {
        if !has_short_texts(self.args) {
            return Octets::from_slice(alloc, b"long texts");
        }
        handle_key(alloc, self.args)
    }

    fn reply(&self, alloc: Global, mail: &Mail<'_>, moment: &str) -> Result<Octets, AllocError> {
        match parse_decimal(moment.as_bytes()) {
            Some(moment) if moment <= MAX_MOMENT => {
                reply_bytes(alloc, self.args, mail, self.own, moment)
            }
            _ => Octets::from_slice(alloc, b"no moment"),
        }
    }

    fn try_decisions(
        &self,
        alloc: Global,
        tally: &mut CaseTally,
        section: &Section<'_>,
        mail: &Mail<'_>,
    ) -> Result<(), AllocError> {
        let mail = AddressedMail::read(alloc, mail)?;
        try_decisions(alloc, tally, section, *self, &mail)
    }
}

/// Tries a response, whose line ends are CRLF, or a line of it, line by line.
fn try_reply(
    alloc: Global,
    tally: &mut CaseTally,
    section: &Section<'_>,
    reply: &[u8],
) -> Result<(), AllocError> {
    match section.name {
        "has" => try_lines(
            alloc,
            tally,
            &Response {
                text: reply,
                has: true,
            },
            section,
        ),
        "lacks" => try_lines(
            alloc,
            tally,
            &Response {
                text: reply,
                has: false,
            },
            section,
        ),
        _ => {
            let wanted = with_ends(alloc, section.text, true)?;
            tally.note(section.line, wanted.as_slice(), reply)
        }
    }
}
