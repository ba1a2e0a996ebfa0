//! Scripts, each with a message and its envelope, as files have them.
use mail_dates::read_zone;
use octets::Octets;
use sieve_exec::{Envelope, Mail, When};
use std::alloc::{AllocError, Global};
use test_files::{Message, Section, decode_cell};

/// What is in force, as the file has it: each text stays until another section has its name.
#[derive(Clone, Copy)]
pub struct Trial<'a> {
    from: &'a str,
    to: &'a str,
    /// When the message is delivered, in seconds since 1970-01-01 UTC.
    moment: &'a str,
    /// The zone of the host, as a script gives one.
    zone: &'a str,
    message: Message<'a>,
    script: &'a str,
}

impl<'a> Trial<'a> {
    /// What is in force before a file says anything: empty texts, the first second of 1970, and UTC.
    pub fn empty() -> Trial<'a> {
        Trial {
            from: "",
            to: "",
            moment: "0",
            zone: "+0000",
            message: Message::empty(),
            script: "",
        }
    }

    /// What is in force after a section: `from`, `to`, `at`, `zone` and `script` are texts, and `message` and `mail` a message.
    pub fn after(self, section: &Section<'a>) -> Trial<'a> {
        let mut next = self;
        match section.name {
            "from" => next.from = section.text,
            "to" => next.to = section.text,
            "at" => next.moment = section.text,
            "zone" => next.zone = section.text,
            "script" => next.script = section.text,
            _ => next.message = self.message.after(section),
        }
        next
    }

    /// The octets of the script.
    pub fn script(&self, alloc: Global) -> Result<Octets, AllocError> {
        decode_cell(alloc, self.script)
    }

    /// The octets of the message.
    pub fn message(&self, alloc: Global) -> Result<Octets, AllocError> {
        self.message.octets(alloc)
    }

    /// The envelope of the message.
    pub fn envelope(&self, alloc: Global) -> Result<Envelope, AllocError> {
        let from = decode_cell(alloc, self.from.trim_ascii_end())?;
        let to = decode_cell(alloc, self.to.trim_ascii_end())?;
        Ok(Envelope { from, to })
    }

    /// When the message is delivered; the first second of 1970 if the file says no number, and UTC if it says no zone.
    pub fn when(&self) -> When {
        let moment = self.moment.trim_ascii_end().parse::<u64>().unwrap_or(0);
        let zone = read_zone(self.zone.trim_ascii_end().as_bytes()).unwrap_or(0);
        When::in_zone(moment, zone).unwrap_or(When::in_utc(moment))
    }

    /// These octets with the envelope.
    pub fn mail<'m>(&self, alloc: Global, message: &'m [u8]) -> Result<Mail<'m>, AllocError> {
        Mail::read(alloc, message, self.envelope(alloc)?, self.when())
    }
}
