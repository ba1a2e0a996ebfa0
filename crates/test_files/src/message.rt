//! Messages as files have them.
use crate::section::Section;
use crate::text::with_ends;
use octets::Octets;
use std::alloc::{AllocError, Global};

/// The message in force, as a file has it.
#[derive(Clone, Copy)]
pub struct Message<'a> {
    text: &'a str,
    /// Whether its line ends are CRLF.
    crlf: bool,
}

impl<'a> Message<'a> {
    /// The empty message, which is in force before a file has another.
    pub fn empty() -> Message<'a> {
        Message {
            text: "",
            crlf: false,
        }
    }

    /// The message in force after a section: a section `message` is one as it is, `mail` one whose line ends are CRLF.
    pub fn after(self, section: &Section<'a>) -> Message<'a> {
        let text = section.text;
        match section.name {
            "message" => Message { text, crlf: false },
            "mail" => Message { text, crlf: true },
            _ => self,
        }
    }

    /// Its octets.
    pub fn octets(self, alloc: Global) -> Result<Octets, AllocError> {
        with_ends(alloc, self.text, self.crlf)
    }
}
