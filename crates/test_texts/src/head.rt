//! The heads of messages (RFC 5322, 2.2).
use mail_head::{Field, Head};
use octets::Octets;
use std::alloc::{AllocError, Global};
use test_files::LinePart::{Number, Text};
use test_files::{CaseTally, Message, Section, Sections, add_parts, try_sections};

/// Tries each case of the file. `message` is a message as it is, `mail` one whose line ends are CRLF.
pub fn try_heads(alloc: Global, tally: &mut CaseTally, file: &str) -> Result<(), AllocError> {
    let mut heads = Heads {
        message: Message::empty(),
    };
    try_sections(alloc, tally, &mut heads, file)
}

/// A file of heads, each with the message in force.
#[derive(Clone, Copy)]
struct Heads<'a> {
    message: Message<'a>,
}

impl<'a> Sections<'a> for Heads<'a> {
    fn try_section(
        &mut self,
        alloc: Global,
        tally: &mut CaseTally,
        section: &Section<'a>,
    ) -> Result<(), AllocError> {
        try_section(alloc, tally, self.message, section)?;
        self.message = self.message.after(section);
        Ok(())
    }
}

/// Tries the case that a section is, if it is one.
fn try_section(
    alloc: Global,
    tally: &mut CaseTally,
    message: Message<'_>,
    section: &Section<'_>,
) -> Result<(), AllocError> {
    if section.name != "wanted" {
        return tally.skip(section, &["message", "mail"]);
    }
    let got = describe(alloc, message)?;
    tally.note_text(alloc, section, got.as_slice())
}

fn describe(alloc: Global, message: Message<'_>) -> Result<Octets, AllocError> {
    let message = message.octets(alloc)?;
    let mut out = Octets::new(alloc);
    add(alloc, &mut out, message.as_slice())?;
    Ok(out)
}

/// Appends a line `NAME|VALUE` for each field, the body after `body `, and the size after `size `.
fn add(alloc: Global, out: &mut Octets, message: &[u8]) -> Result<(), AllocError> {
    let head = Head::read(alloc, message)?;
    add_head(out, &head)
}

fn add_head(out: &mut Octets, head: &Head<'_>) -> Result<(), AllocError> {
    add_fields(out, head.fields())?;
    add_parts(
        out,
        &[
            Text(b"body "),
            Text(head.body()),
            Text(b"\nsize "),
            Number(head.size()),
        ],
    )
}

fn add_fields(out: &mut Octets, fields: &[Field<'_>]) -> Result<(), AllocError> {
    for field in fields {
        add_parts(
            out,
            &[Text(field.name), Text(b"|"), Text(field.raw), Text(b"\n")],
        )?;
    }
    Ok(())
}
