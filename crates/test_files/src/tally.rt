//! How the cases of a file came out.
ghost use Rattle.std.specs.Prelude.{◌≡◌, ◌≢◌};

use crate::section::Section;
use crate::text::{decode_cell, trim_end};
use percent_encoding::{CONTROLS, percent_encode};
use std::alloc::{AllocError, Global};
use std::fmt::Write;

/// How many cases of a file hold, and what is told of the others.
#[derive(Drop)]
pub struct CaseTally {
    held: u64,
    failed: String,
}

impl CaseTally {
    /// No case yet. Takes no memory.
    pub fn new(alloc: Global) -> CaseTally {
        CaseTally {
            held: 0,
            failed: String::new(alloc),
        }
    }

    /// Compares what came with what is wanted. A case that fails is told in a line with the number of its line, counted
    /// from 1, and with both texts, whose control octets and those above 126 are written as `%0A`.
    pub fn note(&mut self, line: usize, wanted: &[u8], got: &[u8]) -> Result<(), AllocError>
        ensures held { wanted.now ≢ got.now → self.new.held ≡ self.old.held }
    {
        if wanted == got {
            self.held = self.held.saturating_add(1);
            return Ok(());
        }
        self.tell(line, wanted, got)
    }

    /// Tells of a case that fails.
    fn tell(&mut self, line: usize, wanted: &[u8], got: &[u8]) -> Result<(), AllocError>
        ensures held { self.new.held ≡ self.old.held }
    {
        let escaped = CONTROLS.add(b'%');
        let (wanted, got) = (
            percent_encode(wanted, escaped),
            percent_encode(got, escaped),
        );
        writeln!(self.failed, "{line}: wanted {wanted}, got {got}")
    }

    /// Compares what came with the text of a section. Blanks and line ends at the end of both don't count.
    pub fn note_text(
        &mut self,
        alloc: Global,
        section: &Section<'_>,
        got: &[u8],
    ) -> Result<(), AllocError> {
        let wanted = decode_cell(alloc, section.text)?;
        self.note(section.line, trim_end(wanted.as_slice()), trim_end(got))
    }

    /// Passes over a section that is no case. A name that is neither one of these nor that of a comment is told, so
    /// that a case whose name is misspelled fails.
    pub fn skip(&mut self, section: &Section<'_>, known: &[&str]) -> Result<(), AllocError>
        ensures held { self.new.held ≡ self.old.held }
    {
        if section.name == "#" || known.contains(&section.name) {
            return Ok(());
        }
        self.tell(section.line, b"a section's name", section.name.as_bytes())
    }

    /// How many cases hold.
    pub fn count(&self) -> u64
        ensures { result ≡ self.now.held }
    {
        self.held
    }

    /// A line for each case that fails.
    pub fn failures(&self) -> &str {
        self.failed.as_str()
    }
}
