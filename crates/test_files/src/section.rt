//! Files of sections.
use crate::tally::CaseTally;
use crate::text::split_at_first;
use std::alloc::{AllocError, Global};

/// A part of a file below a title `== NAME NOTE`. What comes before the first title is a section too; its name is `#`
/// if the file begins with a comment.
#[derive(Clone, Copy)]
pub struct Section<'a> {
    /// The number of the title's line, counted from 1.
    pub line: usize,
    pub name: &'a str,
    /// What comes after the name, to the end of the line.
    pub note: &'a str,
    /// The lines below the title, without the line end before the next title.
    pub text: &'a str,
}

/// What tries the sections of a file, one after the other.
pub trait Sections<'a> {
    /// Tries the cases of a section, or keeps what it has for those that follow.
    fn try_section(
        &mut self,
        alloc: Global,
        tally: &mut CaseTally,
        section: &Section<'a>,
    ) -> Result<(), AllocError>;
}

/// Tries each section of a file.
pub fn try_sections<'a, S: Sections<'a>>(
    alloc: Global,
    tally: &mut CaseTally,
    state: &mut S,
    file: &'a str,
) -> Result<(), AllocError> {
    let all = sections_in(alloc, file)?;
    try_each(alloc, tally, state, all.as_slice())
}

fn try_each<'a, S: Sections<'a>>(
    alloc: Global,
    tally: &mut CaseTally,
    state: &mut S,
    sections: &[Section<'a>],
) -> Result<(), AllocError> {
    for section in sections {
        state.try_section(alloc, tally, section)?;
    }
    Ok(())
}

/// The sections of a file, in their order.
fn sections_in<'a>(alloc: Global, file: &'a str) -> Result<Vec<Section<'a>>, AllocError> {
    let mut found = Vec::new(alloc);
    let mut line: usize = 1;
    for text in file.split("\n== ") {
        found.push(section_at(line, text))?;
        line = line.saturating_add(lines_in(text));
    }
    Ok(found)
}

/// The section whose title is this line.
fn section_at<'a>(line: usize, section: &'a str) -> Section<'a> {
    let (title, text) = split_at_first(section, "\n");
    let (name, note) = split_at_first(title, " ");
    Section {
        line,
        name,
        note,
        text,
    }
}

fn lines_in(text: &str) -> usize {
    text.split('\n').count()
}
