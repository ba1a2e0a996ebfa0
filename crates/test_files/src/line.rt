//! Sections in which a line is a case.
use crate::section::Section;
use crate::tally::CaseTally;
use std::alloc::{AllocError, Global};

/// What tries the lines of a section.
pub trait Lines {
    /// Tries the case of a line, which is in the file at this number, counted from 1.
    fn try_line(
        &self,
        alloc: Global,
        tally: &mut CaseTally,
        number: usize,
        line: &str,
    ) -> Result<(), AllocError>;
}

/// Tries each line of a section; an empty line is no case.
pub fn try_lines<L: Lines>(
    alloc: Global,
    tally: &mut CaseTally,
    lines: &L,
    section: &Section<'_>,
) -> Result<(), AllocError> {
    let mut number = section.line;
    for line in section.text.split('\n') {
        number = number.saturating_add(1);
        if !line.is_empty() {
            lines.try_line(alloc, tally, number, line)?;
        }
    }
    Ok(())
}
