//! Tables: files in which a line is a case, and its last column is what is wanted.
use crate::tally::CaseTally;
use crate::text::columns;
use octets::Octets;
use std::alloc::{AllocError, Global};

/// What answers the rows of a table, one after the other.
pub trait Answers {
    /// Appends what comes of a row's columns.
    fn answer(
        &mut self,
        alloc: Global,
        out: &mut Octets,
        given: &[Octets],
    ) -> Result<(), AllocError>;
}

/// Tries each line of a table; an empty line and one that begins with `#` are no case.
pub fn try_rows<A: Answers>(
    alloc: Global,
    tally: &mut CaseTally,
    answers: &mut A,
    file: &str,
) -> Result<(), AllocError> {
    let mut number: usize = 0;
    for line in file.split('\n') {
        number = number.saturating_add(1);
        if !line.is_empty() && !line.starts_with('#') {
            try_row(alloc, tally, answers, number, line)?;
        }
    }
    Ok(())
}

fn try_row<A: Answers>(
    alloc: Global,
    tally: &mut CaseTally,
    answers: &mut A,
    number: usize,
    line: &str,
) -> Result<(), AllocError> {
    let row = columns(alloc, line)?;
    match row.as_slice() {
        [given @ .., wanted] => try_columns(alloc, tally, answers, number, given, wanted),
        [] => Ok(()),
    }
}

fn try_columns<A: Answers>(
    alloc: Global,
    tally: &mut CaseTally,
    answers: &mut A,
    number: usize,
    given: &[Octets],
    wanted: &Octets,
) -> Result<(), AllocError> {
    let mut got = Octets::new(alloc);
    answers.answer(alloc, &mut got, given)?;
    tally.note(number, wanted.as_slice(), got.as_slice())
}
