//! Responses of `vacation`, line by line.
use std::alloc::{AllocError, Global};
use test_files::{CaseTally, Lines, decode_cell};

/// A response, and whether each line that is tried is in it.
#[derive(Drop)]
pub struct Response<'a> {
    pub text: &'a [u8],
    pub has: bool,
}

impl Lines for Response<'_> {
    fn try_line(
        &self,
        alloc: Global,
        tally: &mut CaseTally,
        number: usize,
        line: &str,
    ) -> Result<(), AllocError> {
        let line = decode_cell(alloc, line)?;
        let line = line.as_slice();
        let got = if has_line(self.text, line) == self.has {
            line
        } else {
            self.text
        };
        tally.note(number, line, got)
    }
}

/// Whether a text has this line, which CRLF ends.
fn has_line(text: &[u8], line: &[u8]) -> bool {
    let mut begins = true;
    for place in 0..text.len() {
        let (_, rest) = text.split_at(place);
        if begins && rest.starts_with(line) && rest.split_at(line.len()).1.starts_with(b"\r\n") {
            return true;
        }
        begins = rest.starts_with(b"\n");
    }
    false
}
