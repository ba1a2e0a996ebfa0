//! Dates in a response (RFC 5322, 3.3).
use octets::{Octets, parse_decimal};
use sieve_vacation::{MAX_MOMENT, write_date};
use std::alloc::{AllocError, Global};
use test_files::{CaseTally, Lines, split_at_first};

/// Dates: a line has a moment and its text.
#[derive(Drop)]
pub struct Dates;

impl Lines for Dates {
    fn try_line(
        &self,
        alloc: Global,
        tally: &mut CaseTally,
        number: usize,
        line: &str,
    ) -> Result<(), AllocError> {
        let (moment, wanted) = split_at_first(line, " ");
        let mut got = Octets::new(alloc);
        add(&mut got, moment)?;
        tally.note(number, wanted.as_bytes(), got.as_slice())
    }
}

fn add(out: &mut Octets, moment: &str) -> Result<(), AllocError> {
    match parse_decimal(moment.as_bytes()) {
        Some(moment) if moment <= MAX_MOMENT => write_date(out, moment),
        _ => out.extend_from_slice(b"no moment"),
    }
}
