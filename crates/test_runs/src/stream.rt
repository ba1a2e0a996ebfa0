//! Readers and writers that fail at a call.
use crate::run::add_left;
use cli_run::try_script::try_run;
use octets::{Octets, parse_decimal};
use std::alloc::{AllocError, Global};
use std::io;
use std::io::{ErrorKind, Read, Write};
use store_engine::{Envelope, HostSettings};
use test_files::text_in;

/// A script that files into two mailboxes, without a message: `file a`, `file b`, 14 octets.
const TWO: &[u8] = b"44\nrequire \"fileinto\";fileinto \"a\";fileinto\"b\";";

/// The number of a call that no run makes.
pub const NEVER: u64 = u64::MAX;

/// What a run leaves whose input, or output, fails from the call with this number on, counted from 0.
pub fn answer_stream(
    alloc: Global,
    out: &mut Octets,
    call: &[u8],
    number: &[u8],
) -> Result<(), AllocError> {
    let calls = parse_decimal(number).unwrap_or(0);
    match text_in(call) {
        "read" => add_tried(alloc, out, calls, ErrorKind::BrokenPipe, NEVER),
        "interrupted" => add_tried(alloc, out, calls, ErrorKind::Interrupted, NEVER),
        "write" => add_tried(alloc, out, NEVER, ErrorKind::BrokenPipe, calls),
        _ => out.extend_from_slice(b"no such call"),
    }
}

/// Appends what a run leaves whose input and output fail from these calls on.
fn add_tried(
    alloc: Global,
    out: &mut Octets,
    reads: u64,
    fails_as: ErrorKind,
    writes: u64,
) -> Result<(), AllocError> {
    let mut input = PieceReader {
        left: TWO,
        most: 1,
        calls: reads,
        fails_as,
    };
    let mut output = ShortWriter::new(alloc, writes);
    let mut errors = Vec::new(alloc);
    let host = HostSettings::in_utc(alloc);
    let status = try_run(
        alloc,
        empty_envelope(alloc),
        host.at(0),
        &mut input,
        &mut output,
        &mut errors,
    );
    add_left(out, status, output.written.as_slice(), errors.as_slice())
}

/// The envelope of no sender and no recipient. Takes no memory.
fn empty_envelope(alloc: Global) -> Envelope {
    Envelope {
        from: Octets::new(alloc),
        to: Octets::new(alloc),
    }
}

/// An input that gives at most this many octets at a time, and fails from one of its calls on.
#[derive(Drop)]
pub struct PieceReader<'a> {
    pub left: &'a [u8],
    pub most: usize,
    pub calls: u64,
    pub fails_as: ErrorKind,
}

impl Read for PieceReader<'_> {
    fn read(&mut self, buf: &mut [u8]) -> io::Result<usize> {
        if self.calls == 0 {
            return Err(io::Error::from(self.fails_as));
        }
        self.calls -= 1;
        let most = buf.len().min(self.most);
        self.left.read(&mut buf[..most])
    }
}

/// An output that takes three octets at a time, and fails from one of its calls on.
#[derive(Drop)]
pub struct ShortWriter {
    pub written: Vec<u8>,
    calls: u64,
}

impl ShortWriter {
    /// Nothing is written yet. Takes no memory.
    pub fn new(alloc: Global, calls: u64) -> ShortWriter {
        ShortWriter {
            written: Vec::new(alloc),
            calls,
        }
    }

    fn count(&mut self) -> io::Result<()> {
        if self.calls == 0 {
            return Err(io::Error::from(ErrorKind::StorageFull));
        }
        self.calls -= 1;
        Ok(())
    }
}

impl Write for ShortWriter {
    fn write(&mut self, buf: &[u8]) -> io::Result<usize> {
        self.count()?;
        let most = buf.len().min(3);
        self.written.extend_from_slice(&buf[..most])?;
        Ok(most)
    }

    fn flush(&mut self) -> io::Result<()> {
        self.count()
    }
}
