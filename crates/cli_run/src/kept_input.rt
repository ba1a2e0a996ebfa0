//! An input that is a script and a message, read without keeping the message's body.
ghost use Rattle.std.specs.Prelude.{◌≡◌, ◌+◌, ◌*◌, ◌^◌, ◌≤◌, ◌++◌, ℕ, List, length, take, drop, vec_len, None, IfOk, IfErr, OnOk};
ghost use Rattle.std.specs.Io.KnownBytes.{IsAtEnd};
ghost use Rattle.cli_run.specs.Faults.{IsFailure};
ghost use Rattle.cli_run.specs.KeptInputs.{IsKeptWithin, KeepsInput};
ghost use Rattle.cli_run.specs.Streams.{InputFailed, ReadsToEnd};
ghost use Rattle.cli_run.specs.TryScript.{OfInput};

use crate::fault::RunFault;
use crate::framing::split;
use crate::stream::{MAX_READS, PIECE, make_room, read_at};
use mail_head::{SizeCount, has_empty_line};
use std::alloc::Global;
use std::io::Read;

/// What is kept of an input: all of it, or if it is long the prefix that has the script and the message's header, and the
/// message's size.
#[derive(Drop)]
pub struct KeptInput {
    /// What is kept, and while the input is read also the free room after it.
    octets: Vec<u8>,
    /// How many octets of that are kept.
    kept: usize,
    /// What is kept is searched for the header once it has this many octets.
    due: usize,
    /// The size of the message so far, once its header is there and what comes is only counted.
    count: Option<SizeCount>,
}

impl KeptInput {
    /// Reads to the end, in pieces.
    ///
    /// What comes is kept until the message's header is there. That is checked when a piece is full, and then each time that what
    /// is kept has doubled: so the time is linear, and the memory in proportion to script and header, and a constant. What comes
    /// after that is counted in a piece that is used again.
    pub fn read<R: Read>(alloc: Global, input: &mut R) -> Result<KeptInput, RunFault>
        ensures ok { IfOk result
            (λ front. OfInput (R.remaining input.old) (λ came. KeepsInput came front.octets.items front.count)) }
        ensures reads { OnOk result (ReadsToEnd R.remaining input.old input.new) }
        ensures err { IfErr result IsFailure }
        ensures failed { IfErr result (λ fault. fault ≡ RunFault.Stream → InputFailed) }
    {
        let mut front = KeptInput {
            octets: Vec::new(alloc),
            kept: 0,
            due: PIECE,
            count: None,
        };
        for _ in 0..MAX_READS {
            make_room(&mut front.octets, front.kept)?;
            match read_at(input, front.octets.as_mut_slice(), front.kept)? {
                Some(more) => front.take(more),
                None => {
                    front.end();
                    return Ok(front);
                }
            }
        }
        Err(RunFault::Stream)
    }

    /// What is kept.
    pub fn kept(&self) -> &[u8]
        ensures { result.now ≡ self.now.octets.items }
    {
        self.octets.as_slice()
    }

    /// The count of the message's size, unless all of the message is kept.
    pub fn count(&self) -> Option<SizeCount>
        ensures { result ≡ self.now.count }
    {
        self.count
    }

    /// The input has ended: truncates the free room after what is kept.
    fn end(&mut self)
        ensures kept { self.new.octets.items ≡ take self.old.kept self.old.octets.items }
        ensures same { self.new.count ≡ self.old.count }
    {
        self.octets.truncate(self.kept);
    }

    /// This many octets more came, right after what is kept.
    fn take(&mut self, more: usize)
        requires room { self.old.kept + more ≤ vec_len self.old.octets }
        requires piece { more ≤ PIECE }
        requires small { IsKeptWithin (2 ^ 62) self.old.kept self.old.count }
        ensures keeps { (came : List ℕ) → KeepsInput came (take self.old.kept self.old.octets.items) self.old.count
            → KeepsInput (came ++ take more (drop self.old.kept self.old.octets.items))
            (take self.new.kept self.new.octets.items) self.new.count }
        ensures within { (most : ℕ) → IsKeptWithin most self.old.kept self.old.count
            → IsKeptWithin (most + 2 * more) self.new.kept self.new.count }
        ensures same { self.new.octets ≡ self.old.octets }
        ensures least { self.old.kept ≤ self.new.kept }
        ensures most { self.new.kept ≤ self.old.kept + more }
    {
        match self.count {
            Some(count) => {
                let piece = &self.octets.as_slice()[self.kept..self.kept + more];
                self.count = Some(count.with(piece));
            }
            None => {
                self.kept += more;
                self.look();
            }
        }
    }

    /// Begins to count instead of keep, if it is time to look for the message's header, and the header is there.
    fn look(&mut self)
        requires room { self.old.kept ≤ vec_len self.old.octets }
        requires small { 2 * self.old.kept ≤ 2 ^ 63 }
        requires all { self.old.count ≡ None }
        ensures keeps { KeepsInput (take self.old.kept self.old.octets.items) (take self.old.kept self.old.octets.items)
            self.new.count }
        ensures within { IsKeptWithin (2 * self.old.kept) self.old.kept self.new.count }
        ensures same { self.new.octets ≡ self.old.octets }
        ensures kept { self.new.kept ≡ self.old.kept }
    {
        if self.kept >= self.due {
            self.due = self.kept * 2;
            self.count = header_count(&self.octets.as_slice()[..self.kept]);
        }
    }
}

/// The size of the message so far, if the input has enough of a message that its header is there.
fn header_count(input: &[u8]) -> Option<SizeCount>
    ensures keeps { KeepsInput input.now input.now result }
    ensures within { IsKeptWithin (2 * length input.now) (length input.now) result }
{
    let framed = split(input)?;
    if has_empty_line(framed.message) {
        Some(SizeCount::of(framed.message))
    } else {
        None
    }
}
