//! The size of a message that comes in pieces.
ghost use Rattle.std.specs.Prelude.{◌≡◌, ◌+◌, ◌*◌, ◌^◌, ◌<◌, ◌≤◌, ◌++◌, ℕ, List, length};
ghost use Rattle.mail_head.specs.Heads.{size_of};
ghost use Rattle.mail_head.specs.Heads as heads;
ghost use Rattle.mail_head.specs.Sizes.{bare_after, bare_in};
ghost use Rattle.mail_head.specs.SizeCounts as sizes;
ghost use Rattle.mail_head.specs.SizeCounts.{CountsSize};

/// Line feed.
const LF: u8 = b'\n';
/// Carriage return: an LF right after one is counted once.
const CR: u8 = b'\r';

/// The distance between the last octets of two neighbouring blocks. The count of a block fits in one octet,
/// so that many octets are counted at once.
const STEP: usize = 240;

/// The size of a message that comes in pieces, which needn't be kept.
#[derive(Clone, Copy)]
pub struct SizeCount {
    size: u64,
    last: u8,
}

impl SizeCount {
    /// The count of the first piece.
    pub fn of(text: &[u8]) -> SizeCount
        ensures counts { CountsSize text.now result }
        ensures within { result.size ≤ 2 * length text.now }
    {
        SizeCount {
            size: size_after(0, text),
            last: last_after(0, text),
        }
    }

    /// The count with one more piece. One pass over the piece.
    pub fn with(self, piece: &[u8]) -> SizeCount
        requires { self.size + 2 * length piece.now < 2 ^ 64 }
        ensures counts { (came : List ℕ) → CountsSize came self → CountsSize (came ++ piece.now) result }
        ensures within { result.size ≤ self.size + 2 * length piece.now }
    {
        SizeCount {
            size: self.size + size_after(self.last, piece),
            last: last_after(self.last, piece),
        }
    }

    /// The size of all that came.
    pub fn size(self) -> u64
        ensures counted { (came : List ℕ) → CountsSize came self → result ≡ size_of came }
        ensures value { result ≡ self.size }
    {
        self.size
    }
}

/// The last octet of a text, or if the text is empty the one before it.
fn last_after(before: u8, text: &[u8]) -> u8
    ensures { result ≡ sizes.last_after before text.now }
{
    match text.last() {
        Some(octet) => *octet,
        None => before,
    }
}

/// What a piece of a message adds to its size after this octet: its octets, and one more for each LF without CR right before it.
fn size_after(before: u8, piece: &[u8]) -> u64
    ensures size { result ≡ heads.size_after before piece.now }
    ensures within { result ≤ 2 * length piece.now }
{
    piece.len() as u64 + bare_feeds(before, piece)
}

/// How many LFs of a piece have no CR right before them, if this octet precedes the piece.
fn bare_feeds(before: u8, piece: &[u8]) -> u64
    ensures value { result ≡ bare_after before piece.now }
    ensures within { result ≤ length piece.now }
{
    let mut bare = match piece.first() {
        Some(octet) => u64::from(*octet == LF && before != CR),
        None => 0,
    };
    let mut rest = piece;
    while rest.len() > STEP {
        bare += u64::from(bare_in_block(rest.split_at(STEP + 1).0));
        rest = rest.split_at(STEP).1;
    }
    bare + u64::from(bare_in_block(rest))
}

/// How many LFs of a block, but for its first octet, have no CR right before them.
fn bare_in_block(block: &[u8]) -> u8
    requires { length block.now ≤ STEP + 1 }
    ensures { result ≡ bare_in block.now }
{
    let mut bare = 0;
    for i in 1..block.len() {
        bare += u8::from(block[i] == LF) & u8::from(block[i - 1] != CR);
    }
    bare
}
