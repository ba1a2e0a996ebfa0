//! The size of a message.
ghost use Rattle.std.specs.Prelude.{◌≡◌, ◌+◌, ◌≤◌, length};
ghost use Rattle.mail_head.specs.Heads.{size_of};
ghost use Rattle.mail_head.specs.Sizes.{bare_after, bare_in};

use crate::line::{CR, LF};

/// The distance between the last octets of two neighbouring blocks. The count of a block fits in one octet,
/// so that many octets are counted at once.
const STEP: usize = 240;

/// The octets of a message, and one more for each LF without CR right before it.
pub(crate) fn count(message: &[u8]) -> u64
    ensures { result ≡ size_of message.now }
{
    message.len() as u64 + bare_feeds(message)
}

/// How many LFs have no CR right before them.
fn bare_feeds(message: &[u8]) -> u64
    ensures value { result ≡ bare_after 0 message.now }
    ensures within { result ≤ length message.now }
{
    let mut bare = match message.first() {
        Some(octet) => u64::from(*octet == LF),
        None => 0,
    };
    let mut rest = message;
    while rest.len() > STEP {
        bare += u64::from(bare_in_block(rest.split_at(STEP + 1).0));
        rest = rest.split_at(STEP).1;
    }
    bare + u64::from(bare_in_block(rest))
}

/// How many LFs of a block, but for its first octet, have no CR right before them.
fn bare_in_block(block: &[u8]) -> u8
    requires { length block.now ≤ STEP + 1 }
    ensures { result ≡ bare_in block.now }
{
    let mut bare = 0;
    for i in 1..block.len() {
        bare += u8::from(block[i] == LF) & u8::from(block[i - 1] != CR);
    }
    bare
}
