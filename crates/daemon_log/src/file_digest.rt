//! The line that names a file which was read.
ghost use Rattle.std.specs.Prelude.{◌≡◌, IfOk};
ghost use Rattle.daemon_log.specs.Files.{digest_line};

use crate::log_line::{add_pair, begin, end};
use octets::Octets;
use sha2::{Digest, Sha256};
use std::alloc::{AllocError, Global};

/// The line of a file, with the SHA-256 of the text that was read from it, in hexadecimal digits in lower case:
/// `sieved: before file=/etc/sieved/spam.sieve sha256=e3b0..`. The word says what it was read for.
///
/// Lack of memory is the only error. Linear in the name and the text.
pub fn file_digest_line(
    alloc: Global,
    word: &[u8],
    file: &[u8],
    text: &[u8],
) -> Result<Octets, AllocError>
    ensures { IfOk result (λ line. line ≡ digest_line word.now file.now text.now) }
{
    let digest = hex::encode(alloc, Sha256::digest(text))?;
    let mut line = begin(alloc, word)?;
    add_pair(&mut line, b"file", file)?;
    add_pair(&mut line, b"sha256", digest.as_bytes())?;
    end(line)
}
