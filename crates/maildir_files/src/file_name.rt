//! The names of files that keep messages, and where they are.
ghost use Rattle.std.specs.Prelude.{◌≡◌, ◌≢◌, [], ◌++◌, IfOk};
ghost use Rattle.std.specs.Str.{IsUtf8};
ghost use Rattle.std.specs.String.{string_bytes};
ghost use Rattle.sha2.specs.Sha256.{sha256};
ghost use Rattle.mail_flags.specs.Flags.{named_flags, letters};
ghost use Rattle.maildir_files.specs.FileName.{with_length, digested_text, file_name, IsPlaceBy};

use crate::file_place::{FilePlace, Subdirectory};
use mail_flags::Flags;
use sha2::{Digest, Sha256};
use std::alloc::{AllocError, Global};
use std::format;

/// The name of the file that keeps the message which has this number in the user's folder: the number, and a digest of
/// the user, the folder and the octets, so that a second try writes the same name and no other message has it.
///
/// Digits, a dot and letters from a to f: 66 to 85 octets. Time is linear in the message, memory constant.
pub fn name_of(
    alloc: Global,
    user: &[u8],
    folder: &[u8],
    number: u64,
    message: &[u8],
) -> Result<String, AllocError>
    ensures { IfOk result (λ name. string_bytes name ≡ file_name user.now folder.now number message.now) }
{
    let digest = hex::encode(alloc, digest_of(user, folder, message))?;
    format!(in alloc; "{number}.{digest}")
}

/// Where the file of that name is in a Maildir, by the text that names its message's flags: in `new`; if some of them are system
/// flags in `cur`, with their letters after its name, as `cur/NAME:2,FS`. Other flags have no letters, and are told nowhere.
pub fn place_of(alloc: Global, name: &str, flags: &[u8]) -> Result<FilePlace, AllocError>
    ensures { IfOk result (IsPlaceBy name.now (letters (named_flags flags.now))) }
{
    let letters = Flags::read(alloc, flags)?.letters(alloc)?;
    match str::from_utf8(letters.as_slice()) {
        Ok("") => place_in_new(alloc, name),
        Ok(letters) => place_in_cur(alloc, name, letters),
        Err(_) => place_in_new(alloc, name),
    }
}

/// The place of a file without letters.
fn place_in_new(alloc: Global, name: &str) -> Result<FilePlace, AllocError>
    ensures { IfOk result (IsPlaceBy name.now []) }
{
    Ok(FilePlace {
        subdirectory: Subdirectory::New,
        name: String::from_str(alloc, name)?,
    })
}

/// The place of a file with letters.
fn place_in_cur(alloc: Global, name: &str, letters: &str) -> Result<FilePlace, AllocError>
    requires { letters.now ≢ [] }
    ensures { IfOk result (IsPlaceBy name.now letters.now) }
{
    Ok(FilePlace {
        subdirectory: Subdirectory::Cur,
        name: format!(in alloc; "{name}:2,{letters}")?,
    })
}

/// The digest of a user, a folder and a message, each with its own place in what is hashed.
fn digest_of(user: &[u8], folder: &[u8], message: &[u8]) -> [u8; 32]
    ensures { result ≡ sha256 (digested_text user.now folder.now message.now) }
{
    let mut hasher = Sha256::new();
    hasher.update((user.len() as u64).to_be_bytes());
    hasher.update(user);
    hasher.update((folder.len() as u64).to_be_bytes());
    hasher.update(folder);
    hasher.update(message);
    hasher.finalize()
}
