//! Where the mail of a user's folder goes.
ghost use Rattle.std.specs.Prelude.{◌≡◌, IfOk};
ghost use Rattle.maildir_moves.specs.Place as place;

use maildir_files::{Separator, directory_of};
use octets::Octets;
use std::alloc::{AllocError, Global};

/// The directory of a folder within a user's Maildir, as `directory_of` of maildirs names it.
pub fn place_in(
    alloc: Global,
    home: &[u8],
    folder: &[u8],
    separator: Separator,
) -> Result<Octets, AllocError>
    ensures { IfOk result (λ text. text ≡ place.folder_path separator home.now folder.now) }
{
    let directory = directory_of(alloc, folder, separator)?;
    joined(alloc, home, directory.as_slice())
}

/// Two parts of a path, with a `/` between.
fn joined(alloc: Global, head: &[u8], tail: &[u8]) -> Result<Octets, AllocError>
    ensures { IfOk result (λ text. text ≡ place.joined_path head.now tail.now) }
{
    let mut text = Octets::from_slice(alloc, head)?;
    text.push(b'/')?;
    text.extend_from_slice(tail)?;
    Ok(text)
}
