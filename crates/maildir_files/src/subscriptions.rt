//! Dovecot's list of the folders that a user has subscribed: a line for each.
ghost use Rattle.std.specs.Prelude.{◌≡◌, IfOk};
ghost use Rattle.maildir_files.specs.Subscriptions as subscriptions;

use octets::Octets;
use std::alloc::{AllocError, Global};

/// How many octets the first line of a list of version 2 has, in which a tab parts the levels of a name.
const VERSION_LEN: usize = 4;

/// The list with one more folder, whose directory is named so behind its first dot; none if it has that already. An empty list becomes
/// one of version 2.
///
/// Lack of memory is the only error. Linear in the list.
pub fn with_folder(
    alloc: Global,
    list: &[u8],
    directory: &[u8],
) -> Result<Option<Octets>, AllocError>
    ensures { IfOk result (λ made. made ≡ subscriptions.with_folder list.now directory.now) }
{
    let line = subscription_line(alloc, list, directory)?;
    if has_line(list, line.as_slice()) {
        return Ok(None);
    }
    let mut made = before_line(alloc, list)?;
    made.extend_from_slice(line.as_slice())?;
    made.push(b'\n')?;
    Ok(Some(made))
}

/// The folder's line.
fn subscription_line(alloc: Global, list: &[u8], directory: &[u8]) -> Result<Octets, AllocError>
    ensures { IfOk result (λ line. line ≡ subscriptions.subscription_line list.now directory.now) }
{
    let tabs = has_tabs(list);
    let mut line = Octets::new(alloc);
    for octet in directory {
        line.push(level_octet(tabs, *octet))?;
    }
    Ok(line)
}

fn level_octet(tabs: bool, octet: u8) -> u8
    ensures { result ≡ subscriptions.level_octet tabs octet }
{
    if tabs && octet == b'.' { b'\t' } else { octet }
}

/// Whether a tab parts the levels of a name.
fn has_tabs(list: &[u8]) -> bool
    ensures { result ≡ subscriptions.has_tabs list.now }
{
    if list.is_empty() {
        return true;
    }
    let (front, _) = list.split_at(VERSION_LEN.min(list.len()));
    front == b"V\t2\n".as_slice()
}

fn has_line(list: &[u8], line: &[u8]) -> bool
    ensures { result ≡ subscriptions.has_line list.now line.now }
{
    list.split(|octet| *octet == b'\n')
        .any(|other| other == line)
}

/// What stands before a new line.
fn before_line(alloc: Global, list: &[u8]) -> Result<Octets, AllocError>
    ensures { IfOk result (λ text. text ≡ subscriptions.before_line list.now) }
{
    let Some(last) = list.last() else {
        return Octets::from_slice(alloc, b"V\t2\n\n");
    };
    let mut text = Octets::from_slice(alloc, list)?;
    if *last != b'\n' {
        text.push(b'\n')?;
    }
    Ok(text)
}
