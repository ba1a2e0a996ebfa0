//! Lines, logical lines and line ends.
ghost use Rattle.std.specs.Prelude.{◌≡◌, ◌<◌, ◌≤◌, length};
ghost use Rattle.mail_head.specs.Lines as lines;
ghost use Rattle.mail_head.specs.Cuts.{CutsLine, CutsLogicalLine};

use memchr::memchr;
use octets::is_blank;

/// Line feed: each line ends with it.
pub(crate) const LF: u8 = b'\n';

/// Carriage return: right before a line feed it is part of the line end.
pub(crate) const CR: u8 = b'\r';

/// Whether a text begins with a space or a tab.
pub(crate) fn begins_blank(text: &[u8]) -> bool
    ensures { result ≡ lines.begins_blank text.now }
{
    match text.first() {
        Some(octet) => is_blank(*octet),
        None => false,
    }
}

/// A text's first line, and what follows.
pub fn first_line(text: &[u8]) -> (&[u8], &[u8])
    requires { 0 < length text.now }
    ensures { CutsLine text.now result.0.now result.1.now }
{
    match memchr(LF, text) {
        Some(at) => text.split_at(at + 1),
        None => text.split_at(text.len()),
    }
}

/// A text's first line with the lines after it that begin with a blank, and what follows.
pub fn logical_line(text: &[u8]) -> (&[u8], &[u8])
    requires { 0 < length text.now }
    ensures { CutsLogicalLine text.now result.0.now result.1.now }
{
    let (_, mut after) = first_line(text);
    while begins_blank(after) {
        (_, after) = first_line(after);
    }
    text.split_at(text.len() - after.len())
}

/// A line without its line end.
pub fn without_end(line: &[u8]) -> &[u8]
    ensures { result.now ≡ lines.without_end line.now }
{
    line.split_at(line.len() - end_len(line)).0
}

fn end_len(line: &[u8]) -> usize
    ensures value { result ≡ lines.end_len line.now }
    ensures within { result ≤ length line.now }
{
    match line {
        [.., CR, LF] => 2,
        [.., LF] => 1,
        _ => 0,
    }
}
