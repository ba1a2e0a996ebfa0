//! How a value is written in a line.
ghost use Rattle.std.specs.Prelude.{◌≡◌, ◌<◌, ◌++◌, OnOk};
ghost use Rattle.std.specs.List.{list_all};
ghost use Rattle.daemon_log.specs.Values.{digit_of, escaped_octet, escaped, spelled};
ghost use Rattle.daemon_log.specs.Values as values;

use octets::Octets;
use std::alloc::AllocError;

/// Appends a value: as it is if it isn't empty and has only letters, digits and `+-./<>@_~`; otherwise in quotation marks, with each
/// other octet as `\xHH`. At most four times its octets and two, in one pass.
///
/// # Errors
///
/// Lack of memory; a part of it may have been appended then.
pub fn add_value(line: &mut Octets, value: &[u8]) -> Result<(), AllocError>
    ensures { OnOk result (line.new ≡ line.old ++ spelled value.now) }
{
    if is_bare(value) {
        return line.extend_from_slice(value);
    }
    line.push(b'"')?;
    add_escaped(line, value)?;
    line.push(b'"')
}

/// Whether the value is written without quotation marks.
fn is_bare(value: &[u8]) -> bool
    ensures { result ≡ values.is_bare value.now }
{
    match value.split_first() {
        None => false,
        Some((first, others)) => is_plain(*first) && are_plain(others),
    }
}

fn are_plain(value: &[u8]) -> bool
    ensures { result ≡ list_all values.is_plain value.now }
{
    value.iter().all(|octet| is_plain(*octet))
}

fn add_escaped(line: &mut Octets, value: &[u8]) -> Result<(), AllocError>
    ensures { OnOk result (line.new ≡ line.old ++ escaped value.now) }
{
    let mut rest = value;
    while let Some((octet, others)) = rest.split_first() {
        add_octet(line, *octet)?;
        rest = others;
    }
    Ok(())
}

fn add_octet(line: &mut Octets, octet: u8) -> Result<(), AllocError>
    ensures { OnOk result (line.new ≡ line.old ++ escaped_octet octet) }
{
    if is_plain(octet) {
        return line.push(octet);
    }
    line.extend_from_slice(&[b'\\', b'x', digit(octet / 16), digit(octet % 16)])
}

fn is_plain(octet: u8) -> bool
    ensures { result ≡ values.is_plain octet }
{
    is_between(b'0', b'9', octet)
        || is_between(b'A', b'Z', octet)
        || is_between(b'a', b'z', octet)
        || is_mark(octet)
}

fn is_mark(octet: u8) -> bool
    ensures { result ≡ values.is_mark octet }
{
    matches!(
        octet,
        b'+' | b'-' | b'.' | b'/' | b'<' | b'>' | b'@' | b'_' | b'~'
    )
}

fn is_between(low: u8, high: u8, octet: u8) -> bool
    ensures { result ≡ values.is_between low high octet }
{
    low <= octet && octet <= high
}

/// A hexadecimal digit, in upper case.
fn digit(value: u8) -> u8
    requires { value < 16 }
    ensures { result ≡ digit_of value }
{
    if value < 10 {
        b'0' + value
    } else {
        b'A' + (value - 10)
    }
}
