//! An address in a line.
ghost use Rattle.std.specs.Prelude.{◌≡◌, ◌++◌, ◌<◌, OnOk, slice_index};
ghost use Rattle.hex.specs.Hex.{lower_digits};
ghost use Rattle.cli_reports.specs.Addresses.{is_escaped as is_escaped_of, shown_address, address_octet};

use octets::Octets;
use std::alloc::AllocError;

/// Appends an address, octet by octet, so that its end can be seen in a line: `"> <"@example.net` as
/// `"\3e\20\3c"@example.net`. The text grows by at most three octets for each of the address.
pub fn add_address(text: &mut Octets, address: &[u8]) -> Result<(), AllocError>
    ensures { OnOk result (text.new ≡ text.old ++ shown_address address.now) }
{
    for octet in address {
        add_octet(text, *octet)?;
    }
    Ok(())
}

/// Appends an octet of an address: if it is escaped, `\` and two hexadecimal digits in lower case, else itself.
fn add_octet(text: &mut Octets, octet: u8) -> Result<(), AllocError>
    ensures { OnOk result (text.new ≡ text.old ++ address_octet octet) }
{
    if !is_escaped(octet) {
        return text.push(octet);
    }
    text.extend_from_slice(&[b'\\', digit(octet / 16), digit(octet % 16)])
}

/// The hexadecimal digit of a value up to 15, in lower case.
fn digit(value: u8) -> u8
    requires { value < 16 }
    ensures { result ≡ slice_index lower_digits value }
{
    b"0123456789abcdef"[value as usize]
}

/// Whether an octet of an address would end the address or the line, or begins an escape. Octets over 127 don't.
fn is_escaped(octet: u8) -> bool
    ensures { result ≡ is_escaped_of octet }
{
    octet <= b' ' || matches!(octet, b'<' | b'>' | b'\\' | 127)
}
