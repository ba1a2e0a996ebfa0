//! Header fields.
ghost use Rattle.std.specs.Prelude.{◌≡◌, ◌≤◌, length, option_map};
ghost use Rattle.std.specs.List.{prefix_len};
ghost use Rattle.octets.specs.Ascii as ascii;
ghost use Rattle.mail_head.specs.Fields as fields;

use crate::line::without_end;
use octets::is_blank;

/// A header field: octets borrowed from the message that it was read from (RFC 5322, section 2.2).
#[derive(Clone, Copy)]
pub struct Field<'a> {
    /// The name as written: one or more octets 33 to 126 other than the colon.
    pub name: &'a [u8],
    /// The value as written: all that follows the colon, without the last line end.
    pub raw: &'a [u8],
}

/// Reads a logical line as a field, if it is one.
pub fn read_field(line: &[u8]) -> Option<Field<'_>>
    ensures { option_map fields.field_text_of result ≡ fields.field_of line.now }
{
    let (name, after) = line.split_at(name_len(line));
    if name.is_empty() {
        return None;
    }
    let (colon, value) = after_blanks(after).split_first()?;
    if *colon != b':' {
        return None;
    }
    Some(Field {
        name,
        raw: without_end(value),
    })
}

fn name_len(line: &[u8]) -> usize
    ensures value { result ≡ prefix_len fields.is_name line.now }
    ensures within { result ≤ length line.now }
{
    line.iter().take_while(|octet| is_name(**octet)).count()
}

fn blank_len(text: &[u8]) -> usize
    ensures value { result ≡ prefix_len ascii.is_blank text.now }
    ensures within { result ≤ length text.now }
{
    text.iter().take_while(|octet| is_blank(**octet)).count()
}

fn after_blanks(text: &[u8]) -> &[u8]
    ensures { result.now ≡ fields.after_blanks text.now }
{
    text.split_at(blank_len(text)).1
}

fn is_name(octet: u8) -> bool
    ensures { result ≡ fields.is_name octet }
{
    33 <= octet && (octet <= 126 && octet != b':')
}
