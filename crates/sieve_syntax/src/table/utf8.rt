//! Texts in UTF-8: a decoded string needn't be one (RFC 5228, 2.4.2.4).
ghost use Rattle.std.specs.Prelude.{◌≡◌, ◌↔◌, IsTrue};
ghost use Rattle.std.specs.Char.{is_ascii};
ghost use Rattle.std.specs.List.{list_all};
ghost use Rattle.std.specs.Str.{IsUtf8};

use std::str;

/// Whether the octets are UTF-8. Linear; takes no memory.
pub(crate) fn is_utf8(text: &[u8]) -> bool
    ensures { IsTrue result ↔ IsUtf8 text.now }
{
    if is_ascii(text) {
        return true;
    }
    match str::from_utf8(text) {
        Ok(_) => true,
        Err(_) => false,
    }
}

/// Whether all octets are ASCII, as those of most names are. Such a text is UTF-8.
fn is_ascii(text: &[u8]) -> bool
    ensures { result ≡ list_all is_ascii text.now }
{
    let mut all = true;
    for octet in text {
        all &= octet.is_ascii();
    }
    all
}
