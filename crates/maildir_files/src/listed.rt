//! Names that Dovecot 2.3 lists as they are.
ghost use Rattle.std.specs.Prelude.{◌≡◌};
ghost use Rattle.maildir_files.specs.Listed.{begins_high, is_high_digit, is_listed};

/// Whether no octet is NUL, and none is a `\` before two hexadecimal digits of an octet over 127. One pass.
pub(crate) fn is_listed(name: &[u8]) -> bool
    ensures { result ≡ is_listed name.now }
{
    let mut rest = name;
    while let Some((octet, more)) = rest.split_first() {
        if *octet == 0 || *octet == b'\\' && begins_high(more) {
            return false;
        }
        rest = more;
    }
    true
}

/// Whether the two hexadecimal digits of an octet over 127 come first.
fn begins_high(text: &[u8]) -> bool
    ensures { result ≡ begins_high text.now }
{
    match text {
        [high, low, ..] => is_high_digit(*high) && low.is_ascii_hexdigit(),
        _ => false,
    }
}

/// A hexadecimal digit of 8 or more.
fn is_high_digit(octet: u8) -> bool
    ensures { result ≡ is_high_digit octet }
{
    matches!(octet, b'8'..=b'9' | b'A'..=b'F' | b'a'..=b'f')
}
