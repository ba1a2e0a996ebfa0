//! The names of flags.
ghost use Rattle.std.specs.Prelude.{◌≡◌};
ghost use Rattle.std.specs.List.{list_all};
ghost use Rattle.mail_flags.specs.Names as names;

use crate::system::SystemFlag;

/// The most octets of a flag's name.
pub const MAX_FLAG_LEN: usize = 128;

/// Whether the text is the name of a flag that a user may set: one of the five system flags, or a keyword, which is an atom of
/// IMAP (RFC 3501, 9), of at most [`MAX_FLAG_LEN`] octets. `\Recent` and unknown names with `\` are none. One pass.
pub fn is_flag(name: &[u8]) -> bool
    ensures { result ≡ names.is_flag name.now }
{
    name.len() <= MAX_FLAG_LEN && (is_keyword(name) || SystemFlag::is_one(name))
}

/// Whether two names are of one flag: ASCII case makes no difference (RFC 3501, 9).
pub fn are_same(one: &[u8], other: &[u8]) -> bool
    ensures { result ≡ names.are_same one.now other.now }
{
    one.eq_ignore_ascii_case(other)
}

/// Whether the name is an atom: one or more octets that an atom may have.
fn is_keyword(name: &[u8]) -> bool
    ensures { result ≡ names.is_keyword name.now }
{
    !name.is_empty() && are_of_atoms(name)
}

fn are_of_atoms(name: &[u8]) -> bool
    ensures { result ≡ list_all names.is_of_atoms name.now }
{
    name.iter().all(|octet| is_of_atoms(*octet))
}

/// Whether an atom may have the octet: printable ASCII but the blank, `(`, `)`, `{`, `%`, `*`, `"`, `\` and `]`.
fn is_of_atoms(octet: u8) -> bool
    ensures { result ≡ names.is_of_atoms octet }
{
    octet.is_ascii_graphic()
        && !matches!(
            octet,
            b'(' | b')' | b'{' | b'%' | b'*' | b'"' | b'\\' | b']'
        )
}
