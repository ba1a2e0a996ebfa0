//! The system flags.
ghost use Rattle.std.specs.Prelude.{◌≡◌};

use crate::name::are_same;

/// A system flag that a user may set (RFC 3501, 2.3.2).
#[derive(Clone, Copy, Debug, PartialEq, Eq)]
pub enum SystemFlag {
    /// `\Draft`
    Draft,
    /// `\Flagged`
    Flagged,
    /// `\Answered`
    Answered,
    /// `\Seen`
    Seen,
    /// `\Deleted`
    Deleted,
}

impl SystemFlag {
    ghost use Rattle.mail_flags.specs.System.{flag_letter_of, flag_name_of};
    ghost use Rattle.mail_flags.specs.Names.{is_system};

    /// All of them, in the order of their letters.
    pub const ALL: [SystemFlag; 5] = [
        SystemFlag::Draft,
        SystemFlag::Flagged,
        SystemFlag::Answered,
        SystemFlag::Seen,
        SystemFlag::Deleted,
    ];

    /// Its name, with `\`.
    pub fn name(self) -> &'static [u8]
        ensures { result.now ≡ flag_name_of self }
    {
        match self {
            SystemFlag::Draft => b"\\Draft",
            SystemFlag::Flagged => b"\\Flagged",
            SystemFlag::Answered => b"\\Answered",
            SystemFlag::Seen => b"\\Seen",
            SystemFlag::Deleted => b"\\Deleted",
        }
    }

    /// Its letter in the name of a Maildir's file.
    pub fn letter(self) -> u8
        ensures { result ≡ flag_letter_of self }
    {
        match self {
            SystemFlag::Draft => b'D',
            SystemFlag::Flagged => b'F',
            SystemFlag::Answered => b'R',
            SystemFlag::Seen => b'S',
            SystemFlag::Deleted => b'T',
        }
    }

    /// Whether the text is the name of a system flag, in any ASCII case.
    pub(crate) fn is_one(name: &[u8]) -> bool
        ensures { result ≡ is_system name.now }
    {
        SystemFlag::ALL
            .iter()
            .any(|system| are_same(system.name(), name))
    }
}
