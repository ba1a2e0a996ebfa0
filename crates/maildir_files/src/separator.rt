//! What separates the levels of a folder's name.
ghost use Rattle.std.specs.Prelude.{◌≡◌};
ghost use Rattle.maildir_files.specs.Spelling.{separator_octet};

/// The separator of an IMAP server's namespace: what is between the levels of a folder's name.
#[derive(Clone, Copy)]
pub enum Separator {
    /// `.`
    Dot,
    /// `/`
    Slash,
}

impl Separator {
    /// The separator as an octet.
    pub(crate) fn octet(self) -> u8
        ensures { result ≡ separator_octet self }
    {
        match self {
            Separator::Dot => b'.',
            Separator::Slash => b'/',
        }
    }
}
