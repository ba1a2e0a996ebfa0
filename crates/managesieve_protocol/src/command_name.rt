//! The names of the commands, and what may follow each.
ghost use Rattle.std.specs.Prelude.{◌≡◌, ◌∷◌, ◌++◌, [], map, true, false, MatchOption};
ghost use Rattle.std.specs.Char.{to_ascii_uppercase};
ghost use Rattle.managesieve_protocol.specs.Machine.{command_name, params_of, command_names, command_named, rows, command_rows_of, begins, begins_row, same_word};
ghost use Rattle.managesieve_protocol.specs.Shown.{params_shown, IsExtension};

/// The name of a command (RFC 5804, section 2).
#[derive(Clone, Copy)]
pub enum CommandName {
    Authenticate,
    Capability,
    CheckScript,
    DeleteScript,
    GetScript,
    HaveSpace,
    ListScripts,
    Logout,
    Noop,
    PutScript,
    RenameScript,
    SetActive,
    Unauthenticate,
}

/// What may still follow on a command's line before its end.
#[derive(Clone, Copy)]
pub enum Params {
    /// Nothing.
    LineEnd,
    /// Perhaps a string.
    MaybeText,
    /// A string.
    Text,
    /// A string, and perhaps another.
    TextMaybeText,
    /// Two strings.
    TwoTexts,
    /// A string and a number.
    TextNumber,
    /// A number.
    Number,
}

const VERBS: [CommandName; 13] = [
    CommandName::Authenticate,
    CommandName::Capability,
    CommandName::CheckScript,
    CommandName::DeleteScript,
    CommandName::GetScript,
    CommandName::HaveSpace,
    CommandName::ListScripts,
    CommandName::Logout,
    CommandName::Noop,
    CommandName::PutScript,
    CommandName::RenameScript,
    CommandName::SetActive,
    CommandName::Unauthenticate,
];

impl CommandName {
    /// The name in upper case.
    pub(crate) fn word(self) -> &'static [u8]
        ensures { result.now ≡ command_name self }
    {
        match self {
            CommandName::Authenticate => b"AUTHENTICATE",
            CommandName::Capability => b"CAPABILITY",
            CommandName::CheckScript => b"CHECKSCRIPT",
            CommandName::DeleteScript => b"DELETESCRIPT",
            CommandName::GetScript => b"GETSCRIPT",
            CommandName::HaveSpace => b"HAVESPACE",
            CommandName::ListScripts => b"LISTSCRIPTS",
            CommandName::Logout => b"LOGOUT",
            CommandName::Noop => b"NOOP",
            CommandName::PutScript => b"PUTSCRIPT",
            CommandName::RenameScript => b"RENAMESCRIPT",
            CommandName::SetActive => b"SETACTIVE",
            CommandName::Unauthenticate => b"UNAUTHENTICATE",
        }
    }

    /// What may follow the name.
    pub(crate) fn params(self) -> Params
        ensures { params_shown result ≡ params_of self }
    {
        match self {
            CommandName::Authenticate => Params::TextMaybeText,
            CommandName::Capability
            | CommandName::ListScripts
            | CommandName::Logout
            | CommandName::Unauthenticate => Params::LineEnd,
            CommandName::CheckScript
            | CommandName::DeleteScript
            | CommandName::GetScript
            | CommandName::SetActive => Params::Text,
            CommandName::HaveSpace => Params::TextNumber,
            CommandName::Noop => Params::MaybeText,
            CommandName::PutScript | CommandName::RenameScript => Params::TwoTexts,
        }
    }

    /// The verb with this name, in upper or lower case.
    pub(crate) fn named(name: &[u8]) -> Option<CommandName>
        ensures { result ≡ command_named command_names (map to_ascii_uppercase name.now) }
    {
        find_named(&VERBS, name)
    }

    /// A verb whose name begins with these letters and this one, all in upper case: this one, if it does.
    pub(crate) fn extend(self, letters: &[u8], letter: u8) -> Option<CommandName>
        ensures { IsExtension rows letters.now letter result }
    {
        if goes_on(self.word(), letters, letter) {
            return Some(self);
        }
        // No name has a space or a CR in it.
        if letter == b' ' || letter == b'\r' {
            return None;
        }
        find_extending(&VERBS, letters, letter)
    }
}

// The first of the verbs with this name.
fn find_named(verbs: &[CommandName], name: &[u8]) -> Option<CommandName>
    ensures { result ≡ command_named verbs.now (map to_ascii_uppercase name.now) }
{
    let mut rest = verbs;
    while let Some((verb, more)) = rest.split_first() {
        if spells(name, verb.word()) {
            return Some(*verb);
        }
        rest = more;
    }
    None
}

// The first of the verbs whose name begins with these letters and this one.
fn find_extending(verbs: &[CommandName], letters: &[u8], letter: u8) -> Option<CommandName>
    ensures { IsExtension (command_rows_of verbs.now) letters.now letter result }
{
    let mut rest = verbs;
    while let Some((verb, more)) = rest.split_first() {
        if goes_on(verb.word(), letters, letter) {
            return Some(*verb);
        }
        rest = more;
    }
    None
}

// Whether the name is the word, ignoring case.
fn spells(name: &[u8], word: &[u8]) -> bool
    ensures { result ≡ same_word word.now (map to_ascii_uppercase name.now) }
{
    let mut unread = name;
    let mut wanted = word;
    while let Some((letter, more)) = unread.split_first() {
        let Some((other, rest)) = wanted.split_first() else {
            return false;
        };
        if *other != letter.to_ascii_uppercase() {
            return false;
        }
        unread = more;
        wanted = rest;
    }
    wanted.is_empty()
}

// Whether the word begins with these letters and this one.
fn goes_on(word: &[u8], letters: &[u8], letter: u8) -> bool
    ensures { result ≡ begins (letters.now ++ letter ∷ []) word.now }
{
    let mut unread = letters;
    let mut wanted = word;
    while let Some((next, more)) = unread.split_first() {
        let Some((other, rest)) = wanted.split_first() else {
            return false;
        };
        if *next != *other {
            return false;
        }
        unread = more;
        wanted = rest;
    }
    match wanted.first() {
        Some(other) => letter == *other,
        None => false,
    }
}
