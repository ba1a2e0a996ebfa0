ghost use Rattle.std.specs.Prelude.{◌≡◌, IfOk};
ghost use Rattle.sieve_lex.specs.Faults.{fault_line};

use octets::{Octets, write_decimal};
use std::alloc::{AllocError, AllocFailed, Global};
use std::fmt;
use thiserror::Error;

/// Why a text isn't a valid script.
#[derive(Clone, Copy, PartialEq, Eq)]
pub enum FaultKind {
    /// The text is not UTF-8.
    NotUtf8 = 1,
    /// An octet that isn't allowed where it is: NUL, a CR that no LF follows, or an octet that begins no token.
    BadByte = 2,
    /// A string without its end.
    OpenString = 3,
    /// A `/* */` comment without its end.
    OpenComment = 4,
    /// A number above 2^63 - 1, including its multiplier.
    NumberTooLarge = 5,
    /// A token that isn't allowed where it is.
    Unexpected = 6,
    /// An identifier that isn't the name of a command.
    UnknownCommand = 7,
    /// An identifier that isn't the name of a test.
    UnknownTest = 8,
    /// A tag that the command or test does not have.
    UnknownTag = 9,
    /// A tag, or one of a group of tags that exclude each other, for the second time.
    DoubleTag = 10,
    /// Fewer arguments than the command or test has.
    MissingArgument = 11,
    /// More arguments than the command or test has.
    ExtraArgument = 12,
    /// An argument of a form or a value other than expected.
    WrongArgument = 13,
    /// A command, test, tag or comparator whose capability is not required.
    NotRequired = 14,
    /// A capability in `require` that is not known.
    UnknownCapability = 15,
    /// A `require` after another command.
    LateRequire = 16,
    /// An `elsif` or `else` that isn't directly after an `if` or `elsif`.
    StrayElse = 17,
    /// More levels of blocks, test lists or `not` than are accepted.
    TooDeep = 18,
    /// A mailbox name that is not accepted.
    BadMailbox = 19,
    /// An outbound address that is not accepted.
    BadAddress = 20,
    /// A reason with `:mime` that isn't a MIME entity of the expected form.
    BadMime = 21,
    /// A line of a vacation reason with more than 998 octets.
    LongReasonLine = 22,
    /// A string with an encoded character that doesn't exist.
    BadCharacter = 23,
}

impl FaultKind {
    ghost use Rattle.sieve_lex.specs.Faults.{fault_number, fault_text};

    /// The kind's number, from 1 to 23.
    pub fn number(self) -> u8
        ensures { result ≡ fault_number self }
    {
        self as u8
    }

    /// The kind in words for the script's author.
    pub fn text(self) -> &'static str
        ensures { result.now ≡ fault_text self }
    {
        match self {
            FaultKind::NotUtf8 => "not UTF-8",
            FaultKind::BadByte => "bad octet",
            FaultKind::OpenString => "string is not closed",
            FaultKind::OpenComment => "comment is not closed",
            FaultKind::NumberTooLarge => "number too large",
            FaultKind::Unexpected => "unexpected token",
            FaultKind::UnknownCommand => "unknown command",
            FaultKind::UnknownTest => "unknown test",
            FaultKind::UnknownTag => "unknown tag",
            FaultKind::DoubleTag => "tag given twice",
            FaultKind::MissingArgument => "missing argument",
            FaultKind::ExtraArgument => "too many arguments",
            FaultKind::WrongArgument => "wrong argument",
            FaultKind::NotRequired => "extension not required",
            FaultKind::UnknownCapability => "unknown capability",
            FaultKind::LateRequire => "require after another command",
            FaultKind::StrayElse => "elsif or else without if",
            FaultKind::TooDeep => "nested too deep",
            FaultKind::BadMailbox => "bad mailbox name",
            FaultKind::BadAddress => "bad address",
            FaultKind::BadMime => "bad MIME reason",
            FaultKind::LongReasonLine => "reason line too long",
            FaultKind::BadCharacter => "no such character",
        }
    }
}

/// The text of the kind.
impl fmt::Display for FaultKind {
    fn fmt<W: fmt::Write>(&self, f: &mut fmt::Formatter<W>) -> fmt::Result {
        f.write_str(self.text())
    }
}

impl fmt::Debug for FaultKind {
    fn fmt<W: fmt::Write>(&self, f: &mut fmt::Formatter<W>) -> fmt::Result {
        f.write_str(self.text())
    }
}

/// Why and where a text isn't a valid script. It is displayed as `line 3: unknown test`.
#[derive(Clone, Copy, Debug, PartialEq, Eq, Error)]
#[error("line {line}: {kind}")]
pub struct ScriptFault {
    /// The line of the fault, counted from 1: a line ends at its LF.
    pub line: u64,
    /// What is wrong there.
    pub kind: FaultKind,
}

impl ScriptFault {
    /// The fault in words for the script's author: `line 3: unknown test`.
    pub fn told(&self, alloc: Global) -> Result<Octets, AllocError>
        ensures { IfOk result (λ text. text ≡ fault_line self.now.line self.now.kind) }
    {
        let mut text = Octets::from_slice(alloc, b"line ")?;
        write_decimal(&mut text, self.line)?;
        text.extend_from_slice(b": ")?;
        text.extend_from_slice(self.kind.text().as_bytes())?;
        Ok(text)
    }
}

/// Why a script couldn't be read: lack of memory, or a fault of the script.
#[derive(Debug, Drop, PartialEq, Eq, Error)]
pub enum ScriptError {
    /// An allocation failed.
    #[error("out of memory")]
    Memory,
    /// The text isn't a valid script.
    #[error("{0}")]
    Fault(ScriptFault),
}

impl From<AllocError> for ScriptError {
    ghost use Rattle.sieve_lex.specs.declared.fault.ScriptError.TheVariants.{Memory};

    ghost from_gives = { λ _ e. e ≡ Memory };

    fn from(_refused: AllocError) -> ScriptError {
        ScriptError::Memory
    }
}

impl<T: Drop> From<AllocFailed<T>> for ScriptError {
    ghost use Rattle.sieve_lex.specs.declared.fault.ScriptError.TheVariants.{Memory};

    ghost from_gives = { λ _ e. e ≡ Memory };

    fn from(_refused: AllocFailed<T>) -> ScriptError {
        ScriptError::from(AllocError)
    }
}
