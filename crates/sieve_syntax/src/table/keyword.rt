//! The names of commands and tests (RFC 5228, 2.4, 2.9 and 5).
ghost use Rattle.std.specs.Prelude.{◌≡◌};
ghost use Rattle.sieve_syntax.specs.Lexemes.{same_name, sieve_keyword_of};

/// The name of a command or of a test.
#[derive(Clone, Copy)]
pub enum Keyword {
    Require,
    If,
    Elsif,
    Else,
    Stop,
    Keep,
    Discard,
    FileInto,
    Redirect,
    Vacation,
    True,
    False,
    Not,
    AllOf,
    AnyOf,
    Size,
    Exists,
    Header,
    Address,
    Envelope,
    MailboxExists,
    Date,
    CurrentDate,
    SetFlag,
    AddFlag,
    RemoveFlag,
    HasFlag,
    /// Any other identifier.
    Other,
}

/// Whether the name is this keyword, ignoring ASCII case (RFC 5228, 2.1). Names of another length aren't looked at.
#[inline(always)]
pub(crate) fn is_name(name: &[u8], keyword: &[u8]) -> bool
    ensures { result ≡ same_name name.now keyword.now }
{
    name.len() == keyword.len() && name.eq_ignore_ascii_case(keyword)
}

/// The command or the test with this name.
pub(crate) fn keyword_named(name: &[u8]) -> Keyword
    ensures { result ≡ sieve_keyword_of name.now }
{
    if is_name(name, b"require") {
        Keyword::Require
    } else if is_name(name, b"if") {
        Keyword::If
    } else if is_name(name, b"elsif") {
        Keyword::Elsif
    } else if is_name(name, b"else") {
        Keyword::Else
    } else if is_name(name, b"stop") {
        Keyword::Stop
    } else if is_name(name, b"keep") {
        Keyword::Keep
    } else if is_name(name, b"discard") {
        Keyword::Discard
    } else if is_name(name, b"fileinto") {
        Keyword::FileInto
    } else if is_name(name, b"redirect") {
        Keyword::Redirect
    } else if is_name(name, b"vacation") {
        Keyword::Vacation
    } else if is_name(name, b"true") {
        Keyword::True
    } else if is_name(name, b"false") {
        Keyword::False
    } else if is_name(name, b"not") {
        Keyword::Not
    } else if is_name(name, b"allof") {
        Keyword::AllOf
    } else if is_name(name, b"anyof") {
        Keyword::AnyOf
    } else if is_name(name, b"size") {
        Keyword::Size
    } else if is_name(name, b"exists") {
        Keyword::Exists
    } else if is_name(name, b"header") {
        Keyword::Header
    } else if is_name(name, b"address") {
        Keyword::Address
    } else if is_name(name, b"envelope") {
        Keyword::Envelope
    } else if is_name(name, b"mailboxexists") {
        Keyword::MailboxExists
    } else if is_name(name, b"date") {
        Keyword::Date
    } else if is_name(name, b"currentdate") {
        Keyword::CurrentDate
    } else if is_name(name, b"setflag") {
        Keyword::SetFlag
    } else if is_name(name, b"addflag") {
        Keyword::AddFlag
    } else if is_name(name, b"removeflag") {
        Keyword::RemoveFlag
    } else if is_name(name, b"hasflag") {
        Keyword::HasFlag
    } else {
        Keyword::Other
    }
}
