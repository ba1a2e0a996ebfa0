use crate::said::Said;

/// What a token is and says (RFC 5228, 8.1).
#[derive(Drop)]
pub enum Content<'a> {
    /// A name as it was written: a letter or `_`, then letters, digits and `_`.
    Identifier(Said<'a>),
    /// The name after a `:`, as it was written, without the colon.
    Tag(Said<'a>),
    /// The value of a number, including its multiplier `K`, `M` or `G`: at most 2^63 - 1.
    Number(u64),
    /// What a string, quoted or of several lines, stands for.
    Text(Said<'a>),
    /// One of the eight marks.
    Mark(Mark),
}

/// A token of one octet that stands for itself (RFC 5228, 8.1).
#[derive(Clone, Copy, Debug, PartialEq, Eq)]
pub enum Mark {
    /// `;`
    Semicolon,
    /// `{`
    OpenBrace,
    /// `}`
    CloseBrace,
    /// `[`
    OpenBracket,
    /// `]`
    CloseBracket,
    /// `(`
    OpenParen,
    /// `)`
    CloseParen,
    /// `,`
    Comma,
}

/// A token of a script and where it is.
#[derive(Drop)]
pub struct Token<'a> {
    /// What it is and says.
    pub content: Content<'a>,
    /// The index of its first octet in the text, from 0.
    pub start: usize,
    /// The index after its last octet.
    pub end: usize,
    /// The line of its first octet, counted from 1: a line ends at its LF.
    pub line: u64,
}
