//! What the grammar sees of a token: keywords instead of names.
ghost use Rattle.std.specs.Prelude.{◌≡◌};
ghost use Rattle.sieve_lex.specs.Contents.{content_view};
ghost use Rattle.sieve_syntax.specs.Lexemes.{lexeme_of, lexeme_view};

use crate::table::keyword::{Keyword, keyword_named};
use crate::table::tag::{Tag, tag_named};
use sieve_lex::{ContentRef, Mark};

/// What the grammar sees of a token, borrowing the octets that it says.
#[derive(Clone, Copy)]
pub enum Lexeme<'a> {
    Keyword(Keyword),
    Tag(Tag),
    Number(u64),
    Text(&'a [u8]),
    /// A string as it is written, to be decoded.
    Encoded(&'a [u8]),
    Mark(Mark),
}

/// What the grammar sees of this token. Time is linear in the length of a name; takes no memory.
#[inline(always)]
pub(crate) fn lexeme_of<'a>(content: ContentRef<'a>) -> Lexeme<'a>
    ensures { lexeme_view result ≡ lexeme_of (content_view content.entry) }
{
    match content {
        ContentRef::Identifier(name) => Lexeme::Keyword(keyword_named(name)),
        ContentRef::Tag(name) => Lexeme::Tag(tag_named(name)),
        ContentRef::Number(number) => Lexeme::Number(number),
        ContentRef::Text(value) => Lexeme::Text(value),
        ContentRef::Mark(mark) => Lexeme::Mark(mark),
    }
}
