//! `encoded-character`: which strings of a script are decoded (RFC 5228, 2.4.2.4).
ghost use Rattle.std.specs.Prelude.{◌≡◌};
ghost use Rattle.sieve_lex.specs.Contents.{content_view};
ghost use Rattle.sieve_syntax.specs.Lexemes.{lexeme_of, lexeme_view};
ghost use Rattle.sieve_syntax.specs.Extension.EncodedCharacter.{decoding_after, lexeme_as_read};
ghost use Rattle.sieve_syntax.specs.declared.extension.encoded_character.Decoding.TheVariants.{Open};

use crate::parser::lexeme::{Lexeme, lexeme_of};
use crate::table::keyword::{Keyword, keyword_named};
use sieve_lex::{ContentRef, Mark};

/// How the strings that come next are read.
///
/// Syntax: in a string "${hex:" hex-pair-seq "}" and "${unicode:" unicode-hex-seq "}"; requires `encoded-character`
/// (RFC 5228, 2.4.2.4).
#[derive(Clone, Copy)]
pub(crate) enum Decoding {
    /// As they are written: only requires precede, and none names `encoded-character`.
    Open,
    /// As they are written: the `require` that names it hasn't ended yet.
    Named,
    /// Decoded.
    On,
    /// As they are written: the requires are over, and none named it.
    Off,
}

impl Decoding {
    /// How the strings after this token are read. Time is linear in the length of a name; takes no memory.
    pub(crate) fn after(self, content: ContentRef<'_>) -> Decoding
        ensures { result ≡ decoding_after self (lexeme_of (content_view content.entry)) }
    {
        match self {
            Decoding::Open => after_open(content),
            Decoding::Named => match content {
                ContentRef::Mark(Mark::Semicolon) => Decoding::On,
                _ => Decoding::Named,
            },
            Decoding::On => Decoding::On,
            Decoding::Off => Decoding::Off,
        }
    }
}

/// How the strings after this token are read, if only requires precede it.
fn after_open(content: ContentRef<'_>) -> Decoding
    ensures { result ≡ decoding_after Open (lexeme_of (content_view content.entry)) }
{
    match content {
        ContentRef::Identifier(name) => match keyword_named(name) {
            Keyword::Require => Decoding::Open,
            _ => Decoding::Off,
        },
        ContentRef::Text(name) if name == b"encoded-character".as_slice() => Decoding::Named,
        _ => Decoding::Open,
    }
}

/// What this token is read as. Time is linear in the length of a name; takes no memory.
#[inline(always)]
pub(crate) fn seen_of<'a>(content: ContentRef<'a>, decoding: Decoding) -> Lexeme<'a>
    ensures { lexeme_view result ≡ lexeme_as_read decoding (lexeme_of (content_view content.entry)) }
{
    match (decoding, content) {
        (Decoding::On, ContentRef::Text(written)) => Lexeme::Encoded(written),
        _ => lexeme_of(content),
    }
}
