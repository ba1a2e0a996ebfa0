//! The tokens that are still to be read.
ghost use Rattle.std.specs.Prelude.{◌≡◌, List, [], ◌∷◌, length, MatchOption, IfOk, OnOk};
ghost use Rattle.sieve_syntax.specs.declared.table.keyword.Keyword.{Keyword};
ghost use Rattle.sieve_lex.specs.Contents.{contents};
ghost use Rattle.sieve_syntax.specs.Extension.EncodedCharacter.{as_read};
ghost use Rattle.sieve_syntax.specs.Lexemes.{IsFirstLexeme, Lexemes, keyword, mark, lexemes_of, lexeme_view};
ghost use Rattle.sieve_syntax.specs.Parsing.{IfParseFault};

use crate::error::ParseError;
use crate::extension::encoded_character::{Decoding, seen_of};
use crate::parser::argument::Argument;
use crate::parser::lexeme::Lexeme;
use crate::table::keyword::Keyword;
use sieve_lex::{Cursor, FaultKind, Mark, Packed};
use std::alloc::Global;
use std::marker::Model;
use std::mem;

/// The tokens that are still to be read. Contracts see what they are read as.
#[derive(Drop)]
pub struct Reader<'a> {
    /// What the first of them is read as, so that each name is looked up once, however often it is looked at.
    first: Option<Lexeme<'a>>,
    /// The tokens after the first one.
    rest: Cursor<'a>,
    /// How their strings are read.
    decoding: Decoding,
    /// Room for the arguments of the next command or test, which is reserved once and reused.
    room: Vec<Argument<'a>>,
}

impl<'a> Model for Reader<'a> {
    ghost use Rattle.std.specs.Prelude.{List};
    ghost use Rattle.sieve_syntax.specs.Extension.EncodedCharacter.{lexemes_as_read};
    ghost use Rattle.sieve_syntax.specs.Lexemes.{Lexeme, lexemes_of, with_first};

    ghost Value = { List Lexeme };

    ghost view = { λ r. with_first r.first (lexemes_as_read r.decoding (lexemes_of r.rest)) };
}

impl<'a> Reader<'a> {
    /// A reader before the first of these tokens.
    pub(crate) fn new(alloc: Global, tokens: &'a Packed) -> Reader<'a>
        ensures { result ≡ as_read (lexemes_of (contents tokens.now)) }
    {
        let all = tokens.cursor();
        match all.split_first() {
            Some((content, rest)) => Reader {
                first: Some(seen_of(content, Decoding::Open)),
                rest,
                decoding: Decoding::Open.after(content),
                room: Vec::new(alloc),
            },
            None => Reader {
                first: None,
                rest: all,
                decoding: Decoding::Open,
                room: Vec::new(alloc),
            },
        }
    }

    /// The number of tokens that are left.
    pub(crate) fn left(&self) -> usize
        ensures { result ≡ length self.now }
    {
        match self.first {
            Some(_) => self.rest.left() + 1,
            None => 0,
        }
    }

    /// The next lexeme; `None` at the end. Constant time.
    pub(crate) fn first(&self) -> Option<Lexeme<'a>>
        ensures { IsFirstLexeme result self.now }
    {
        self.first
    }

    /// Takes the next lexeme; `None` at the end.
    pub(crate) fn next(&mut self) -> Option<Lexeme<'a>>
        ensures { MatchOption result ((self.old ≡ []) × (self.new ≡ self.old)) (λ first. self.old ≡ lexeme_view first ∷ self.new) }
    {
        let first = self.first?;
        match self.rest.split_first() {
            Some((content, rest)) => {
                self.first = Some(seen_of(content, self.decoding));
                self.decoding = self.decoding.after(content);
                self.rest = rest;
            }
            None => self.first = None,
        }
        Some(first)
    }

    /// Takes empty room for arguments: that which was given back last, if there is any.
    pub(crate) fn take_room(&mut self, alloc: Global) -> Vec<Argument<'a>>
        ensures none { result.items ≡ [] }
        ensures kept { self.new ≡ self.old }
    {
        let mut room = mem::replace(&mut self.room, Vec::new(alloc));
        room.clear();
        room
    }

    /// Keeps the room of arguments that have been read for the next ones.
    pub(crate) fn keep_room(&mut self, room: Vec<Argument<'a>>)
        ensures { self.new ≡ self.old }
    {
        self.room = room;
    }

    /// Reads this mark.
    pub(crate) fn read_mark(&mut self, wanted: Mark) -> Result<(), ParseError>
        ensures found { OnOk result (self.old ≡ mark wanted ∷ self.new) }
        ensures fault { IfParseFault result ((to : Lexemes) → self.old ≡ mark wanted ∷ to → ⊥) }
    {
        match self.next() {
            Some(Lexeme::Mark(mark)) if mark == wanted => Ok(()),
            _ => Err(ParseError::Fault(FaultKind::Unexpected)),
        }
    }

    /// Reads an identifier.
    pub(crate) fn read_keyword(&mut self) -> Result<Keyword, ParseError>
        ensures found { IfOk result (λ name. self.old ≡ keyword name ∷ self.new) }
        ensures fault { IfParseFault result ((name : Keyword) (to : Lexemes) → self.old ≡ keyword name ∷ to → ⊥) }
    {
        match self.next() {
            Some(Lexeme::Keyword(name)) => Ok(name),
            _ => Err(ParseError::Fault(FaultKind::Unexpected)),
        }
    }

    /// Reads the end: a fault if anything is left.
    pub(crate) fn read_end(&mut self) -> Result<(), ParseError>
        ensures found { OnOk result (self.old ≡ []) }
        ensures fault { IfParseFault result (self.old ≡ [] → ⊥) }
    {
        match self.next() {
            None => Ok(()),
            Some(_) => Err(ParseError::Fault(FaultKind::Unexpected)),
        }
    }
}
