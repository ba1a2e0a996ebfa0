//! The tokens of a text in little memory: what they are and what they say, without their positions.
ghost use Rattle.std.specs.Prelude.{◌≡◌, ◌+◌, ◌^◌, ◌<◌, ◌≤◌, ℕ, List, [], ◌∷◌, ◌++◌, length, take, drop, slice_index, IfOk, OnOk, MatchOption};
ghost use Rattle.sieve_lex.specs.declared.token.Token.{Token};
ghost use Rattle.sieve_lex.specs.Finding.{IfFault, IfFaultLine};
ghost use Rattle.sieve_lex.specs.Spelling.{SpellsFrom, SpellsTokens};
ghost use Rattle.sieve_lex.specs.Text.{line_ends};
ghost use Rattle.sieve_lex.specs.Contents.{contents, contents_of, content_view, line_at, Appends};

use crate::fault::ScriptError;
use crate::scanner::{end_line, next, next_piece};
use crate::text::text_fault;
use crate::token::{Content, Mark, Token};
use std::alloc::{AllocError, Global};
use std::marker::Model;

/// What a packed token is. What it says is in the rows of [`Packed`].
#[derive(Clone, Copy)]
pub(crate) enum PackedKind {
    /// Its name is the next octets, as many as the next number says.
    Identifier,
    /// Its name is kept as that of an identifier.
    Tag,
    /// Its value is the next number.
    Number,
    /// What it stands for is kept as the name of an identifier.
    Text,
    /// It says nothing more.
    Mark(Mark),
}

/// The tokens of a text, in order: what they are and what they say, without their positions.
///
/// A token takes a few octets for its kind, 8 more if it isn't a mark, and the octets that it says. In a list each token takes 56.
#[derive(Drop)]
pub struct Packed {
    pub(crate) kinds: Vec<PackedKind>,
    pub(crate) numbers: Vec<u64>,
    pub(crate) octets: Vec<u8>,
}

impl Packed {
    /// The number of tokens.
    pub fn len(&self) -> usize
        ensures { result ≡ length (contents self.now) }
    {
        self.cursor().left()
    }

    /// A cursor before the first token.
    pub fn cursor(&self) -> Cursor<'_>
        ensures { result ≡ contents self.now }
    {
        Cursor {
            kinds: self.kinds.as_slice(),
            rows: Rows {
                numbers: self.numbers.as_slice(),
                octets: self.octets.as_slice(),
            },
        }
    }
}

/// What a packed token is and says: a [`Content`] that borrows the octets of [`Packed`].
#[derive(Clone, Copy)]
pub enum ContentRef<'a> {
    /// A name, as it was written.
    Identifier(&'a [u8]),
    /// A name after a colon, as it was written.
    Tag(&'a [u8]),
    /// The value of a number.
    Number(u64),
    /// What a string stands for.
    Text(&'a [u8]),
    /// One of the eight marks.
    Mark(Mark),
}

/// What the packed tokens that are still to be read say.
#[derive(Clone, Copy)]
pub(crate) struct Rows<'a> {
    pub(crate) numbers: &'a [u64],
    pub(crate) octets: &'a [u8],
}

impl<'a> Rows<'a> {
    /// The first number, or 0 if there is none, and what follows it.
    fn split_number(self) -> (u64, Rows<'a>)
        ensures first { result.0 ≡ slice_index self.entry.numbers.now 0 }
        ensures numbers { result.1.numbers.now ≡ drop 1 self.entry.numbers.now }
        ensures octets { result.1.octets.now ≡ self.entry.octets.now }
    {
        match self.numbers.split_first() {
            Some((first, numbers)) => (*first, Rows { numbers, ..self }),
            None => (0, self),
        }
    }

    /// The first octets, as many as the first number says or all that there are, and what follows them.
    fn split_octets(self) -> (&'a [u8], Rows<'a>)
        ensures first { result.0.now ≡ take (slice_index self.entry.numbers.now 0) self.entry.octets.now }
        ensures numbers { result.1.numbers.now ≡ drop 1 self.entry.numbers.now }
        ensures octets { result.1.octets.now ≡ drop (slice_index self.entry.numbers.now 0) self.entry.octets.now }
    {
        let (len, rest) = self.split_number();
        let len = (len as usize).min(rest.octets.len());
        let (first, octets) = rest.octets.split_at(len);
        (first, Rows { octets, ..rest })
    }
}

/// The packed tokens that are still to be read. Contracts see what they are and what they say.
#[derive(Drop)]
pub struct Cursor<'a> {
    kinds: &'a [PackedKind],
    rows: Rows<'a>,
}

impl<'a> Model for Cursor<'a> {
    ghost use Rattle.std.specs.Prelude.{List};
    ghost use Rattle.sieve_lex.specs.declared.token.Content.{Content};
    ghost use Rattle.sieve_lex.specs.Unpacked.{unpacked};

    ghost Value = { List Content };

    ghost view = { λ c. unpacked c.kinds.now c.rows.numbers.now c.rows.octets.now };
}

impl<'a> Cursor<'a> {
    /// The number of tokens that are left.
    pub fn left(&self) -> usize
        ensures left { result ≡ length self.now }
        ensures small { result < 2 ^ 63 }
    {
        self.kinds.len()
    }

    /// The next token, and what follows it; `None` at the end. Copies nothing.
    #[inline(always)]
    pub fn split_first(&self) -> Option<(ContentRef<'a>, Cursor<'a>)>
        ensures { MatchOption result (self.now ≡ []) (λ found. self.now ≡ content_view found.0 ∷ found.1) }
    {
        let (kind, kinds) = self.kinds.split_first()?;
        let (content, rows) = match *kind {
            PackedKind::Identifier => {
                let (name, rows) = self.rows.split_octets();
                (ContentRef::Identifier(name), rows)
            }
            PackedKind::Tag => {
                let (name, rows) = self.rows.split_octets();
                (ContentRef::Tag(name), rows)
            }
            PackedKind::Number => {
                let (number, rows) = self.rows.split_number();
                (ContentRef::Number(number), rows)
            }
            PackedKind::Text => {
                let (value, rows) = self.rows.split_octets();
                (ContentRef::Text(value), rows)
            }
            PackedKind::Mark(mark) => (ContentRef::Mark(mark), self.rows),
        };
        Some((content, Cursor { kinds, rows }))
    }
}

/// The tokens of a script, as [`tokens`](crate::tokens) returns them, packed: without their positions and lines.
///
/// It returns the same faults, in the same time. Besides the result it takes the memory of one token.
pub fn pack(alloc: Global, text: &[u8]) -> Result<Packed, ScriptError>
    ensures found { IfOk result (λ packed. (ts : List Token) × (SpellsTokens text.now ts × (contents packed ≡ contents_of ts))) }
    ensures only { IfOk result (λ packed. (us : List Token) → SpellsTokens text.now us → contents_of us ≡ contents packed) }
    ensures fault { IfFault result ((ts : List Token) → SpellsTokens text.now ts → ⊥) }
    ensures lines { IfFaultLine result (λ n. (1 ≤ n) × (n ≤ 1 + line_ends text.now)) }
{
    if let Some(fault) = text_fault(text) {
        return Err(ScriptError::Fault(fault));
    }
    pack_tokens(alloc, text)
}

/// The tokens of a text that has no bad octet.
fn pack_tokens(alloc: Global, text: &[u8]) -> Result<Packed, ScriptError>
    ensures found { IfOk result (λ packed. (ts : List Token) × (SpellsFrom text.now 0 ts × (contents packed ≡ contents_of ts))) }
    ensures only { IfOk result (λ packed. (us : List Token) → SpellsFrom text.now 0 us → contents_of us ≡ contents packed) }
    ensures fault { IfFault result ((ts : List Token) → SpellsFrom text.now 0 ts → ⊥) }
    ensures lines { IfFaultLine result (λ n. (1 ≤ n) × (n ≤ 1 + line_ends text.now)) }
{
    let mut packed = Packed {
        kinds: Vec::new(alloc),
        numbers: Vec::new(alloc),
        octets: Vec::new(alloc),
    };
    let mut at = 0;
    'tokens: while let Some(piece) = next_piece(alloc, text, at)? {
        at = piece.end;
        append(&mut packed, piece.content)?;
    }
    Ok(packed)
}

/// Appends what one token is and says.
#[inline(always)]
fn append(packed: &mut Packed, content: Content<'_>) -> Result<(), AllocError>
    ensures { OnOk result (Appends content.entry packed.old packed.new) }
{
    match content {
        Content::Identifier(name) => append_octets(
            packed,
            PackedKind::Identifier,
            name.as_slice(),
        )?,
        Content::Tag(name) => append_octets(packed, PackedKind::Tag, name.as_slice())?,
        Content::Number(number) => {
            packed.kinds.push(PackedKind::Number)?;
            packed.numbers.push(number)?;
        }
        Content::Text(value) => append_octets(packed, PackedKind::Text, value.as_slice())?,
        Content::Mark(mark) => packed.kinds.push(PackedKind::Mark(mark))?,
    }
    Ok(())
}

/// Appends a token that says octets.
#[inline(always)]
fn append_octets(packed: &mut Packed, kind: PackedKind, octets: &[u8]) -> Result<(), AllocError>
    ensures kinds { OnOk result (packed.new.kinds.items ≡ packed.old.kinds.items ++ kind ∷ []) }
    ensures numbers { OnOk result (packed.new.numbers.items ≡ packed.old.numbers.items ++ length octets.now ∷ []) }
    ensures octets { OnOk result (packed.new.octets.items ≡ packed.old.octets.items ++ octets.now) }
{
    packed.kinds.push(kind)?;
    packed.numbers.push(octets.len() as u64)?;
    packed.octets.extend_from_slice(octets)
}

/// The line of the token with this index, from 0, of a script; 1 if it has no such token.
///
/// One pass up to that token. Besides the result it takes the memory of one token.
pub fn line_of(alloc: Global, text: &[u8], index: usize) -> Result<u64, ScriptError>
    ensures found { IfOk result (λ line. (ts : List Token) → SpellsTokens text.now ts → line ≡ line_at index ts) }
    ensures lines { IfOk result (λ n. (1 ≤ n) × (n ≤ 1 + line_ends text.now)) }
    ensures fault { IfFault result ((ts : List Token) → SpellsTokens text.now ts → ⊥) }
    ensures fault_lines { IfFaultLine result (λ n. (1 ≤ n) × (n ≤ 1 + line_ends text.now)) }
{
    let mut at = 0;
    let mut line = 1;
    let mut before = index;
    'tokens: while let Some(token) = next(alloc, text, at, line)? {
        if before == 0 {
            return Ok(token.line);
        }
        before -= 1;
        line = end_line(text, &token);
        at = token.end;
        drop(token);
    }
    Ok(1)
}
