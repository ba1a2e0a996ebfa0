//! References to variables (RFC 5229, section 3): where they stand in a string, and what stands in them.
ghost use Rattle.std.specs.Prelude.{◌≡◌, ◌↔◌, ℕ, ◌+◌, ◌<◌, ◌≤◌, List, length, drop, slice_index, true, min, IsTrue, MatchOption, IfOk};
ghost use Rattle.std.specs.List.{list_all};
ghost use Rattle.std.specs.Char.{is_ascii_digit};
ghost use Rattle.octets.specs.Decimal.{number_of};
ghost use Rattle.sieve_template.specs.Templates as templates;
ghost use Rattle.sieve_template.specs.Templates.{IsNumVariable, IsIdentifier, IsVariableName, IsInBraces, BeginsWithReference};
ghost use Rattle.sieve_template.specs.Reading.{name_run, IsNameOf, RefersBy, NamesClose, BeginsInBraces, StandsInBraces, IsPathTo, StandsAtPlace, NoReferenceIn};
ghost use Rattle.sieve_template.specs.declared.template.Piece.{Piece};

use crate::limits::{MAX_MATCH_VARIABLE, MAX_VARIABLE_NAME};
use crate::template::Piece;
use octets::Octets;
use std::alloc::{AllocError, Global};

// What a name is.
#[derive(Clone, Copy, Debug)]
enum NameKind {
    Number,
    Identifier,
}

// What stands in a reference.
#[derive(Clone, Copy, Debug)]
pub(crate) enum ReferenceKind {
    ByName,
    ByNumber,
    ByPath,
}

/// A reference in a string.
#[derive(Clone, Copy, Debug)]
pub(crate) struct Reference<'t> {
    pub(crate) kind: ReferenceKind,
    // What stands between the braces.
    pub(crate) inside: &'t [u8],
    // The place behind it.
    pub(crate) end: usize,
}

// ALPHA / DIGIT / "_"
fn is_variable_octet(octet: u8) -> bool
    ensures { result ≡ templates.is_variable_octet octet }
{
    octet.is_ascii_alphanumeric() || octet == b'_'
}

// How many octets of names a text begins with.
fn name_len(text: &[u8]) -> usize
    ensures length { result ≡ name_run text.now }
    ensures within { result ≤ length text.now }
{
    let mut count = 0;
    while count < text.len() {
        if !is_variable_octet(text[count]) {
            return count;
        }
        count += 1;
    }
    count
}

fn are_digits(text: &[u8]) -> bool
    ensures { result ≡ list_all is_ascii_digit text.now }
{
    text.iter().all(|octet| octet.is_ascii_digit())
}

// What octets of names are.
fn name_kind(name: &[u8]) -> Option<NameKind>
    requires { list_all templates.is_variable_octet name.now ≡ true }
    ensures { MatchOption result (IsVariableName name.now → ⊥) (λ kind. IsNameOf kind name.now) }
{
    if name.is_empty() {
        return None;
    }
    if !name[0].is_ascii_digit() {
        return Some(NameKind::Identifier);
    }
    if !are_digits(name) {
        return None;
    }
    Some(NameKind::Number)
}

fn are_variable_octets(name: &[u8]) -> bool
    ensures { result ≡ list_all templates.is_variable_octet name.now }
{
    name.iter().all(|octet| is_variable_octet(*octet))
}

fn is_identifier(name: &[u8]) -> bool
    ensures { IsTrue result ↔ IsIdentifier name.now }
{
    if name.is_empty() {
        return false;
    }
    if name[0].is_ascii_digit() {
        return false;
    }
    are_variable_octets(name)
}

/// Whether a text is the name of a variable that a script may set: a letter of US-ASCII or `_`, then letters, digits and `_` (RFC 5229,
/// section 3), and no longer than is accepted. Linear; takes no memory.
pub fn is_variable_name(name: &[u8]) -> bool
    ensures { IsTrue result ↔ (IsIdentifier name.now × (length name.now ≤ MAX_VARIABLE_NAME)) }
{
    name.len() <= MAX_VARIABLE_NAME && is_identifier(name)
}

// The place behind the closing brace, if names stand from `from` on, one or more with a dot between them, and then the brace.
fn names_end(text: &[u8], from: usize) -> Option<usize>
    requires { from ≤ length text.now }
    ensures { MatchOption result ((after : List ℕ) → NamesClose (drop from text.now) after → ⊥)
        (λ end. (from < end) × (end ≤ length text.now) × NamesClose (drop from text.now) (drop end text.now)) }
{
    let mut at = from;
    while at < text.len() {
        let end = at + name_len(&text[at..]);
        let Some(_) = name_kind(&text[at..end]) else {
            return None;
        };
        if end == text.len() {
            return None;
        }
        if text[end] == b'}' {
            return Some(end + 1);
        }
        if text[end] != b'.' {
            return None;
        }
        at = end + 1;
    }
    None
}

// The reference that begins at a place.
fn read_reference(text: &[u8], place: usize) -> Option<Reference<'_>>
    requires { place < length text.now }
    ensures { MatchOption result ((piece : Piece) (after : List ℕ) → BeginsWithReference piece (drop place text.now) after → ⊥)
        (λ reference. StandsAtPlace text.now place reference) }
{
    if text.len() - place < 3 {
        return None;
    }
    if text[place] != b'$' {
        return None;
    }
    if text[place + 1] != b'{' {
        return None;
    }
    read_inside(text, place + 2)
}

// What a name by itself refers by.
fn single(kind: NameKind) -> ReferenceKind
    ensures { (name : List ℕ) → IsNameOf kind name → RefersBy result name }
{
    match kind {
        NameKind::Number => ReferenceKind::ByNumber,
        NameKind::Identifier => ReferenceKind::ByName,
    }
}

// The reference whose inside begins at a place.
fn read_inside(text: &[u8], from: usize) -> Option<Reference<'_>>
    requires { from ≤ length text.now }
    ensures { MatchOption result ((piece : Piece) (after : List ℕ) → BeginsInBraces piece (drop from text.now) after → ⊥)
        (λ reference. StandsInBraces text.now from reference) }
{
    let end = from + name_len(&text[from..]);
    let Some(kind) = name_kind(&text[from..end]) else {
        return None;
    };
    if end == text.len() {
        return None;
    }
    if text[end] == b'}' {
        return Some(Reference {
            kind: single(kind),
            inside: &text[from..end],
            end: end + 1,
        });
    }
    if text[end] != b'.' {
        return None;
    }
    let NameKind::Identifier = kind else {
        return None;
    };
    read_path(text, from, end)
}

// The reference whose inside begins at a place with an identifier, behind which a dot stands at another place.
fn read_path(text: &[u8], from: usize, dot: usize) -> Option<Reference<'_>>
    requires order { from ≤ dot }
    requires within { dot < length text.now }
    ensures { MatchOption result ((after : List ℕ) → NamesClose (drop (dot + 1) text.now) after → ⊥)
        (λ reference. IsPathTo text.now from dot reference) }
{
    match names_end(text, dot + 1) {
        Some(end) => Some(Reference {
            kind: ReferenceKind::ByPath,
            inside: &text[from..end - 1],
            end,
        }),
        None => None,
    }
}

/// The first reference in a text from a place on, with the place at which it begins. Time is linear in the octets up to its end,
/// since nothing that is read of a reference holds another dollar.
pub(crate) fn find_reference(text: &[u8], from: usize) -> Option<(usize, Reference<'_>)>
    requires { from ≤ length text.now }
    ensures { MatchOption result (NoReferenceIn text.now from (length text.now))
        (λ found. (from ≤ found.0) × NoReferenceIn text.now from found.0 × StandsAtPlace text.now found.0 found.1) }
{
    for place in from..text.len() {
        if let Some(reference) = read_reference(text, place) {
            return Some((place, reference));
        }
    }
    None
}

// The number that digits write, or 10 if it is greater.
fn match_number(digits: &[u8]) -> u32
    requires { IsNumVariable digits.now }
    ensures { result ≡ min (number_of digits.now) (MAX_MATCH_VARIABLE + 1) }
{
    let mut number = 0;
    for octet in digits {
        if octet.is_ascii_digit() {
            number = (number * 10 + (*octet - b'0') as u32).min(MAX_MATCH_VARIABLE + 1);
        }
    }
    number
}

/// The piece that a reference is.
pub(crate) fn piece_of(alloc: Global, reference: &Reference) -> Result<Piece, AllocError>
    requires { RefersBy reference.now.kind reference.now.inside.now }
    ensures { IfOk result (λ piece. IsInBraces piece reference.now.inside.now) }
{
    match reference.kind {
        ReferenceKind::ByName => Ok(Piece::Variable(Octets::from_slice(alloc, reference.inside)?)),
        ReferenceKind::ByNumber => Ok(Piece::Match(match_number(reference.inside))),
        ReferenceKind::ByPath => Ok(Piece::Namespaced(Octets::from_slice(
            alloc,
            reference.inside,
        )?)),
    }
}
