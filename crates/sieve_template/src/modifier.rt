//! The modifiers of `set` (RFC 5229, section 4.1).
ghost use Rattle.std.specs.Prelude.{◌≡◌, ◌↔◌, ℕ, ◌<◌, length, MatchOption, IfOk, IsTrue};
ghost use Rattle.sieve_template.specs.Values.{quoted_text};
ghost use Rattle.sieve_template.specs.Modifiers.{precedence_of, Modifies, RepeatsPrecedence, HaveNoConflict, IsSetTo, first_with, modified_if_any, value_set};

use crate::value::{count_characters, cut_value, end_of_value, is_wildcard};
use octets::{Octets, write_decimal};
use std::alloc::{AllocError, Global};

/// A modifier of `set`.
#[derive(Clone, Copy, Debug, PartialEq, Eq)]
pub enum Modifier {
    /// `:lower`: letters of US-ASCII become small.
    Lower,
    /// `:upper`: letters of US-ASCII become capitals.
    Upper,
    /// `:lowerfirst`: the first octet, if it is a letter of US-ASCII, becomes small.
    LowerFirst,
    /// `:upperfirst`: the first octet, if it is a letter of US-ASCII, becomes a capital.
    UpperFirst,
    /// `:quotewildcard`: `*`, `?` and the backslash get a backslash before them.
    QuoteWildcard,
    /// `:length`: the number of characters, in decimal.
    Length,
}

impl Modifier {
    /// The number by which modifiers are ordered: the highest is applied first.
    pub fn precedence(self) -> u8
        ensures { result ≡ precedence_of self }
    {
        match self {
            Modifier::Lower | Modifier::Upper => 40,
            Modifier::LowerFirst | Modifier::UpperFirst => 30,
            Modifier::QuoteWildcard => 20,
            Modifier::Length => 10,
        }
    }

    /// What the modifier makes of a value. One pass; the only error is lack of memory.
    pub fn apply(self, alloc: Global, value: Octets) -> Result<Octets, AllocError>
        ensures { IfOk result (λ out. Modifies self value out) }
    {
        match self {
            Modifier::Lower => Ok(lower(value)),
            Modifier::Upper => Ok(upper(value)),
            Modifier::LowerFirst => Ok(lower_first(value)),
            Modifier::UpperFirst => Ok(upper_first(value)),
            Modifier::QuoteWildcard => quote_wildcards(alloc, value.as_slice()),
            Modifier::Length => length_of(alloc, value.as_slice()),
        }
    }
}

// With small letters.
fn lower(value: Octets) -> Octets
    ensures { Modifies Modifier.Lower value result }
{
    let mut octets = value.into_vec();
    octets.make_ascii_lowercase();
    Octets::from_vec(octets)
}

// With capitals.
fn upper(value: Octets) -> Octets
    ensures { Modifies Modifier.Upper value result }
{
    let mut octets = value.into_vec();
    octets.make_ascii_uppercase();
    Octets::from_vec(octets)
}

// With a small letter first.
fn lower_first(value: Octets) -> Octets
    ensures { Modifies Modifier.LowerFirst value result }
{
    let mut octets = value.into_vec();
    if !octets.is_empty() {
        let first = octets[0].to_ascii_lowercase();
        octets[0] = first;
    }
    Octets::from_vec(octets)
}

// With a capital first.
fn upper_first(value: Octets) -> Octets
    ensures { Modifies Modifier.UpperFirst value result }
{
    let mut octets = value.into_vec();
    if !octets.is_empty() {
        let first = octets[0].to_ascii_uppercase();
        octets[0] = first;
    }
    Octets::from_vec(octets)
}

// With a backslash before each wildcard. What a variable doesn't hold is left out before it is quoted, so that no pair is cut.
fn quote_wildcards(alloc: Global, value: &[u8]) -> Result<Octets, AllocError>
    ensures { IfOk result (λ out. Modifies Modifier.QuoteWildcard value.now out) }
{
    quote_all(alloc, &value[..end_of_value(value, true)])
}

fn quote_all(alloc: Global, text: &[u8]) -> Result<Octets, AllocError>
    ensures { IfOk result (λ out. out ≡ quoted_text text.now) }
{
    let mut quoted = Octets::new(alloc);
    for octet in text {
        if is_wildcard(*octet) {
            quoted.push(b'\\')?;
        }
        quoted.push(*octet)?;
    }
    Ok(quoted)
}

// The number of characters, in decimal.
fn length_of(alloc: Global, value: &[u8]) -> Result<Octets, AllocError>
    ensures { IfOk result (λ out. Modifies Modifier.Length value.now out) }
{
    let mut digits = Octets::new(alloc);
    write_decimal(&mut digits, count_characters(value) as u64)?;
    Ok(digits)
}

/// The index of the first modifier that has the precedence of one before it, which is an error of the script (RFC 5229, section
/// 4.1). Looks at five modifiers at most.
pub fn find_conflict(modifiers: &[Modifier]) -> Option<usize>
    ensures { MatchOption result (HaveNoConflict modifiers.now) (λ k. (k < length modifiers.now) × RepeatsPrecedence modifiers.now k
        × ((j : ℕ) → j < k → RepeatsPrecedence modifiers.now j → ⊥)) }
{
    for k in 0..modifiers.len() {
        if repeats(modifiers, k) {
            return Some(k);
        }
    }
    None
}

// Whether one of the first k modifiers has the precedence of the one after them.
fn repeats(modifiers: &[Modifier], k: usize) -> bool
    requires { k < length modifiers.now }
    ensures { IsTrue result ↔ RepeatsPrecedence modifiers.now k }
{
    let precedence = modifiers[k].precedence();
    for j in 0..k {
        if modifiers[j].precedence() == precedence {
            return true;
        }
    }
    false
}

// The first modifier of a precedence.
fn with_precedence(modifiers: &[Modifier], precedence: u8) -> Option<Modifier>
    ensures { result ≡ first_with modifiers.now precedence }
{
    for modifier in modifiers {
        if modifier.precedence() == precedence {
            return Some(*modifier);
        }
    }
    None
}

// What the first modifier of a precedence makes of a value, if there is one.
fn apply_at(
    alloc: Global,
    modifiers: &[Modifier],
    precedence: u8,
    value: Octets,
) -> Result<Octets, AllocError>
    ensures { IfOk result (λ out. out ≡ modified_if_any (first_with modifiers.now precedence) value) }
{
    match with_precedence(modifiers, precedence) {
        Some(modifier) => modifier.apply(alloc, value),
        None => Ok(value),
    }
}

/// What `set` stores: the modifiers are applied to a value by their precedences, the highest first, and of the result as much is
/// kept as a variable holds; of two with one precedence the first counts. The only error is lack of memory.
pub fn set_value(alloc: Global, modifiers: &[Modifier], value: Octets) -> Result<Octets, AllocError>
    ensures stored { IfOk result (λ stored. stored ≡ value_set modifiers.now value) }
    ensures right { HaveNoConflict modifiers.now → IfOk result (λ stored. IsSetTo modifiers.now value stored) }
{
    let cased = apply_at(alloc, modifiers, 40, value)?;
    let first_cased = apply_at(alloc, modifiers, 30, cased)?;
    let quoted = apply_at(alloc, modifiers, 20, first_cased)?;
    let counted = apply_at(alloc, modifiers, 10, quoted)?;
    Octets::from_slice(alloc, cut_value(counted.as_slice()))
}
