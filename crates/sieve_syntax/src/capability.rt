//! Capabilities: what a language has besides the base of RFC 5228, and what a script may use of it (RFC 5228, 2.10.5 and 3.2).
ghost use Rattle.std.specs.Prelude.{◌≡◌, ◌↔◌, ◌||◌, [], ◌∷◌, nat_eq, true, OnOk, IsTrue, All};
ghost use Rattle.std.specs.Cmp.Lexicographic.{pointwise};
ghost use Rattle.std.specs.List.{list_any};
ghost use Rattle.sieve_syntax.specs.Capabilities.{KnowsName, all_capabilities, capability_name, capability_named, granted_by, granted_too, is_name_of, Permits, offered_names};
ghost use Rattle.sieve_syntax.specs.Parsing.{IfParseFault};

use crate::error::ParseError;
use octets::{Octets, Texts};
use sieve_lex::FaultKind;
use std::alloc::{AllocError, Global};
use std::marker::Model;

/// What `require` may name.
#[derive(Clone, Copy, Debug, PartialEq, Eq)]
pub enum Capability {
    /// RFC 5228, 4.1.
    FileInto,
    /// RFC 5228, 5.4.
    Envelope,
    /// RFC 5230.
    Vacation,
    /// RFC 4790, 9.3; it needn't be required (RFC 5228, 2.7.3).
    Octet,
    /// RFC 4790, 9.2; it needn't be required.
    AsciiCasemap,
    /// RFC 3894.
    Copy,
    /// RFC 6131.
    VacationSeconds,
    /// RFC 5233.
    Subaddress,
    /// RFC 5231.
    Relational,
    /// RFC 4790, 9.1.
    AsciiNumeric,
    /// RFC 5228, 2.4.2.4.
    EncodedCharacter,
    /// RFC 5490.
    Mailbox,
    /// RFC 5260, 4 and 5.
    Date,
    /// RFC 5232.
    Imap4flags,
}

impl Capability {
    /// The name by which `require` and the server have it.
    pub fn name(self) -> &'static [u8]
        ensures { result.now ≡ capability_name self }
    {
        match self {
            Capability::FileInto => b"fileinto",
            Capability::Envelope => b"envelope",
            Capability::Vacation => b"vacation",
            Capability::Octet => b"comparator-i;octet",
            Capability::AsciiCasemap => b"comparator-i;ascii-casemap",
            Capability::Copy => b"copy",
            Capability::VacationSeconds => b"vacation-seconds",
            Capability::Subaddress => b"subaddress",
            Capability::Relational => b"relational",
            Capability::AsciiNumeric => b"comparator-i;ascii-numeric",
            Capability::EncodedCharacter => b"encoded-character",
            Capability::Mailbox => b"mailbox",
            Capability::Date => b"date",
            Capability::Imap4flags => b"imap4flags",
        }
    }

    /// The names that a server lists, with a space between (RFC 5804, 1.7): those that need `require`.
    pub fn offered() -> &'static [u8]
        ensures { result.now ≡ offered_names }
    {
        b"fileinto envelope vacation copy vacation-seconds subaddress relational comparator-i;ascii-numeric encoded-character mailbox date imap4flags"
    }

    /// The capability with this name, compared by octets (RFC 5228, 6.1).
    pub fn named(name: &[u8]) -> Option<Capability>
        ensures { result ≡ capability_named name.now }
    {
        if is_name_of(Capability::FileInto, name) {
            Some(Capability::FileInto)
        } else if is_name_of(Capability::Envelope, name) {
            Some(Capability::Envelope)
        } else if is_name_of(Capability::Vacation, name) {
            Some(Capability::Vacation)
        } else if is_name_of(Capability::Octet, name) {
            Some(Capability::Octet)
        } else if is_name_of(Capability::AsciiCasemap, name) {
            Some(Capability::AsciiCasemap)
        } else if is_name_of(Capability::Copy, name) {
            Some(Capability::Copy)
        } else if is_name_of(Capability::VacationSeconds, name) {
            Some(Capability::VacationSeconds)
        } else if is_name_of(Capability::Subaddress, name) {
            Some(Capability::Subaddress)
        } else if is_name_of(Capability::Relational, name) {
            Some(Capability::Relational)
        } else if is_name_of(Capability::AsciiNumeric, name) {
            Some(Capability::AsciiNumeric)
        } else if is_name_of(Capability::EncodedCharacter, name) {
            Some(Capability::EncodedCharacter)
        } else if is_name_of(Capability::Mailbox, name) {
            Some(Capability::Mailbox)
        } else if is_name_of(Capability::Date, name) {
            Some(Capability::Date)
        } else if is_name_of(Capability::Imap4flags, name) {
            Some(Capability::Imap4flags)
        } else {
            None
        }
    }
}

fn is_name_of(capability: Capability, name: &[u8]) -> bool
    ensures { result ≡ is_name_of capability name.now }
{
    name == capability.name()
}

/// Those capabilities that a script may use. Contracts see their names.
#[derive(Drop)]
pub struct Capabilities {
    /// Their names, each once.
    names: Texts,
}

impl Model for Capabilities {
    ghost use Rattle.std.specs.Prelude.{ℕ, List};

    ghost Value = { List (List ℕ) };

    ghost view = { λ set. set.names };
}

impl Capabilities {
    /// None. Takes no memory.
    pub(crate) fn none(alloc: Global) -> Capabilities
        ensures { result ≡ [] }
    {
        Capabilities {
            names: Texts::new(alloc),
        }
    }

    /// Whether it may be used.
    pub(crate) fn has(&self, capability: Capability) -> bool
        ensures { result ≡ granted_by self.now capability }
    {
        self.names
            .as_slice()
            .iter()
            .any(|name| is_name_of(capability, name.as_slice()))
    }

    /// Returns a fault if it may not be used.
    pub(crate) fn require(&self, capability: Capability) -> Result<(), ParseError>
        ensures granted { OnOk result (granted_by self.now capability ≡ true) }
        ensures fault { IfParseFault result (granted_by self.now capability ≡ true → ⊥) }
    {
        if self.has(capability) {
            return Ok(());
        }
        Err(ParseError::Fault(FaultKind::NotRequired))
    }

    /// Returns a fault if neither may be used.
    pub(crate) fn require_some(&self, one: Capability, other: Capability) -> Result<(), ParseError>
        ensures granted { OnOk result ((granted_by self.now one || granted_by self.now other) ≡ true) }
        ensures fault { IfParseFault result ((granted_by self.now one || granted_by self.now other) ≡ true → ⊥) }
    {
        if self.has(one) || self.has(other) {
            return Ok(());
        }
        Err(ParseError::Fault(FaultKind::NotRequired))
    }

    /// Returns a fault if it is used, and may not be.
    pub(crate) fn require_if(&self, is_used: bool, capability: Capability) -> Result<(), ParseError>
        ensures granted { OnOk result (Permits (granted_by self.now capability) is_used) }
        ensures fault { IfParseFault result (Permits (granted_by self.now capability) is_used → ⊥) }
    {
        if is_used && !self.has(capability) {
            return Err(ParseError::Fault(FaultKind::NotRequired));
        }
        Ok(())
    }

    /// Grants these besides those that are granted: a fault if one isn't known. Time is linear in the names.
    pub(crate) fn grant(&mut self, alloc: Global, names: &[Octets]) -> Result<(), ParseError>
        ensures known { OnOk result (All (KnowsName all_capabilities) names.now) }
        ensures made { OnOk result (granted_by self.new ≡ granted_too (granted_by self.old) names.now) }
        ensures fault { IfParseFault result (All (KnowsName all_capabilities) names.now → ⊥) }
    {
        if !are_known(names) {
            return Err(ParseError::Fault(FaultKind::UnknownCapability));
        }
        self.add_all(alloc, names)?;
        Ok(())
    }

    /// Grants these besides those that are granted.
    fn add_all(&mut self, alloc: Global, names: &[Octets]) -> Result<(), AllocError>
        ensures { OnOk result (granted_by self.new ≡ granted_too (granted_by self.old) names.now) }
    {
        for name in names {
            self.add(alloc, name)?;
        }
        Ok(())
    }

    /// Grants one besides those that are granted.
    fn add(&mut self, alloc: Global, name: &Octets) -> Result<(), AllocError>
        ensures { OnOk result (granted_by self.new ≡ granted_too (granted_by self.old) (name.now ∷ [])) }
    {
        if !is_among(self.names.as_slice(), name) {
            self.names.push(name.try_clone(alloc)?)?;
        }
        Ok(())
    }
}

fn is_among(names: &[Octets], name: &Octets) -> bool
    ensures { result ≡ list_any (pointwise nat_eq name.now) names.now }
{
    names
        .iter()
        .any(|other| name.as_slice() == other.as_slice())
}

fn are_known(names: &[Octets]) -> bool
    ensures { IsTrue result ↔ All (KnowsName all_capabilities) names.now }
{
    names
        .iter()
        .all(|name| Capability::named(name.as_slice()).is_some())
}
