//! The tests that look at the message and at what has been done so far (RFC 5228, 5).
ghost use Rattle.std.specs.Prelude.{◌≡◌};
ghost use Rattle.sieve_syntax.specs.Comparators.{seeks_part};

use crate::extension::ExtensionTest;
use crate::extension::relational::Relation;
use octets::Texts;

/// A test that looks at the message, its envelope, the moment, or what has been done so far.
#[derive(Drop)]
pub enum MailCheck {
    /// `size` (RFC 5228, 5.9).
    Size(Size),
    /// `exists`, with the names of the fields that all have to be there (RFC 5228, 5.5).
    Exists(Texts),
    /// `header` (RFC 5228, 5.7).
    Header(Header),
    /// `address` (RFC 5228, 5.1).
    Address(Address),
    /// A test of an extension.
    Extension(ExtensionTest),
}

/// The arguments of `size`: how the message's size has to compare with the limit.
#[derive(Clone, Copy, Debug, PartialEq, Eq)]
pub struct Size {
    /// Over or under.
    pub bound: Bound,
    /// The limit, in octets.
    pub limit: u64,
}

/// The arguments of `header`: some value of one of the fields has to match one of the keys.
#[derive(Drop)]
pub struct Header {
    /// How octets are compared.
    pub comparator: Collation,
    /// How a value has to match a key.
    pub matching: Matching,
    /// The names of the fields, as they were written.
    pub fields: Texts,
    /// The keys.
    pub keys: Texts,
}

/// The arguments of `address`: a part of some address in one of the fields has to match one of the keys.
#[derive(Drop)]
pub struct Address {
    /// How octets are compared.
    pub comparator: Collation,
    /// The part of the address.
    pub part: AddressPart,
    /// How the part has to match a key.
    pub matching: Matching,
    /// The names of the fields, as they were written.
    pub fields: Texts,
    /// The keys.
    pub keys: Texts,
}

/// A side of a limit. A size equal to the limit is neither over nor under it.
#[derive(Clone, Copy, Debug, PartialEq, Eq)]
pub enum Bound {
    /// `:over`: strictly more.
    Over,
    /// `:under`: strictly less.
    Under,
}

/// A comparator (RFC 4790).
#[derive(Clone, Copy, Debug, PartialEq, Eq)]
pub enum Collation {
    /// `i;octet`: octets are equal if they are the same (RFC 4790, 9.3).
    Octet,
    /// `i;ascii-casemap`: the same, ignoring ASCII case (RFC 4790, 9.2).
    AsciiCasemap,
    /// `i;ascii-numeric`: texts are compared by the numbers that they begin with (RFC 4790, 9.1).
    AsciiNumeric,
}

/// How a value has to match a key (RFC 5228, 2.7.1; RFC 5231, 4).
#[derive(Clone, Copy, Debug, PartialEq, Eq)]
pub enum Matching {
    /// `:is`: the value is the key.
    Is,
    /// `:contains`: the value contains the key.
    Contains,
    /// `:matches`: the key is a pattern, with `*` and `?`.
    Matches,
    /// `:value`: the value is in this relation to the key.
    Value(Relation),
    /// `:count`: the number of values is in this relation to the key.
    Count(Relation),
}

impl Matching {
    /// Whether it looks for a part of the value, which not every comparator can (RFC 5228, 2.7.3).
    pub(crate) fn seeks_part(self) -> bool
        ensures { result ≡ seeks_part self }
    {
        matches!(self, Matching::Contains | Matching::Matches)
    }
}

/// A part of an address (RFC 5228, 2.7.4; RFC 5233, 4).
#[derive(Clone, Copy, Debug, PartialEq, Eq)]
pub enum AddressPart {
    /// `:all`.
    All,
    /// `:localpart`.
    LocalPart,
    /// `:domain`.
    Domain,
    /// `:user`: what precedes the first `+` of the local part, or all of it if it has none.
    User,
    /// `:detail`: what follows the first `+` of the local part. A local part without one has no detail.
    Detail,
}
