//! What a name or a string says.
ghost use Rattle.std.specs.Prelude.{◌≡◌, IfOk};

use octets::Octets;
use std::alloc::{AllocError, Global};
use std::marker::Model;

/// Where octets are.
#[derive(Drop)]
pub(crate) enum Source<'a> {
    /// In a text that spells them as they are.
    Text(&'a [u8]),
    /// Apart from it, if it spells them in another way.
    Apart(Octets),
}

/// What a name or a string says: octets of the text if it spells them as they are, otherwise a copy. Contracts
/// see the octets.
#[derive(Drop)]
pub struct Said<'a> {
    source: Source<'a>,
}

impl<'a> Model for Said<'a> {
    ghost use Rattle.std.specs.Prelude.{ℕ, List};
    ghost use Rattle.sieve_lex.specs.Sources.{octets_at};

    ghost Value = { List ℕ };

    ghost view = { λ said. octets_at said.source };
}

impl<'a> Said<'a> {
    /// These octets of a text. Takes no memory.
    pub fn in_text(octets: &'a [u8]) -> Said<'a>
        ensures { result ≡ octets.now }
    {
        Said {
            source: Source::Text(octets),
        }
    }

    /// These octets, which aren't in the text as they are, without a copy.
    pub fn apart(octets: Octets) -> Said<'a>
        ensures { result ≡ octets }
    {
        Said {
            source: Source::Apart(octets),
        }
    }

    pub fn as_slice(&self) -> &[u8]
        ensures { result.now ≡ self.now }
    {
        match &self.source {
            Source::Text(octets) => octets,
            Source::Apart(octets) => octets.as_slice(),
        }
    }

    /// Copies the octets.
    pub fn to_octets(&self, alloc: Global) -> Result<Octets, AllocError>
        ensures { IfOk result (λ octets. octets ≡ self.now) }
    {
        Octets::from_slice(alloc, self.as_slice())
    }
}
