//! The envelope of a message.
ghost use Rattle.std.specs.Prelude.{◌≡◌, IfOk};
ghost use Rattle.sieve_exec.specs.Extension.Envelope.{envelope_part_of};
ghost use Rattle.sieve_exec.specs.Parts.{local_of, domain_of};

use memchr::memrchr;
use octets::Octets;
use std::alloc::{AllocError, Global};

/// The addresses with which a message was received, as they were written; the null reverse-path is empty.
#[derive(Debug, Drop)]
pub struct Envelope {
    /// The sender (RFC 5321, 4.1.1.2).
    pub from: Octets,
    /// The recipient (RFC 5321, 4.1.1.3).
    pub to: Octets,
}

impl Envelope {
    /// A copy of both addresses. Lack of memory is the only error.
    pub fn try_clone(&self, alloc: Global) -> Result<Envelope, AllocError>
        ensures { IfOk result (λ envelope. envelope ≡ self.now) }
    {
        Ok(Envelope {
            from: self.from.try_clone(alloc)?,
            to: self.to.try_clone(alloc)?,
        })
    }
}

/// What precedes the last `@` of an address of the envelope, or all of it if it has none. Linear; takes no memory.
pub fn local_in(address: &[u8]) -> &[u8]
    ensures { result.now ≡ local_of address.now }
{
    match memrchr(b'@', address) {
        Some(at) => address.split_at(at).0,
        None => address,
    }
}

/// What follows the last `@` of an address of the envelope; empty if it has none. Linear; takes no memory.
pub fn domain_in(address: &[u8]) -> &[u8]
    ensures { result.now ≡ domain_of address.now }
{
    match memrchr(b'@', address) {
        Some(at) => address.split_at(at + 1).1,
        None => address.split_at(address.len()).1,
    }
}
