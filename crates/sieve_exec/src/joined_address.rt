//! Addresses that are written out once.
ghost use Rattle.std.specs.Prelude.{◌≡◌, ◌++◌, length, None, Some, MatchOption, IfOk, OnOk};
ghost use Rattle.mail_address.specs.Spelling.{unquoted_address};
ghost use Rattle.sieve_exec.specs.Parts.{address_part_of};

use crate::extension::subaddress::{detail_in, user_in};
use mail_address::Addr;
use octets::{List, Octets};
use sieve_syntax::AddressPart;
use std::alloc::{AllocError, Global};
use std::marker::Model;

/// An address as `:all` compares it, and where its `@` is. Contracts see the address.
#[derive(Drop)]
pub struct JoinedAddress {
    all: Octets,
    at: usize,
}

impl Model for JoinedAddress {
    ghost use Rattle.std.specs.Prelude.{◌≡◌, ◌+◌, take, drop};
    ghost use Rattle.mail_address.specs.declared.address.Addr.{Addr};
    ghost use Rattle.mail_address.specs.Spelling.{unquoted_address};
    ghost use Rattle.sieve_exec.specs.Joined.{address_joined, IsJoined};

    ghost Value = { Addr };

    ghost view = { λ joined. address_joined joined.all joined.at };

    ghost invariant = { λ joined. IsJoined joined.all joined.at };
}

impl JoinedAddress {
    /// Writes out an address.
    pub(crate) fn of(alloc: Global, address: &Addr) -> Result<JoinedAddress, AllocError>
        ensures { IfOk result (λ joined. joined ≡ address.now) }
    {
        Ok(JoinedAddress {
            all: address.all(alloc)?,
            at: address.local.len(),
        })
    }

    /// The number of its octets as `:all` compares it.
    pub(crate) fn len(&self) -> usize
        ensures { result ≡ length (unquoted_address self.now) }
    {
        self.all.len()
    }

    /// A part of the address (RFC 5228, 2.7.4; RFC 5233, 4); `None` for the detail of a local part without `+`.
    pub(crate) fn part(&self, part: AddressPart) -> Option<&[u8]>
        ensures { MatchOption result (address_part_of part self.now ≡ None) (λ text. address_part_of part self.now ≡ Some text.now) }
    {
        let all = self.all.as_slice();
        match part {
            AddressPart::All => Some(all),
            AddressPart::LocalPart => Some(all.split_at(self.at).0),
            AddressPart::Domain => Some(all.split_at(self.at + 1).1),
            AddressPart::User => Some(user_in(all.split_at(self.at).0)),
            AddressPart::Detail => detail_in(all.split_at(self.at).0),
        }
    }
}

/// Writes out addresses after those that are there.
pub(crate) fn push_joined(
    alloc: Global,
    joined: &mut List<JoinedAddress>,
    addresses: &[Addr],
) -> Result<(), AllocError>
    ensures { OnOk result (joined.new ≡ joined.old ++ addresses.now) }
{
    for address in addresses {
        joined.push(JoinedAddress::of(alloc, address)?)?;
    }
    Ok(())
}
