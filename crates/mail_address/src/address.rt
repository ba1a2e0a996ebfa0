//! One address, and how it is written.
ghost use Rattle.std.specs.Prelude.{◌≡◌, ◌↔◌, [], ◌++◌, IsTrue, IfOk, OnOk};
ghost use Rattle.mail_address.specs.Spelling as spec;
ghost use Rattle.mail_address.specs.Outbound as outbound;

use crate::scanner;
use octets::Octets;
use std::alloc::{AllocError, Global};

/// A mail address (RFC 5322, 3.4.1).
///
/// The local part consists of the values of its words with the dots between them: without quotation marks, and without the
/// backslashes of quoted pairs. The domain consists of its atoms with the dots between them, or is a domain literal as it was written.
#[derive(Debug, Drop, PartialEq, Eq)]
pub struct Addr {
    pub local: Octets,
    pub domain: Octets,
}

impl Addr {
    /// Returns the local part, `@` and the domain, with nothing quoted. One copy.
    pub fn all(&self, alloc: Global) -> Result<Octets, AllocError>
        ensures { IfOk result (λ text. text ≡ spec.unquoted_address self.now) }
    {
        let local = self.local.as_slice();
        let domain = self.domain.as_slice();
        let mut text = Octets::new(alloc);
        text.reserve(local.len() + 1 + domain.len())?;
        text.extend_from_slice(local)?;
        text.push(b'@')?;
        text.extend_from_slice(domain)?;
        Ok(text)
    }
}

/// Whether a text is atoms with dots between them (RFC 5322, 3.2.3: dot-atom-text).
fn is_dot_atom(text: &[u8]) -> bool
    ensures { result ≡ spec.is_dot_atom text.now }
{
    let mut due = true;
    for octet in text {
        if *octet == b'.' {
            if due {
                return false;
            }
            due = true;
        } else if scanner::is_atom(*octet) {
            due = false;
        } else {
            return false;
        }
    }
    !due
}

/// Appends the text in quotation marks, with a backslash before each quotation mark and backslash (RFC 5322, 3.2.4).
///
/// Linear in the text; lack of memory is the only error.
pub fn quote(out: &mut Octets, text: &[u8]) -> Result<(), AllocError>
    ensures { OnOk result (out.new ≡ out.old ++ spec.quoted text.now) }
{
    out.push(b'"')?;
    escape(out, text)?;
    out.push(b'"')
}

fn escape(out: &mut Octets, text: &[u8]) -> Result<(), AllocError>
    ensures { OnOk result (out.new ≡ out.old ++ spec.with_quoted_pairs text.now) }
{
    for octet in text {
        if *octet == b'"' || *octet == b'\\' {
            out.push(b'\\')?;
        }
        out.push(*octet)?;
    }
    Ok(())
}

/// Writes the address as a header or a command has it: the local part as it is if it is atoms with dots between them, otherwise as a
/// quoted string.
///
/// `sieve_address` reads it back, with an empty display name, and so does `bare_address`, exactly if the domain is valid and what is
/// written is within the limits. Linear in the address' length; takes memory only for the result.
pub fn spell_address(alloc: Global, address: &Addr) -> Result<Octets, AllocError>
    ensures spelled { IfOk result (λ text. text ≡ spec.address_spelling address.now) }
    ensures again { IfOk result (λ text. outbound.IsOutbound text [] address.now
        ↔ (spec.IsDomain address.now.domain × IsTrue (outbound.is_fit text))) }
    ensures bare { IfOk result (λ text. outbound.IsBareAddress text address.now
        ↔ (spec.IsDomain address.now.domain × IsTrue (outbound.is_fit text))) }
{
    let mut text = Octets::new(alloc);
    if is_dot_atom(address.local.as_slice()) {
        text.extend_from_slice(address.local.as_slice())?;
    } else {
        quote(&mut text, address.local.as_slice())?;
    }
    text.push(b'@')?;
    text.extend_from_slice(address.domain.as_slice())?;
    Ok(text)
}
