//! Mail addresses (RFC 5322, 3.4).
use mail_address::{Addr, addresses, bare_address, sieve_address, spell_address};
use octets::Octets;
use std::alloc::{AllocError, Global};
use test_files::LinePart::Text;
use test_files::add_parts;

/// The addresses of a header value, each as `LOCAL|DOMAIN;`.
pub fn add_addresses(alloc: Global, out: &mut Octets, value: &[u8]) -> Result<(), AllocError> {
    let all = addresses(alloc, value)?;
    add_all(out, all.as_slice())
}

fn add_all(out: &mut Octets, all: &[Addr]) -> Result<(), AllocError> {
    for address in all {
        add(out, b"", address, b";")?;
    }
    Ok(())
}

/// The address that a script names, as `DISPLAY|LOCAL|DOMAIN`.
pub fn add_target(alloc: Global, out: &mut Octets, text: &[u8]) -> Result<(), AllocError> {
    match sieve_address(alloc, text)? {
        Some((display, address)) => add_with_display(out, display.as_slice(), &address),
        None => Ok(()),
    }
}

fn add_with_display(out: &mut Octets, display: &[u8], address: &Addr) -> Result<(), AllocError> {
    out.extend_from_slice(display)?;
    add(out, b"|", address, b"")
}

/// The address without display, as `LOCAL|DOMAIN`.
pub fn add_bare(alloc: Global, out: &mut Octets, text: &[u8]) -> Result<(), AllocError> {
    match bare_address(alloc, text)? {
        Some(address) => add(out, b"", &address, b""),
        None => Ok(()),
    }
}

/// The text that names an address.
pub fn add_address_spelling(
    alloc: Global,
    out: &mut Octets,
    local: &[u8],
    domain: &[u8],
) -> Result<(), AllocError> {
    let address = address_of(alloc, local, domain)?;
    let text = spell_address(alloc, &address)?;
    out.extend_from_slice(text.as_slice())
}

fn address_of(alloc: Global, local: &[u8], domain: &[u8]) -> Result<Addr, AllocError> {
    let local = Octets::from_slice(alloc, local)?;
    let domain = Octets::from_slice(alloc, domain)?;
    Ok(Addr { local, domain })
}

/// Appends an address as `LOCAL|DOMAIN`, with what comes before and after it.
fn add<'a>(
    out: &mut Octets,
    front: &'a [u8],
    address: &'a Addr,
    end: &'a [u8],
) -> Result<(), AllocError> {
    let (local, domain) = (address.local.as_slice(), address.domain.as_slice());
    add_parts(
        out,
        &[
            Text(front),
            Text(local),
            Text(b"|"),
            Text(domain),
            Text(end),
        ],
    )
}
