//! Where the users' Maildirs are, as it is written.
ghost use Rattle.std.specs.Prelude.{◌≡◌, ◌+◌, ◌++◌, ℕ, List, [], true, false, length, map, take, drop, IfOk, OnOk, IsTrue};
ghost use Rattle.std.specs.List.{list_all, list_any, slice_split};
ghost use Rattle.maildir_homes.specs.Templates as templates;

use crate::homes::{HomePart, MailHomes};
use memchr::memchr;
use octets::{List, Octets};
use std::alloc::{AllocError, Global};

/// Reads where the users' Maildirs are: a path in which `%u`, `%n` and `%d`, each a whole part, stand for the user's name, what precedes
/// the last `@` of it, and what follows that. A path without `%` is the directory in which each user has one under the user's name.
/// With a domain only its users have one.
///
/// None if there is a `%` elsewhere, if a part behind the first of these is empty, `.` or `..`, and if two users could have one Maildir:
/// it needs `%u`, or both `%n` and `%d`, or `%n` and a domain that isn't empty. Lack of memory is the only error.
pub fn read_homes(
    alloc: Global,
    text: &[u8],
    domain: Option<Octets>,
) -> Result<Option<MailHomes>, AllocError>
    ensures { IfOk result (λ read. templates.IsReadAs text.now domain read) }
{
    let Some(at) = memchr(b'%', text) else {
        let dir = Octets::from_slice(alloc, text)?;
        return Ok(Some(MailHomes::in_directory(alloc, dir, domain)?));
    };
    let (front, tail) = text.split_at(at);
    let Some((last, dir)) = front.split_last() else {
        return Ok(None);
    };
    if *last != b'/' {
        return Ok(None);
    }
    read_in(alloc, dir, tail, domain)
}

/// Reads the parts behind a directory.
fn read_in(
    alloc: Global,
    dir: &[u8],
    tail: &[u8],
    domain: Option<Octets>,
) -> Result<Option<MailHomes>, AllocError>
    ensures { IfOk result (λ read. templates.IsReadIn dir.now tail.now domain read) }
{
    if !are_parts(tail) {
        return Ok(None);
    }
    let parts = parts_of(alloc, tail)?;
    if !tell_apart(&domain, parts.as_slice()) {
        return Ok(None);
    }
    let dir = Octets::from_slice(alloc, dir)?;
    Ok(Some(MailHomes { dir, parts, domain }))
}

/// Whether each part may stand in a path.
fn are_parts(tail: &[u8]) -> bool
    ensures { result ≡ list_all templates.is_home_part (slice_split templates.is_slash tail.now) }
{
    tail.split(|octet| *octet == b'/').all(is_home_part)
}

/// A variable, or a name that is the same for all.
fn is_home_part(name: &[u8]) -> bool
    ensures { result ≡ templates.is_home_part name.now }
{
    is_variable(name) || is_plain_name(name)
}

fn is_variable(name: &[u8]) -> bool
    ensures { result ≡ templates.is_variable name.now }
{
    name == b"%u".as_slice() || name == b"%n".as_slice() || name == b"%d".as_slice()
}

fn is_plain_name(name: &[u8]) -> bool
    ensures { result ≡ templates.is_plain_name name.now }
{
    !name.is_empty() && name != b".".as_slice() && name != b"..".as_slice() && has_no_percent(name)
}

fn has_no_percent(name: &[u8]) -> bool
    ensures { result ≡ templates.has_no_percent name.now }
{
    name.iter().all(|octet| *octet != b'%' && *octet != 0)
}

/// What the parts are. Lack of memory is the only error.
fn parts_of(alloc: Global, tail: &[u8]) -> Result<List<HomePart>, AllocError>
    ensures { IfOk result (λ parts. parts ≡ map templates.home_part_named (slice_split templates.is_slash tail.now)) }
{
    let mut parts = List::new(alloc);
    for name in tail.split(|octet| *octet == b'/') {
        parts.push(home_part_named(alloc, name)?)?;
    }
    Ok(parts)
}

fn home_part_named(alloc: Global, name: &[u8]) -> Result<HomePart, AllocError>
    ensures { IfOk result (λ part. part ≡ templates.home_part_named name.now) }
{
    if name == b"%u".as_slice() {
        return Ok(HomePart::User);
    }
    if name == b"%n".as_slice() {
        return Ok(HomePart::Local);
    }
    if name == b"%d".as_slice() {
        return Ok(HomePart::Domain);
    }
    Ok(HomePart::Named(Octets::from_slice(alloc, name)?))
}

/// Whether no two users have one Maildir.
fn tell_apart(domain: &Option<Octets>, parts: &[HomePart]) -> bool
    ensures { result ≡ templates.tell_apart domain.now parts.now }
{
    has_user(parts) || has_local(parts) && (has_domain(parts) || is_one_domain(domain))
}

/// Whether only users of one domain have a Maildir.
fn is_one_domain(domain: &Option<Octets>) -> bool
    ensures { result ≡ templates.is_one_domain domain.now }
{
    match domain {
        Some(domain) => !is_empty_name(domain.as_slice()),
        None => false,
    }
}

fn is_empty_name(name: &[u8]) -> bool
    ensures { result ≡ templates.is_empty_name name.now }
{
    name.is_empty()
}

fn has_user(parts: &[HomePart]) -> bool
    ensures { result ≡ list_any templates.is_user_part parts.now }
{
    parts.iter().any(|part| matches!(part, HomePart::User))
}

fn has_local(parts: &[HomePart]) -> bool
    ensures { result ≡ list_any templates.is_local_part parts.now }
{
    parts.iter().any(|part| matches!(part, HomePart::Local))
}

fn has_domain(parts: &[HomePart]) -> bool
    ensures { result ≡ list_any templates.is_domain_part parts.now }
{
    parts.iter().any(|part| matches!(part, HomePart::Domain))
}
