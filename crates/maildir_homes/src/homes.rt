//! Where the users' Maildirs are.
ghost use Rattle.std.specs.Prelude.{◌≡◌, ◌∷◌, ◌&&◌, [], take, IfOk};
ghost use Rattle.std.specs.List.{list_all};
ghost use Rattle.maildir_homes.specs.Homes as homes;
ghost use Rattle.maildir_homes.specs.declared.homes.HomePart.TheVariants.{User};

use octets::{List, Octets};
use sieve_exec::{domain_in, local_in};
use std::alloc::{AllocError, Global};

/// A part of the path of a user's Maildir.
#[derive(Drop)]
pub enum HomePart {
    /// A directory's name, the same for all users.
    Named(Octets),
    /// The user's name.
    User,
    /// What precedes the last `@` of the user's name, or all of it if it has none.
    Local,
    /// What follows the last `@` of the user's name.
    Domain,
}

impl HomePart {
    /// What it is for a user; empty if a name without `@` has no domain. Takes no memory.
    fn text<'a>(&'a self, user: &'a [u8]) -> &'a [u8]
        ensures { result.now ≡ homes.home_part_text self.now user.now }
    {
        match self {
            HomePart::Named(name) => name.as_slice(),
            HomePart::User => user,
            HomePart::Local => local_in(user),
            HomePart::Domain => domain_in(user),
        }
    }

    /// Whether it can be a directory for a user.
    fn fits(&self, user: &[u8]) -> bool
        ensures { result ≡ homes.part_fits self.now user.now }
    {
        match self {
            HomePart::Named(_) => true,
            HomePart::User => is_directory_name(user),
            HomePart::Local => is_directory_name(local_in(user)),
            HomePart::Domain => is_directory_name(domain_in(user)),
        }
    }
}

/// Where the users' Maildirs are: within one directory, each by the same parts of a path.
#[derive(Drop)]
pub struct MailHomes {
    /// The directory that all are in.
    pub dir: Octets,
    /// The parts of the path from there to a user's.
    pub parts: List<HomePart>,
    /// The domain whose users alone have one: what follows the last `@` of their names. All users have one if it is left out.
    pub domain: Option<Octets>,
}

impl MailHomes {
    /// In a directory, each under the user's name, for the users of a domain alone, if one is given. Lack of memory is the only error.
    pub fn in_directory(
        alloc: Global,
        dir: Octets,
        domain: Option<Octets>,
    ) -> Result<MailHomes, AllocError>
        ensures { IfOk result (λ made. (made.dir ≡ dir) × (made.parts ≡ User ∷ []) × (made.domain ≡ domain)) }
    {
        let mut parts = List::new(alloc);
        parts.push(HomePart::User)?;
        Ok(MailHomes { dir, parts, domain })
    }

    /// The path of a user's Maildir. None for a user of another domain, if only those of one have a Maildir; and if a part of it can't
    /// be a directory's name for this user: an empty one, one that begins with `.`, and one that has `/` or NUL.
    pub fn home_of(&self, alloc: Global, user: &[u8]) -> Result<Option<Octets>, AllocError>
        ensures { IfOk result (λ home. home ≡ homes.home self.now user.now) }
    {
        if !self.fits(user) {
            return Ok(None);
        }
        Ok(Some(self.front_of(alloc, user, self.parts.len())?))
    }

    /// The path of a user's Maildir with that many of its parts.
    pub fn front_of(&self, alloc: Global, user: &[u8], count: usize) -> Result<Octets, AllocError>
        ensures { IfOk result (λ path. path ≡ homes.front_path self.now.dir (take count self.now.parts) user.now) }
    {
        let parts = self.parts.as_slice();
        let (front, _) = parts.split_at(count.min(parts.len()));
        path_in(alloc, self.dir.as_slice(), front, user)
    }

    /// Whether a user can have one: it is of the domain, and each part can be a directory.
    fn fits(&self, user: &[u8]) -> bool
        ensures { result ≡ (homes.is_of_domain self.now.domain user.now && homes.has_home self.now.parts user.now) }
    {
        is_of_domain(&self.domain, user)
            && is_directory_name(user)
            && do_fit(self.parts.as_slice(), user)
    }
}

/// Whether a user is of the domain, if one is given.
fn is_of_domain(domain: &Option<Octets>, user: &[u8]) -> bool
    ensures { result ≡ homes.is_of_domain domain.now user.now }
{
    match domain {
        Some(domain) => domain_in(user) == domain.as_slice(),
        None => true,
    }
}

/// A path in a directory, part by part.
fn path_in(alloc: Global, dir: &[u8], parts: &[HomePart], user: &[u8]) -> Result<Octets, AllocError>
    ensures { IfOk result (λ path. path ≡ homes.front_path dir.now parts.now user.now) }
{
    let mut path = Octets::from_slice(alloc, dir)?;
    for part in parts {
        path.push(b'/')?;
        path.extend_from_slice(part.text(user))?;
    }
    Ok(path)
}

fn do_fit(parts: &[HomePart], user: &[u8]) -> bool
    ensures { result ≡ list_all (λ part. homes.part_fits part user.now) parts.now }
{
    parts.iter().all(|part| part.fits(user))
}

/// Whether a name may be a directory's.
fn is_directory_name(name: &[u8]) -> bool
    ensures { result ≡ homes.is_directory_name name.now }
{
    match name.first() {
        Some(first) => *first != b'.' && has_no_mark(name),
        None => false,
    }
}

fn has_no_mark(name: &[u8]) -> bool
    ensures { result ≡ homes.has_no_mark name.now }
{
    name.iter().all(|octet| *octet != b'/' && *octet != 0)
}
