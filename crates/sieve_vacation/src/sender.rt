//! Who sent the mail.
ghost use Rattle.std.specs.Prelude.{◌≡◌, ◌||◌};
ghost use Rattle.mail_address.specs.Spelling.{unquoted_address};
ghost use Rattle.sieve_exec.specs.Parts.{local_of, domain_of};
ghost use Rattle.sieve_vacation.specs.Cases as cases;

use crate::text::{begins_with, ends_with, is_one_of, is_same};
use mail_address::Addr;
use sieve_exec::{Mail, domain_in, local_in};
use sieve_syntax::VacationArgs;

/// Local parts of programs that answer mail (RFC 5230, 4.6).
const ROBOTS: [&[u8]; 3] = [b"mailer-daemon", b"listserv", b"majordomo"];

/// Whether an address has no `@`, or nothing before or after its last one.
pub(crate) fn is_bad(address: &[u8]) -> bool
    ensures { result ≡ (cases.is_empty (local_of address.now) || cases.is_empty (domain_of address.now)) }
{
    local_in(address).is_empty() || domain_in(address).is_empty()
}

/// Whether an address is that of a program that answers mail.
pub(crate) fn is_robot(address: &[u8]) -> bool
    ensures { result ≡ cases.is_robot (local_of address.now) }
{
    let local = local_in(address);
    is_one_of(&ROBOTS, local) || begins_with(b"owner-", local) || ends_with(b"-request", local)
}

/// Whether a text is an address of the user: the account's, the envelope's recipient, or one of `:addresses`; case ignored.
pub(crate) fn is_users(args: &VacationArgs, mail: &Mail<'_>, own: &Addr, text: &[u8]) -> bool
    ensures { result ≡ cases.is_users args.now mail.now own.now text.now }
{
    is_address(own, text)
        || is_same(mail.to(), text)
        || has_address(args.addresses.as_slice(), text)
}

/// Whether a text is one of these addresses, case ignored.
fn has_address(addresses: &[Addr], text: &[u8]) -> bool
    ensures { result ≡ cases.has_address addresses.now text.now }
{
    addresses.iter().any(|one| is_address(one, text))
}

/// Whether a text is the address with nothing quoted, case ignored.
fn is_address(address: &Addr, text: &[u8]) -> bool
    ensures { result ≡ cases.same_ignoring_case (unquoted_address address.now) text.now }
{
    let local = address.local.as_slice();
    if text.len() < local.len() {
        return false;
    }
    let (front, rest) = text.split_at(local.len());
    let Some((at, after)) = rest.split_first() else {
        return false;
    };
    if !is_same(local, front) || *at != b'@' {
        return false;
    }
    is_same(address.domain.as_slice(), after)
}
