//! Values in the arguments, and the first line of an input.
ghost use Rattle.std.specs.Prelude.{◌≡◌, ◌⊎◌, ◌≤◌, None, IfOk, IfErr, OnOk, option_copied};
ghost use Rattle.std.specs.List.{prefix_len};
ghost use Rattle.octets.specs.Decimal.{Writes};
ghost use Rattle.cli_run.specs.Promise as promise;
ghost use Rattle.cli_run.specs.Promise.{is_in_line};
ghost use Rattle.cli_run.specs.Values.{IsNoNumber, HasNoNumber, IsNoPort, IsNoSize, IsNoUntil, WritesSalt, IsNoSalt, IsSalt, HasNoSalt, IsGivenMoment, IsHostZone, AreTerms, HasNoZone, HasNoWhen, IsSeparator, HasNoSeparator, envelope_with};

use crate::fault::RunFault;
use crate::host_texts::HostTexts;
use hex::FromHex;
use mail_dates::HostZone;
use maildir_files::Separator;
use octets::{Octets, parse_decimal};
use std::alloc::{AllocError, Global};
use store_engine::{Envelope, HostSettings, Terms};

/// The last moment that the database can hold.
const MAX_UNTIL: u64 = 9_223_372_036_854_775_807;

/// The largest size that may be given, in MiB: 64 GiB.
const MAX_MEBIBYTES: u64 = 65_536;

/// A number in decimal digits, without a sign.
pub fn decimal(text: &str) -> Result<u64, RunFault>
    ensures ok { IfOk result (λ number. Writes text.now number) }
    ensures right { OnOk result (IsNoNumber text.now → ⊥) }
    ensures fault { IfErr result (λ fault. fault ≡ RunFault.BadArgument) }
    ensures none { IfErr result (λ fault. IsNoNumber text.now) }
{
    parse_decimal(text.as_bytes()).ok_or(RunFault::BadArgument)
}

/// A port, in decimal digits; at most 65,535.
pub fn port_of(text: &str) -> Result<u16, RunFault>
    ensures ok { IfOk result (λ port. Writes text.now port) }
    ensures fault { IfErr result (λ fault. fault ≡ RunFault.BadArgument) }
    ensures none { IfErr result (λ fault. IsNoPort text.now) }
{
    match u16::try_from(decimal(text)?) {
        Ok(port) => Ok(port),
        Err(_) => Err(RunFault::BadArgument),
    }
}

/// A size in MiB, in decimal digits; from 1 to 65,536.
pub fn mebibytes_of(text: &str) -> Result<u32, RunFault>
    ensures ok { IfOk result (λ size. Writes text.now size) }
    ensures least { IfOk result (λ size. 1 ≤ size) }
    ensures most { IfOk result (λ size. size ≤ 65536) }
    ensures fault { IfErr result (λ fault. fault ≡ RunFault.BadArgument) }
    ensures none { IfErr result (λ fault. IsNoSize text.now) }
{
    let size = decimal(text)?;
    if size == 0 || size > MAX_MEBIBYTES {
        return Err(RunFault::BadArgument);
    }
    Ok(size as u32)
}

/// The moment of the last notice that is taken, in seconds since 1970, in decimal digits; below 2^63.
pub fn until_of(text: &str) -> Result<u64, RunFault>
    ensures ok { IfOk result (λ until. Writes text.now until) }
    ensures right { OnOk result (IsNoUntil text.now → ⊥) }
    ensures fault { IfErr result (λ fault. fault ≡ RunFault.BadArgument) }
    ensures none { IfErr result (λ fault. IsNoUntil text.now) }
{
    let until = decimal(text)?;
    if until > MAX_UNTIL {
        return Err(RunFault::BadArgument);
    }
    Ok(until)
}

/// The separator of the levels of folders: `.` unless it is given.
pub fn separator_of(text: Option<&str>) -> Result<Separator, RunFault>
    ensures ok { IfOk result (IsSeparator (option_copied text.entry)) }
    ensures fault { IfErr result (λ fault. fault ≡ RunFault.BadArgument) }
    ensures none { IfErr result (λ fault. HasNoSeparator (option_copied text.entry)) }
{
    match text {
        None | Some(".") => Ok(Separator::Dot),
        Some("/") => Ok(Separator::Slash),
        Some(_) => Err(RunFault::BadArgument),
    }
}

/// A salt in 32 hexadecimal digits.
pub fn salt_of(text: &str) -> Result<[u8; 16], RunFault>
    ensures ok { IfOk result (λ salt. WritesSalt text.now salt) }
    ensures right { OnOk result (IsNoSalt text.now → ⊥) }
    ensures fault { IfErr result (λ fault. fault ≡ RunFault.BadArgument) }
    ensures none { IfErr result (λ fault. IsNoSalt text.now) }
{
    match <[u8; 16] as FromHex>::from_hex(text) {
        Ok(salt) => Ok(salt),
        Err(_) => Err(RunFault::BadArgument),
    }
}

/// The salt in the arguments, or else the system's random octets.
pub fn given_salt(digits: Option<&str>, random: Option<[u8; 16]>) -> Result<[u8; 16], RunFault>
    ensures ok { IfOk result (IsSalt (option_copied digits.entry) random) }
    ensures right { OnOk result (HasNoSalt (option_copied digits.entry) → ⊥) }
    ensures fault { IfErr result (λ fault. ((fault ≡ RunFault.BadArgument) × HasNoSalt (option_copied digits.entry))
        ⊎ ((fault ≡ RunFault.Stream) × (option_copied digits.entry ≡ None) × (random ≡ None))) }
{
    match digits {
        Some(text) => salt_of(text),
        None => random.ok_or(RunFault::Stream),
    }
}

/// The moment in the arguments, or else the clock's, in seconds since 1970.
fn moment_of(at: Option<&str>, clock: Option<u64>) -> Result<u64, RunFault>
    ensures ok { IfOk result (IsGivenMoment (option_copied at.entry) clock) }
    ensures right { OnOk result (HasNoNumber (option_copied at.entry) → ⊥) }
    ensures fault { IfErr result (λ fault. ((fault ≡ RunFault.BadArgument) × HasNoNumber (option_copied at.entry))
        ⊎ ((fault ≡ RunFault.Stream) × (option_copied at.entry ≡ None) × (clock ≡ None))) }
{
    match at {
        Some(text) => decimal(text),
        None => clock.ok_or(RunFault::Stream),
    }
}

/// The host's zone in the arguments; UTC if they have none.
pub fn zone_of(text: Option<&str>) -> Result<HostZone, RunFault>
    ensures ok { IfOk result (IsHostZone (option_copied text.entry)) }
    ensures right { OnOk result (HasNoZone (option_copied text.entry) → ⊥) }
    ensures fault { IfErr result (λ fault. fault ≡ RunFault.BadArgument) }
    ensures none { IfErr result (λ fault. HasNoZone (option_copied text.entry)) }
{
    match text {
        Some(text) => HostZone::read(text.as_bytes()).ok_or(RunFault::BadArgument),
        None => Ok(HostZone::utc()),
    }
}

/// Under what a message is delivered: at the moment in the arguments, or else the clock's, in seconds since 1970, in their zone,
/// by a host with these scripts. Takes no memory.
pub fn terms_for(
    at: Option<&str>,
    zone: Option<&str>,
    clock: Option<u64>,
    host: HostTexts,
) -> Result<Terms, RunFault>
    ensures ok { IfOk result (AreTerms (option_copied at.entry) (option_copied zone.entry) clock host) }
    ensures right { OnOk result (HasNoWhen (option_copied at.entry) (option_copied zone.entry) → ⊥) }
    ensures fault { IfErr result (λ fault.
        ((fault ≡ RunFault.BadArgument) × HasNoWhen (option_copied at.entry) (option_copied zone.entry))
        ⊎ ((fault ≡ RunFault.Stream) × (option_copied at.entry ≡ None) × (clock ≡ None))) }
{
    let zone = zone_of(zone)?;
    let moment = moment_of(at, clock)?;
    let settings = HostSettings {
        zone,
        default: host.default,
        scripts: host.scripts,
    };
    Ok(settings.into_terms(moment))
}

/// The envelope of these addresses.
pub fn envelope_of(alloc: Global, from: &[u8], to: &[u8]) -> Result<Envelope, AllocError>
    ensures { IfOk result (λ envelope. envelope ≡ envelope_with from.now to.now) }
{
    Ok(Envelope {
        from: Octets::from_slice(alloc, from)?,
        to: Octets::from_slice(alloc, to)?,
    })
}

/// The octets before the first LF, or all if there is none.
pub fn first_input_line(text: &[u8]) -> &[u8]
    ensures { result.now ≡ promise.first_line text.now }
{
    let len = line_len(text);
    text.split_at(len).0
}

/// How many octets come before the first LF, or all if there is none.
fn line_len(text: &[u8]) -> usize
    ensures { result ≡ prefix_len is_in_line text.now }
{
    text.iter().take_while(|octet| **octet != b'\n').count()
}
