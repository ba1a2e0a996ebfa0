//! What other processes do to the daemon's store, as an entry names it.
use octets::{Octets, parse_decimal};
use std::alloc::{AllocError, Global};
use store_engine::{Envelope, Event, HostSettings, Upkeep};
use test_sockets::schedule::{parse_text, split_word};

/// The salt of every account.
pub const SALT: [u8; 16] = *b"0123456789abcdef";

/// The event that an entry names, if it names one.
pub fn parse_event(alloc: Global, text: &[u8]) -> Result<Option<Event>, AllocError> {
    let (word, rest) = split_word(text);
    match word {
        b"adduser" => new_user(alloc, rest),
        b"deliver" => delivery(alloc, rest),
        b"takeout" => removal(alloc, rest),
        b"takemail" => removed_mail(alloc, rest),
        b"closeaccount" => upkept(alloc, rest, Upkeep::CloseAccount),
        b"openaccount" => upkept(alloc, rest, Upkeep::OpenAccount),
        b"removeaccount" => upkept(alloc, rest, Upkeep::RemoveAccount { mail: true }),
        _ => Ok(None),
    }
}

/// `NAME ADDRESS PASSWORD`.
fn new_user(alloc: Global, text: &[u8]) -> Result<Option<Event>, AllocError> {
    let (name, rest) = split_word(text);
    let (address, password) = split_word(rest);
    let name = Octets::from_slice(alloc, name)?;
    let address = Octets::from_slice(alloc, address)?;
    let password = Octets::from_slice(alloc, password)?;
    Ok(Some(Event::AddUser {
        name,
        address,
        salt: SALT,
        password,
    }))
}

/// `USER MOMENT SENDER MESSAGE`, the sender in angles.
fn delivery(alloc: Global, text: &[u8]) -> Result<Option<Event>, AllocError> {
    let (user, rest) = split_word(text);
    let (moment, rest) = split_word(rest);
    let (sender, message) = split_word(rest);
    let Some(moment) = parse_decimal(moment) else {
        return Ok(None);
    };
    let Some(message) = parse_text(alloc, message)? else {
        return Ok(None);
    };
    let user = Octets::from_slice(alloc, user)?;
    let envelope = envelope(alloc, sender)?;
    Ok(Some(Event::Deliver {
        user,
        envelope,
        message,
        terms: HostSettings::in_utc(alloc).into_terms(moment),
    }))
}

fn envelope(alloc: Global, sender: &[u8]) -> Result<Envelope, AllocError> {
    let inside = match sender {
        [b'<', inside @ .., b'>'] => inside,
        _ => sender,
    };
    let from = Octets::from_slice(alloc, inside)?;
    let to = Octets::from_slice(alloc, b"alice@example.org")?;
    Ok(Envelope { from, to })
}

/// `USER ID`.
fn removal(alloc: Global, text: &[u8]) -> Result<Option<Event>, AllocError> {
    let (user, id) = split_word(text);
    let Some(id) = parse_decimal(id) else {
        return Ok(None);
    };
    let user = Octets::from_slice(alloc, user)?;
    Ok(Some(Event::TakeOut { user, id }))
}

/// `USER FOLDER`.
fn removed_mail(alloc: Global, text: &[u8]) -> Result<Option<Event>, AllocError> {
    let (user, folder) = split_word(text);
    let user = Octets::from_slice(alloc, user)?;
    let folder = Octets::from_slice(alloc, folder)?;
    Ok(Some(Event::TakeMail { user, folder }))
}

/// `USER`, to whose account this is done.
fn upkept(alloc: Global, user: &[u8], upkeep: Upkeep) -> Result<Option<Event>, AllocError> {
    let user = Octets::from_slice(alloc, user)?;
    Ok(Some(Event::DoUpkeep { user, upkeep }))
}
