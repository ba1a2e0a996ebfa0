//! The events that sections are.
use base64::engine::general_purpose::STANDARD;
use mail_dates::HostZone;
use octets::{Octets, Texts, parse_decimal};
use std::alloc::{AllocError, Global};
use store_engine::{Envelope, Event, HostScripts, HostSettings, Terms, Upkeep};
use store_text::AccountReadError;
use test_files::LinePart::Text;
use test_files::{Section, add_parts, decode_cell, split_at_first, with_ends};

/// The password of every account that `account` adds.
pub const PASSWORD: &[u8] = b"secret";

/// What holds of the messages that follow.
#[derive(Clone, Copy)]
pub struct DeliverySettings<'a> {
    /// Their sender.
    pub from: &'a str,
    /// When they come, in seconds since 1970-01-01 UTC.
    pub moment: u64,
    /// The host's zone then, as `+hhmm`.
    pub zone: &'a str,
    /// The host's default script, if it has one.
    pub default: Option<&'a str>,
    /// Its script before each user's, if it has one.
    pub before: Option<&'a str>,
    /// Its script after each user's, if it has one.
    pub after: Option<&'a str>,
}

impl<'a> DeliverySettings<'a> {
    /// What holds after a section `from`, `moment`, `zone`, `default`, `before` or `after`; one of the last three whose note is `none`
    /// says that there is no such script.
    pub fn after(self, section: &Section<'a>) -> DeliverySettings<'a> {
        let text = section.text.trim_ascii_end();
        let mut next = self;
        match section.name {
            "from" => next.from = text,
            "zone" => next.zone = text,
            "default" => next.default = script_in(section),
            "before" => next.before = script_in(section),
            "after" => next.after = script_in(section),
            _ => next.moment = number_in_digits(text),
        }
        next
    }
}

impl DeliverySettings<'_> {
    /// Under what a message is delivered; in UTC if the file says no zone.
    fn terms(&self, alloc: Global) -> Result<Terms, AllocError> {
        let zone = HostZone::read(self.zone.as_bytes()).unwrap_or(HostZone::utc());
        let default = match self.default {
            Some(text) => Some(decode_cell(alloc, text)?),
            None => None,
        };
        let settings = HostSettings {
            zone,
            default,
            scripts: HostScripts {
                before: at_most_one(alloc, self.before)?,
                after: at_most_one(alloc, self.after)?,
            },
        };
        Ok(settings.into_terms(self.moment))
    }
}

/// The script in a section, unless its note says that there is none.
fn script_in<'a>(section: &Section<'a>) -> Option<&'a str> {
    if section.note == "none" {
        return None;
    }
    Some(section.text)
}

/// The text in a cell, if there is one.
fn at_most_one(alloc: Global, cell: Option<&str>) -> Result<Texts, AllocError> {
    let mut texts = Texts::new(alloc);
    if let Some(cell) = cell {
        texts.push(decode_cell(alloc, cell)?)?;
    }
    Ok(texts)
}

/// The event that a section is, if it is one and its note says this.
pub fn event(
    alloc: Global,
    settings: DeliverySettings<'_>,
    section: &Section<'_>,
    note: &str,
) -> Result<Option<Event>, AllocError> {
    match section.name {
        "open" => Ok(Some(Event::Open(session(note)))),
        "give" => give(alloc, section, note, true),
        "piece" => give(alloc, section, note, false),
        "step" => Ok(Some(Event::Step(session(note)))),
        "giveup" => Ok(Some(Event::GiveUp(session(note)))),
        "close" => Ok(Some(Event::Close(session(note)))),
        "adduser" => new_user(alloc, note, section.text),
        "import" => import(alloc, section),
        "deliver" => delivery(alloc, settings, section, note),
        "takeout" => take_out(alloc, note),
        "takemail" => take_mail(alloc, note),
        _ => kept_up(alloc, section, note),
    }
}

/// What an administrator does to an account, if a section is that.
fn kept_up(alloc: Global, section: &Section<'_>, note: &str) -> Result<Option<Event>, AllocError> {
    let (user, rest) = split_at_first(note, " ");
    let Some(upkeep) = upkeep(alloc, section, rest)? else {
        return Ok(None);
    };
    let user = decode_cell(alloc, user)?;
    Ok(Some(Event::DoUpkeep { user, upkeep }))
}

fn upkeep(alloc: Global, section: &Section<'_>, rest: &str) -> Result<Option<Upkeep>, AllocError> {
    match section.name {
        "password" => new_password(alloc, section.text),
        "address" => new_address(alloc, section.text),
        "store" => script(alloc, rest, section, false),
        "storeactive" => script(alloc, rest, section, true),
        "closeaccount" => Ok(Some(Upkeep::CloseAccount)),
        "openaccount" => Ok(Some(Upkeep::OpenAccount)),
        "remove" => Ok(Some(Upkeep::RemoveAccount { mail: false })),
        "removemail" => Ok(Some(Upkeep::RemoveAccount { mail: true })),
        "takenotices" => Ok(Some(Upkeep::TakeNotices {
            until: number_in_digits(rest),
        })),
        _ => Ok(None),
    }
}

/// Another password: the line.
fn new_password(alloc: Global, text: &str) -> Result<Option<Upkeep>, AllocError> {
    let (line, _) = split_at_first(text, "\n");
    let password = decode_cell(alloc, line)?;
    Ok(Some(Upkeep::SetPassword {
        salt: *b"fedcba9876543210",
        password,
    }))
}

/// Another address: the line.
fn new_address(alloc: Global, text: &str) -> Result<Option<Upkeep>, AllocError> {
    let (line, _) = split_at_first(text, "\n");
    let address = decode_cell(alloc, line)?;
    Ok(Some(Upkeep::SetAddress { address }))
}

/// A script that is kept under this name.
fn script(
    alloc: Global,
    name: &str,
    section: &Section<'_>,
    activate: bool,
) -> Result<Option<Upkeep>, AllocError> {
    let name = decode_cell(alloc, name)?;
    let text = octets_in(alloc, section)?;
    Ok(Some(Upkeep::StoreScript {
        name,
        text,
        activate,
    }))
}

/// Octets that come from a client, with each line end as CRLF if that is wanted.
fn give(
    alloc: Global,
    section: &Section<'_>,
    note: &str,
    crlf: bool,
) -> Result<Option<Event>, AllocError> {
    let octets = with_ends(alloc, section.text, crlf)?;
    Ok(Some(Event::Give(session(note), octets)))
}

/// A user to be added: the address is the first line, the password the second.
fn new_user(alloc: Global, name: &str, text: &str) -> Result<Option<Event>, AllocError> {
    let (address, password) = split_at_first(text, "\n");
    let name = decode_cell(alloc, name)?;
    let address = decode_cell(alloc, address)?;
    let password = decode_cell(alloc, password)?;
    Ok(Some(Event::AddUser {
        name,
        address,
        salt: *b"0123456789abcdef",
        password,
    }))
}

/// An account that comes whole: its text.
fn import(alloc: Global, section: &Section<'_>) -> Result<Option<Event>, AllocError> {
    let text = with_ends(alloc, section.text, false)?;
    match store_text::read_account_file(alloc, text.as_slice()) {
        Ok(file) => Ok(Some(Event::Import(file))),
        Err(AccountReadError::NotAnAccount) => Ok(None),
        Err(AccountReadError::Memory) => Err(AllocError),
    }
}

/// A message to be delivered to this user.
fn delivery(
    alloc: Global,
    settings: DeliverySettings<'_>,
    section: &Section<'_>,
    user: &str,
) -> Result<Option<Event>, AllocError> {
    let message = octets_in(alloc, section)?;
    let user = Octets::from_slice(alloc, user.as_bytes())?;
    let envelope = envelope(alloc, settings.from)?;
    Ok(Some(Event::Deliver {
        user,
        envelope,
        message,
        terms: settings.terms(alloc)?,
    }))
}

fn envelope(alloc: Global, from: &str) -> Result<Envelope, AllocError> {
    let from = decode_cell(alloc, from)?;
    let to = Octets::from_slice(alloc, b"alice@example.org")?;
    Ok(Envelope { from, to })
}

/// A row to be taken out: `USER ID`.
fn take_out(alloc: Global, note: &str) -> Result<Option<Event>, AllocError> {
    let (user, id) = split_at_first(note, " ");
    let user = Octets::from_slice(alloc, user.as_bytes())?;
    Ok(Some(Event::TakeOut {
        user,
        id: number_in_digits(id),
    }))
}

/// A folder whose first message is to be taken out: `USER FOLDER`.
fn take_mail(alloc: Global, note: &str) -> Result<Option<Event>, AllocError> {
    let (user, folder) = split_at_first(note, " ");
    let user = Octets::from_slice(alloc, user.as_bytes())?;
    let folder = Octets::from_slice(alloc, folder.as_bytes())?;
    Ok(Some(Event::TakeMail { user, folder }))
}

/// The octets of a section, each line end as CRLF.
pub fn octets_in(alloc: Global, section: &Section<'_>) -> Result<Octets, AllocError> {
    with_ends(alloc, section.text, true)
}

/// The line that logs a user in whose password is `secret` (RFC 5804, 2.1; RFC 4616, 2).
pub fn login(alloc: Global, user: &str) -> Result<Octets, AllocError> {
    let message = credentials(alloc, user)?;
    let text = STANDARD.encode(alloc, message.as_slice())?;
    login_by(alloc, text.as_bytes())
}

fn credentials(alloc: Global, user: &str) -> Result<Octets, AllocError> {
    let mut message = Octets::new(alloc);
    add_parts(
        &mut message,
        &[
            Text(b"\0"),
            Text(user.as_bytes()),
            Text(b"\0"),
            Text(PASSWORD),
        ],
    )?;
    Ok(message)
}

fn login_by(alloc: Global, text: &[u8]) -> Result<Octets, AllocError> {
    let mut line = Octets::new(alloc);
    add_parts(
        &mut line,
        &[
            Text(b"AUTHENTICATE \"PLAIN\" \""),
            Text(text),
            Text(b"\"\r\n"),
        ],
    )?;
    Ok(line)
}

fn session(digits: &str) -> u32 {
    u32::try_from(number_in_digits(digits)).unwrap_or(0)
}

/// What a note says before `xN`, and how often an event is meant: N times, otherwise once.
pub fn times_in(note: &str) -> (&str, u64) {
    let (front, digits) = split_at_first(note, " x");
    match parse_decimal(digits.as_bytes()) {
        Some(times) => (front, times),
        None => (note, 1),
    }
}

/// The number that these digits are, or 0.
pub fn number_in_digits(digits: &str) -> u64 {
    parse_decimal(digits.as_bytes()).unwrap_or(0)
}
