//! What changes the accounts, as events over a store.
use crate::base::{COPIES_FOURTH, COPIES_LAST, CURRENT, SECOND};
use octets::Octets;
use std::alloc::{AllocError, Global};
use store_engine::{Envelope, Event, HostSettings};

/// The account that is there.
const USER: &[u8] = b"alice";

const ADDRESS: &[u8] = b"alice@example.org";

/// The password of each account.
const PASSWORD: &[u8] = b"secret";

/// The sender of its mail.
const SENDER: &[u8] = b"bob@example.net";

/// RFC 5804, 2.1; RFC 4616, 2.
const LOGIN: &[u8] = b"AUTHENTICATE \"PLAIN\" \"AGFsaWNlAHNlY3JldA==\"\r\n";

const SCRIPT: &[u8] =
    b"PUTSCRIPT \"main\" {109+}\r\nrequire [\"fileinto\", \"vacation\"]; fileinto \"a\"; fileinto \"b\"; redirect \"carol@example.com\"; vacation \"Away.\";\r\nSETACTIVE \"main\"\r\n";

const OTHER: &[u8] = b"PUTSCRIPT \"other\" {5+}\r\nkeep;\r\n";

const AGAIN: &[u8] = b"PUTSCRIPT \"main\" {8+}\r\ndiscard;\r\n";

const DELETION: &[u8] = b"DELETESCRIPT \"other\"\r\n";

const MAIL: &[u8] = b"From: bob@example.net\r\nTo: alice@example.org\r\nSubject: hi\r\n\r\nx\r\n";

/// Mail to nobody, which is not answered.
const EARLIER: &[u8] = b"From: bob@example.net\r\nSubject: earlier\r\n\r\ny\r\n";

const MOMENT: u64 = 1_700_000_000;

/// A session's number.
const SESSION: u32 = 1;

/// One change of a store.
#[derive(Clone, Copy)]
pub enum CutAct {
    /// PUTSCRIPT in place of the active script.
    PutScript,
    /// DELETESCRIPT.
    DeleteScript,
    AddUser,
    TakeOut,
    TakeMail,
    /// A delivery into two folders, with a redirect and a vacation reply.
    Deliver,
    /// The opening of a store of version 2.
    OpenSecond,
    /// The opening of a store of version 1, with the copies last.
    OpenLast,
    /// The same, with the copies fourth.
    OpenFourth,
}

pub const ACTS: [CutAct; 9] = [
    CutAct::PutScript,
    CutAct::DeleteScript,
    CutAct::AddUser,
    CutAct::TakeOut,
    CutAct::TakeMail,
    CutAct::Deliver,
    CutAct::OpenSecond,
    CutAct::OpenLast,
    CutAct::OpenFourth,
];

impl CutAct {
    pub fn name(self) -> &'static str {
        match self {
            CutAct::PutScript => "PUTSCRIPT",
            CutAct::DeleteScript => "DELETESCRIPT",
            CutAct::AddUser => "add_user",
            CutAct::TakeOut => "take_out",
            CutAct::TakeMail => "take_mail",
            CutAct::Deliver => "deliver",
            CutAct::OpenSecond => "open, version 2",
            CutAct::OpenLast => "open, copies last",
            CutAct::OpenFourth => "open, copies fourth",
        }
    }

    /// The statements that make the store.
    pub fn base(self) -> &'static [&'static str] {
        match self {
            CutAct::OpenSecond => &SECOND,
            CutAct::OpenLast => &COPIES_LAST,
            CutAct::OpenFourth => &COPIES_FOURTH,
            _ => &CURRENT,
        }
    }

    /// What happened in the store before the act: two scripts, one of them active, and mail. A store of an older version is as it was made.
    pub fn earlier(self, alloc: Global) -> Result<Vec<Event>, AllocError> {
        match self {
            CutAct::OpenSecond | CutAct::OpenLast | CutAct::OpenFourth => Ok(Vec::new(alloc)),
            _ => earlier(alloc),
        }
    }

    /// The events of the act; the last one is the change. None if opening the store is it.
    pub fn events(self, alloc: Global) -> Result<Vec<Event>, AllocError> {
        let mut events = Vec::new(alloc);
        match self {
            CutAct::PutScript => add_commands(alloc, &mut events, AGAIN, 1)?,
            CutAct::DeleteScript => add_commands(alloc, &mut events, DELETION, 1)?,
            CutAct::AddUser => events.push(addition(alloc)?)?,
            CutAct::TakeOut => events.push(row_taken(alloc)?)?,
            CutAct::TakeMail => events.push(mail_taken(alloc)?)?,
            CutAct::Deliver => events.push(delivery(alloc, MAIL)?)?,
            CutAct::OpenSecond | CutAct::OpenLast | CutAct::OpenFourth => {}
        }
        Ok(events)
    }
}

fn earlier(alloc: Global) -> Result<Vec<Event>, AllocError> {
    let mut events = Vec::new(alloc);
    add_commands(alloc, &mut events, SCRIPT, 2)?;
    add_commands(alloc, &mut events, OTHER, 1)?;
    events.push(delivery(alloc, EARLIER)?)?;
    Ok(events)
}

/// Commands of a client that logs in first, over a session of its own.
fn add_commands(
    alloc: Global,
    events: &mut Vec<Event>,
    commands: &[u8],
    count: usize,
) -> Result<(), AllocError> {
    events.push(Event::Close(SESSION))?;
    events.push(Event::Open(SESSION))?;
    events.push(Event::Give(SESSION, copy(alloc, LOGIN)?))?;
    events.push(Event::Step(SESSION))?;
    events.push(Event::Give(SESSION, copy(alloc, commands)?))?;
    for _ in 0..count {
        events.push(Event::Step(SESSION))?;
    }
    Ok(())
}

fn addition(alloc: Global) -> Result<Event, AllocError> {
    let name = copy(alloc, b"bob")?;
    let address = copy(alloc, b"bob@example.org")?;
    let password = copy(alloc, PASSWORD)?;
    Ok(Event::AddUser {
        name,
        address,
        salt: *b"0123456789abcdef",
        password,
    })
}

fn row_taken(alloc: Global) -> Result<Event, AllocError> {
    let user = copy(alloc, USER)?;
    Ok(Event::TakeOut { user, id: 1 })
}

fn mail_taken(alloc: Global) -> Result<Event, AllocError> {
    let user = copy(alloc, USER)?;
    let folder = copy(alloc, b"a")?;
    Ok(Event::TakeMail { user, folder })
}

fn delivery(alloc: Global, message: &[u8]) -> Result<Event, AllocError> {
    let user = copy(alloc, USER)?;
    let envelope = envelope(alloc)?;
    let message = copy(alloc, message)?;
    Ok(Event::Deliver {
        user,
        envelope,
        message,
        terms: HostSettings::in_utc(alloc).into_terms(MOMENT),
    })
}

fn envelope(alloc: Global) -> Result<Envelope, AllocError> {
    let from = copy(alloc, SENDER)?;
    let to = copy(alloc, ADDRESS)?;
    Ok(Envelope { from, to })
}

fn copy(alloc: Global, text: &[u8]) -> Result<Octets, AllocError> {
    Octets::from_slice(alloc, text)
}
