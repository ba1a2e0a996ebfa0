//! The entries that are the daemon's own: who has an account at the start, what others do to the store, whether it is away, and
//! what is in it.
use crate::others::{SALT, parse_event};
use daemon_core::note::Note;
use maildir_files::{MemorySink, Separator};
use maildir_homes::MailHomes;
use maildir_moves::Route;
use net_loop::act::Act;
use octets::{List, Octets, parse_decimal, write_decimal};
use sqlite::{Alter, Connection};
use std::alloc::{AllocError, Global};
use std::collections::VecDeque;
use store_accounts::Store;
use store_engine::{KeptScripts, add_user};
use test_daemon::fake_access::FakeAccess;
use test_daemon::memory::MemShelf;
use test_sockets::play::{ScheduleCheck, ScheduleOwner};
use test_sockets::schedule::split_word;

/// Looks at the accounts, and lets others change them.
#[derive(Drop)]
pub struct Accounts {
    pub alloc: Global,
}

/// A store without accounts, in memory.
pub fn new_shelf(alloc: Global) -> Result<MemShelf, AllocError> {
    let conn = Connection::open_in_memory(alloc)?;
    match Store::create(alloc, conn) {
        Ok(store) => Ok(MemShelf {
            store,
            sink: MemorySink::new(alloc),
            route: Route::new(alloc, new_homes(alloc)?, Separator::Dot),
            kept: KeptScripts::new(alloc),
        }),
        Err(_) => Err(AllocError),
    }
}

/// Maildirs in one directory.
fn new_homes(alloc: Global) -> Result<MailHomes, AllocError> {
    MailHomes::in_directory(alloc, Octets::from_slice(alloc, b"mail")?, None)
}

impl ScheduleOwner<FakeAccess<MemShelf>> for Accounts {
    fn own(
        &mut self,
        outside: &mut FakeAccess<MemShelf>,
        line: usize,
        text: &[u8],
        checks: &mut List<ScheduleCheck>,
    ) -> Result<(), AllocError> {
        let (word, rest) = split_word(text);
        match word {
            b"user" => begin_with(self.alloc, &mut outside.stage.fake.rest.store, rest),
            b"away" => add(&mut outside.away, true),
            b"there" => add(&mut outside.away, false),
            b"lacks" => add(&mut outside.lacks, true),
            b"suffices" => add(&mut outside.lacks, false),
            b"apart" => {
                outside.apart = true;
                Ok(())
            }
            b"batches" => {
                let acts = outside.stage.fake.acts.as_slice();
                self.note(line, rest, batches_of(self.alloc, acts)?.as_slice(), checks)
            }
            b"gap" => add(&mut outside.others, None),
            b"wanted" => add(&mut outside.waits, true),
            b"unkept" => {
                let count = parse_decimal(rest).unwrap_or(0);
                outside.stage.fake.rest.sink.fail_after(count);
                Ok(())
            }
            b"mail" => self.note(
                line,
                rest,
                names_of(self.alloc, outside)?.as_slice(),
                checks,
            ),
            b"told" => self.note(line, rest, told_by(outside), checks),
            b"others" => match parse_event(self.alloc, rest)? {
                Some(event) => add(&mut outside.others, Some(event)),
                None => self.note(line, rest, b"no such event", checks),
            },
            _ => self.ask(outside, line, text, checks),
        }
    }
}

/// Whether the outside has told all acts so far.
fn told_by(outside: &FakeAccess<MemShelf>) -> &'static [u8] {
    if outside.stage.fake.lost {
        b"not all"
    } else {
        b"all"
    }
}

fn add<T: Drop>(queue: &mut VecDeque<T>, it: T) -> Result<(), AllocError> {
    match queue.push_back(it) {
        Ok(()) => Ok(()),
        Err(_) => Err(AllocError),
    }
}

/// `NAME ADDRESS PASSWORD`: an account that is there at the start.
fn begin_with<S: Alter>(
    alloc: Global,
    store: &mut Store<S>,
    text: &[u8],
) -> Result<(), AllocError> {
    let (name, rest) = split_word(text);
    let (address, password) = split_word(rest);
    match add_user(alloc, store, name, address, SALT, password) {
        Ok(()) => Ok(()),
        Err(_) => Err(AllocError),
    }
}

impl Accounts {
    fn note(
        &self,
        line: usize,
        wanted: &[u8],
        got: &[u8],
        checks: &mut List<ScheduleCheck>,
    ) -> Result<(), AllocError> {
        checks.push(ScheduleCheck {
            line,
            wanted: Octets::from_slice(self.alloc, wanted)?,
            got: Octets::from_slice(self.alloc, got)?,
        })
    }

    /// A question, whose last word is the answer that is wanted.
    fn ask(
        &self,
        outside: &mut FakeAccess<MemShelf>,
        line: usize,
        text: &[u8],
        checks: &mut List<ScheduleCheck>,
    ) -> Result<(), AllocError> {
        let (word, rest) = split_word(text);
        let mut got = Octets::new(self.alloc);
        let (asked, wanted) = match word {
            b"wishes" => (&b""[..], rest),
            _ => split_word(rest),
        };
        let count = match word {
            b"wishes" => Some(count_wishes(outside.stage.fake.acts.as_slice())),
            _ => count_in(&mut outside.stage.fake.rest.store, word, asked),
        };
        match count {
            Some(count) => write_decimal(&mut got, count)?,
            None => got.extend_from_slice(b"no such entry")?,
        }
        self.note(line, wanted, got.as_slice(), checks)
    }
}

/// How many a user has of what is asked for: `filed` of messages in INBOX, `queued`, `noticed`, `scripts`.
fn count_in<S: Alter>(store: &mut Store<S>, word: &[u8], user: &[u8]) -> Option<u64> {
    match word {
        b"filed" => match store.numbers(user, b"INBOX") {
            Ok(numbers) => Some(numbers.len() as u64),
            Err(_) => None,
        },
        b"queued" => match store.queue_heads(user) {
            Ok(heads) => Some(heads.len() as u64),
            Err(_) => None,
        },
        b"noticed" => match store.notices(user) {
            Ok(notices) => Some(notices.len() as u64),
            Err(_) => None,
        },
        b"scripts" => match store.scripts(user) {
            Ok(names) => Some(names.len() as u64),
            Err(_) => None,
        },
        _ => None,
    }
}

/// The messages that moved on so far: `USER/FOLDER/NUMBER` of each, in their order.
fn names_of(alloc: Global, outside: &FakeAccess<MemShelf>) -> Result<Octets, AllocError> {
    let mut names = Octets::new(alloc);
    for mail in outside.stage.fake.rest.sink.messages() {
        if !names.is_empty() {
            names.push(b' ')?;
        }
        names.extend_from_slice(mail.user.as_slice())?;
        names.push(b'/')?;
        names.extend_from_slice(mail.folder.as_slice())?;
        names.push(b'/')?;
        write_decimal(&mut names, mail.number)?;
    }
    Ok(names)
}

/// How often it was seen that somebody waits for the store.
fn count_wishes(acts: &[Act<Note>]) -> u64 {
    let mut count: u64 = 0;
    for act in acts {
        if let Act::Worked(Note::Looked(true)) = act {
            count = count.saturating_add(1);
        }
    }
    count
}

/// The acts that were to deliver messages together so far: how many messages each delivered, or `parted/N` and `away/N`.
fn batches_of(alloc: Global, acts: &[Act<Note>]) -> Result<Octets, AllocError> {
    let mut batches = Octets::new(alloc);
    for act in acts {
        if let Act::Worked(note) = act {
            add_batch(&mut batches, note)?;
        }
    }
    Ok(batches)
}

fn add_batch(batches: &mut Octets, note: &Note) -> Result<(), AllocError> {
    let (word, count) = match note {
        Note::Delivered { others: _, told } => (&b""[..], told.len()),
        Note::Parted { others: _, events } => (&b"parted/"[..], events.len()),
        Note::PutOff(ids) => (&b"away/"[..], ids.len()),
        _ => return Ok(()),
    };
    if !batches.is_empty() {
        batches.push(b' ')?;
    }
    batches.extend_from_slice(word)?;
    write_decimal(batches, count as u64)
}
