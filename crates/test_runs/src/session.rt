//! Conversations: lists of events and what is answered, over a store in memory.
use crate::answer::{add_shown, add_word_line};
use crate::cut::{add_answers, add_counts};
use crate::event::{DeliverySettings, event, login, number_in_digits, octets_in, times_in};
use crate::question::ask;
use crate::spare::Spare;
use octets::Octets;
use sqlite::{Connection, MemStore};
use std::alloc::{AllocError, Global};
use store_accounts::Store;
use store_engine::{Event, RunAnswers, World, run};
use test_files::{CaseTally, Section, Sections, try_sections};

/// The number of the first session that a user has by `send`; those of `open` are smaller.
const FIRST_OWN: u32 = 1_000_000;

/// Tries each case of the file. The accounts stay to its end.
pub fn try_conversations(
    alloc: Global,
    tally: &mut CaseTally,
    file: &str,
) -> Result<(), AllocError> {
    let mut talk = Talk::new(alloc)?;
    try_sections(alloc, tally, &mut talk, file)
}

/// A store without accounts.
fn new_store(alloc: Global) -> Result<Store<MemStore>, AllocError> {
    let conn = Connection::open_in_memory(alloc)?;
    match Store::create(alloc, conn) {
        Ok(store) => Ok(store),
        Err(_) => Err(AllocError),
    }
}

/// A world, and the events that are to happen in it as one list.
#[derive(Drop)]
struct Talk<'a> {
    world: World<MemStore>,
    spare: Spare,
    /// What was answered since the last case.
    told: Octets,
    events: Vec<Event>,
    /// Of each event whether its answer is shown.
    shown: Vec<bool>,
    /// The users who send commands, each over a session of its own, whose number is the user's place here.
    users: Vec<&'a str>,
    settings: DeliverySettings<'a>,
}

impl<'a> Sections<'a> for Talk<'a> {
    /// Tries a section: the answer that is wanted by now, another world, an event or what holds of those that follow, or
    /// what is asked of the store.
    fn try_section(
        &mut self,
        alloc: Global,
        tally: &mut CaseTally,
        section: &Section<'a>,
    ) -> Result<(), AllocError> {
        match section.name {
            "wanted" => self.try_answer(alloc, tally, section),
            "world" => self.renew(alloc),
            "cut" => self.add_cut(alloc, section),
            "scan" => add_scan(alloc, &mut self.told, section),
            "from" | "moment" | "zone" | "default" | "before" | "after" => {
                self.settings = self.settings.after(section);
                Ok(())
            }
            "send" => self.send(alloc, section),
            "create" => self.spare.create(alloc, &mut self.told),
            "reopen" => self.spare.reopen(alloc, &mut self.told),
            "release" => {
                self.spare.release();
                Ok(())
            }
            "swap" => {
                self.spare.swap(&mut self.world.store);
                Ok(())
            }
            _ => self.add_or_ask(alloc, tally, section),
        }
    }
}

impl<'a> Talk<'a> {
    /// A world without accounts, in which nothing is to happen yet.
    fn new(alloc: Global) -> Result<Talk<'a>, AllocError> {
        let store = new_store(alloc)?;
        Ok(Talk {
            world: World::new(alloc, store),
            spare: Spare::Nothing,
            told: Octets::new(alloc),
            events: Vec::new(alloc),
            shown: Vec::new(alloc),
            users: Vec::new(alloc),
            settings: DeliverySettings {
                from: "",
                moment: 0,
                zone: "+0000",
                default: None,
                before: None,
                after: None,
            },
        })
    }

    /// Lets the events happen, and compares what was answered with what is wanted.
    fn try_answer(
        &mut self,
        alloc: Global,
        tally: &mut CaseTally,
        section: &Section<'_>,
    ) -> Result<(), AllocError> {
        self.apply(alloc)?;
        tally.note_text(alloc, section, self.told.as_slice())?;
        self.told = Octets::new(alloc);
        Ok(())
    }

    /// Lets the events happen, and appends what is answered to those that are shown; then `not whole`, if no place was found for an
    /// answer.
    fn apply(&mut self, alloc: Global) -> Result<(), AllocError> {
        let ran = run(&mut self.world, &self.events);
        self.add_ran(alloc, &ran)
    }

    fn add_ran(&mut self, alloc: Global, ran: &RunAnswers) -> Result<(), AllocError> {
        add_shown(
            alloc,
            &mut self.told,
            ran.answers.as_slice(),
            self.shown.as_slice(),
        )?;
        if !ran.whole {
            add_word_line(&mut self.told, b"", b"not whole")?;
        }
        self.events.clear();
        self.shown.clear();
        Ok(())
    }

    /// From now on the world is another one, without accounts.
    fn renew(&mut self, alloc: Global) -> Result<(), AllocError> {
        let store = new_store(alloc)?;
        self.world = World::new(alloc, store);
        Ok(())
    }

    /// Appends what a stream is answered, however it is cut.
    fn add_cut(&mut self, alloc: Global, section: &Section<'_>) -> Result<(), AllocError> {
        let stream = octets_in(alloc, section)?;
        add_answers(alloc, &mut self.world, &mut self.told, stream.as_slice())
    }

    /// Takes a section that is an event, or asks the store.
    fn add_or_ask(
        &mut self,
        alloc: Global,
        tally: &mut CaseTally,
        section: &Section<'_>,
    ) -> Result<(), AllocError> {
        if self.add(alloc, section)? {
            return Ok(());
        }
        ask(alloc, tally, &mut self.world.store, &mut self.told, section)
    }

    /// Takes an event that many times: `== step 1`, or `== deliver USER x300`. Returns false if the section is no event.
    fn add(&mut self, alloc: Global, section: &Section<'_>) -> Result<bool, AllocError> {
        let (note, times) = times_in(section.note);
        for _ in 0..times {
            if !self.add_one(alloc, section, note)? {
                return Ok(false);
            }
        }
        Ok(true)
    }

    fn add_one(
        &mut self,
        alloc: Global,
        section: &Section<'_>,
        note: &str,
    ) -> Result<bool, AllocError> {
        match event(alloc, self.settings, section, note)? {
            Some(event) => {
                self.push(event, true)?;
                Ok(true)
            }
            None => Ok(false),
        }
    }

    fn push(&mut self, event: Event, is_shown: bool) -> Result<(), AllocError> {
        self.events.push(event)?;
        self.shown.push(is_shown)?;
        Ok(())
    }

    /// Takes a command that a user sends, who logs in first over a session of its own. The answer to the command alone is
    /// shown.
    fn send(&mut self, alloc: Global, section: &Section<'a>) -> Result<(), AllocError> {
        let number = self.session_of(alloc, section.note)?;
        let command = octets_in(alloc, section)?;
        self.exchange(number, command, true)
    }

    /// The number of a user's own session.
    fn session_of(&mut self, alloc: Global, user: &'a str) -> Result<u32, AllocError> {
        let known = self.users.iter().position(|other| *other == user);
        let place = known.unwrap_or(self.users.len());
        let number = FIRST_OWN.saturating_add(u32::try_from(place).unwrap_or(0));
        if known.is_none() {
            self.log_in(alloc, user, number)?;
        }
        Ok(number)
    }

    /// Opens a session, in which the user logs in.
    fn log_in(&mut self, alloc: Global, user: &'a str, number: u32) -> Result<(), AllocError> {
        self.users.push(user)?;
        self.push(Event::Open(number), false)?;
        let line = login(alloc, user)?;
        self.exchange(number, line, false)
    }

    /// Takes octets of a client, and a step over them.
    fn exchange(&mut self, number: u32, given: Octets, is_shown: bool) -> Result<(), AllocError> {
        self.push(Event::Give(number, given), false)?;
        self.push(Event::Step(number), is_shown)
    }
}

/// Appends how a section's octets are scanned that come in pieces of as many as its note says.
fn add_scan(alloc: Global, out: &mut Octets, section: &Section<'_>) -> Result<(), AllocError> {
    let stream = octets_in(alloc, section)?;
    let most = usize::try_from(number_in_digits(section.note)).unwrap_or(0);
    add_counts(alloc, out, stream.as_slice(), most)
}
