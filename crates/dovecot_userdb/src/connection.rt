//! One connection.
ghost use Rattle.std.specs.Prelude.{◌≡◌, ◌↔◌, ◌<◌, ◌≤◌, [], length, drop, IfOk, OnErr, IsTrue};
ghost use Rattle.dovecot_userdb.specs.Connections as s;
ghost use Rattle.dovecot_userdb.specs.Requests.{IsAskable};
ghost use Rattle.dovecot_userdb.specs.Talks.{talk_ended};

use crate::answer::UserdbReply;
use crate::end::UserdbEnd;
use crate::request::{HELLO, request_line};
use crate::talk::{UserdbPhase, UserdbTalk};
use crate::wanted::UserdbWanted;
use octets::{List, Octets, Pending};
use std::alloc::{AllocError, Global};

/// The most requests that wait for an answer.
const MAX_WAITING: usize = 64;

/// No request is made while more octets than these wait to be written: a server that answers and doesn't read.
const MAX_UNWRITTEN: usize = 65_536;

/// One connection to Dovecot's userdb (its socket `auth-userdb`), over which users are asked for.
///
/// It knows no socket and no clock: it says which octets are to go out (`out`), is told what was written and what came, and tells the
/// answers, each with the number of its request. The server answers in any order. Octets may come in any pieces.
///
/// It holds at most 8,191 octets of a line, 64 numbers of requests, and 66,560 octets that wait to be written.
#[derive(Drop)]
pub struct UserdbConnection {
    pub(crate) alloc: Global,
    pub(crate) talk: UserdbTalk,
    /// What isn't written yet.
    pub(crate) unwritten: Pending,
    /// The beginning of a line that isn't whole yet.
    pub(crate) heard: Octets,
    /// How many requests were made: they have the numbers from 1 to it.
    pub(crate) asked: u32,
}

impl UserdbConnection {
    /// One that has just been made, to a server that has said nothing. Requests may be made at once.
    ///
    /// Lack of memory is the only error.
    pub fn new(alloc: Global) -> Result<UserdbConnection, AllocError>
        ensures { IfOk result s.IsNewUserdb }
    {
        Ok(UserdbConnection {
            alloc,
            talk: UserdbTalk {
                phase: UserdbPhase::Greeting,
                waiting: List::new(alloc),
            },
            unwritten: Pending::from_octets(Octets::from_slice(alloc, HELLO)?),
            heard: Octets::new(alloc),
            asked: 0,
        })
    }

    /// What is waited for. Constant time.
    pub fn wanted(&self) -> UserdbWanted
        ensures { result ≡ s.userdb_wants self.now }
    {
        match self.talk.phase {
            UserdbPhase::Over(end) => UserdbWanted::Nothing(end),
            UserdbPhase::Greeting => UserdbWanted::Greeting,
            UserdbPhase::Open => self.wanted_open(),
        }
    }

    fn wanted_open(&self) -> UserdbWanted
        ensures { result ≡ s.wants_open self.now }
    {
        if !self.talk.waiting.is_empty() {
            return UserdbWanted::Answer;
        }
        if self.asked < u32::MAX {
            return UserdbWanted::Request;
        }
        UserdbWanted::Nothing(UserdbEnd::Spent)
    }

    /// The octets that are to be written now; none at its end. Constant time.
    pub fn out(&self) -> &[u8]
        ensures { result.now ≡ s.userdb_unwritten self.now }
    {
        match self.talk.phase {
            UserdbPhase::Over(_) => b"",
            _ => self.unwritten.as_slice(),
        }
    }

    /// So many octets of `out` were written. Takes no memory; constant time.
    pub fn wrote(&mut self, count: usize)
        requires { count ≤ length (s.userdb_unwritten self.old) }
        ensures { self.new ≡ s.userdb_wrote count self.old }
    {
        if let UserdbPhase::Over(_) = self.talk.phase {
            return;
        }
        self.unwritten.drop_front(count);
    }

    /// Whether a request may be made: the connection isn't at its end, fewer than 64 wait for an answer, fewer than 4,294,967,295 were
    /// made, and at most 65,536 octets wait to be written (63 requests have less). Constant time.
    pub fn may_ask(&self) -> bool
        ensures { IsTrue result ↔ s.MayAskUserdb self.now }
    {
        !self.is_over()
            && self.talk.waiting.len() < MAX_WAITING
            && self.asked < u32::MAX
            && self.unwritten.len() <= MAX_UNWRITTEN
    }

    fn is_over(&self) -> bool
        ensures { result ≡ s.is_phase_over self.now.talk.phase }
    {
        match self.talk.phase {
            UserdbPhase::Over(_) => true,
            _ => false,
        }
    }

    /// Asks for a user, if a request may be made. Returns the number of the request, which no other one of this connection has.
    ///
    /// Lack of memory is the only error; nothing changes then. Time and memory are linear in the name.
    pub fn ask(&mut self, name: &[u8]) -> Result<u32, AllocError>
        requires may { s.MayAskUserdb self.old }
        requires askable { IsAskable name.now }
        ensures asks { IfOk result (λ id. s.AsksUserdb name.now self.old id self.new) }
        ensures err { OnErr result (self.new ≡ self.old) }
    {
        let id = self.asked + 1;
        let line = request_line(self.alloc, id, name)?;
        let mut talk = self.talk.try_clone(self.alloc)?;
        talk.waiting.push(id)?;
        self.unwritten.extend_from_slice(line.as_slice())?;
        self.talk = talk;
        self.asked = id;
        Ok(id)
    }

    /// The numbers of the requests that aren't answered, in the order in which they were made. At its end these get no answer.
    pub fn unanswered(&self) -> &[u32]
        ensures { result.now ≡ self.now.talk.waiting }
    {
        self.talk.waiting.as_slice()
    }

    /// Octets of the server came. Returns the answers, in the order in which they came.
    ///
    /// The first line is to say version 1. Lines that are no answers are passed over; an answer to a request that doesn't wait, a line
    /// that begins as an answer and is none, and one of more than 8,192 octets end the connection, and what comes later isn't looked at.
    ///
    /// Lack of memory is the only error; nothing changes then. Time and memory are linear in the octets and in what is held of a line.
    pub fn hear(&mut self, piece: &[u8]) -> Result<List<UserdbReply>, AllocError>
        ensures hears { IfOk result (λ told. s.HearsUserdb piece.now self.old told self.new) }
        ensures err { OnErr result (self.new ≡ self.old) }
    {
        match self.talk.phase {
            UserdbPhase::Over(_) => Ok(List::new(self.alloc)),
            _ => self.hear_open(piece),
        }
    }

    // The same, of one that isn't at its end.
    fn hear_open(&mut self, piece: &[u8]) -> Result<List<UserdbReply>, AllocError>
        ensures hears { IfOk result (λ told. s.HearsUserdbOpen piece.now self.old told self.new) }
        ensures err { OnErr result (self.new ≡ self.old) }
    {
        let mut octets = self.heard.try_clone(self.alloc)?;
        octets.extend_from_slice(piece)?;
        let mut talk = self.talk.try_clone(self.alloc)?;
        let (told, part) = talk.hear_lines(self.alloc, octets.as_slice())?;
        talk.hear_part(part);
        let heard = kept_of(self.alloc, talk.phase, part)?;
        self.talk = talk;
        self.heard = heard;
        Ok(told)
    }

    /// Ends the connection, for a cause that lies outside of it. One that is at its end stays so. Takes no memory.
    pub fn end(&mut self, end: UserdbEnd)
        ensures { self.new ≡ s.userdb_ended end self.old }
    {
        self.talk.end(end);
        self.heard = Octets::new(self.alloc);
    }
}

// What is kept of the beginning of a line: nothing at the end of a connection.
fn kept_of(alloc: Global, phase: UserdbPhase, part: &[u8]) -> Result<Octets, AllocError>
    ensures { IfOk result (λ kept. kept ≡ s.part_kept phase part.now) }
{
    match phase {
        UserdbPhase::Over(_) => Ok(Octets::new(alloc)),
        _ => Octets::from_slice(alloc, part),
    }
}
