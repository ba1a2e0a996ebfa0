//! How far a connection has come, and what a line of the server makes of it.
ghost use Rattle.std.specs.Prelude.{◌≡◌, ◌++◌, IfOk, OnOk, MatchOption};
ghost use Rattle.std.specs.Option.{option_to_list};
ghost use Rattle.dovecot_userdb.specs.Lines.{HasNone};
ghost use Rattle.dovecot_userdb.specs.Talks as s;

use crate::answer::UserdbReply;
use crate::end::UserdbEnd;
use crate::line::{UserdbLine, cut_at, is_version_one, read_line};
use octets::List;
use std::alloc::{AllocError, Global};
use std::mem;

/// The most octets of a line, with its LF: what Dovecot's own clients take.
pub(crate) const MAX_LINE: usize = 8192;

/// How far a connection has come.
#[derive(Clone, Copy, PartialEq, Eq)]
pub enum UserdbPhase {
    /// The server hasn't said its version yet.
    Greeting,
    /// It has, and answers.
    Open,
    /// It is at its end.
    Over(UserdbEnd),
}

/// How far a connection has come, and which requests wait for an answer.
#[derive(Drop)]
pub struct UserdbTalk {
    pub(crate) phase: UserdbPhase,
    /// The numbers of the requests that aren't answered, in the order in which they were made.
    pub(crate) waiting: List<u32>,
}

impl UserdbTalk {
    /// A copy. Lack of memory is the only error.
    pub(crate) fn try_clone(&self, alloc: Global) -> Result<UserdbTalk, AllocError>
        ensures { IfOk result (λ copy. copy ≡ self.now) }
    {
        Ok(UserdbTalk {
            phase: self.phase,
            waiting: List::from_vec(Vec::from_slice(alloc, self.waiting.as_slice())?),
        })
    }

    /// It ends; one that is at its end stays so. The requests that wait are kept: they get no answer.
    pub(crate) fn end(&mut self, end: UserdbEnd)
        ensures { self.new ≡ s.talk_ended end self.old }
    {
        if let UserdbPhase::Over(_) = self.phase {
            return;
        }
        self.phase = UserdbPhase::Over(end);
    }

    /// Hears all lines that are whole. Returns the answers, in the order in which they came, and the beginning of the line that isn't whole.
    ///
    /// Time and memory are linear in the octets; lack of memory is the only error, and leaves any state.
    pub(crate) fn hear_lines<'a>(
        &mut self,
        alloc: Global,
        octets: &'a [u8],
    ) -> Result<(List<UserdbReply>, &'a [u8]), AllocError>
        ensures { IfOk result (λ heard. s.HearsUserdbLines octets.now self.old heard.0 heard.1.now self.new) }
    {
        let mut replies = List::new(alloc);
        let mut left = octets;
        loop {
            let (line, behind) = cut_at(b'\n', left);
            let Some(rest) = behind else {
                return Ok((replies, left));
            };
            let told = self.hear_line(alloc, line)?;
            push_told(&mut replies, told)?;
            left = rest;
        }
    }

    /// The beginning of a line has come, of which no more may be held.
    pub(crate) fn hear_part(&mut self, part: &[u8])
        ensures { self.new ≡ s.talk_with_part part.now self.old }
    {
        if part.len() >= MAX_LINE {
            self.end(UserdbEnd::LongLine);
        }
    }

    // Hears a line, which is without its LF.
    fn hear_line(&mut self, alloc: Global, line: &[u8]) -> Result<Option<UserdbReply>, AllocError>
        ensures { IfOk result (λ told. s.HearsUserdbLine line.now self.old told self.new) }
    {
        if line.len() >= MAX_LINE {
            self.end(UserdbEnd::LongLine);
            return Ok(None);
        }
        self.hear_short(alloc, line)
    }

    // The same, of a line that isn't too long.
    fn hear_short(&mut self, alloc: Global, line: &[u8]) -> Result<Option<UserdbReply>, AllocError>
        ensures { IfOk result (λ told. s.HearsShortLine self.old.phase line.now self.old told self.new) }
    {
        match self.phase {
            UserdbPhase::Greeting => {
                self.greet(line);
                Ok(None)
            }
            UserdbPhase::Open => self.hear_answer(alloc, line),
            UserdbPhase::Over(_) => Ok(None),
        }
    }

    // The same, once the server has said its version.
    fn hear_answer(&mut self, alloc: Global, line: &[u8]) -> Result<Option<UserdbReply>, AllocError>
        ensures { IfOk result (λ told. s.AnswersUserdbLine line.now self.old told self.new) }
    {
        let said = read_line(alloc, line)?;
        Ok(self.follow(alloc, said))
    }

    // The first line is to say version 1.
    fn greet(&mut self, line: &[u8])
        ensures { s.GreetsBy line.now self.old self.new }
    {
        if is_version_one(line) {
            self.phase = UserdbPhase::Open;
            return;
        }
        self.end(UserdbEnd::Version);
    }

    // What follows from what a line says.
    fn follow(&mut self, alloc: Global, said: UserdbLine) -> Option<UserdbReply>
        ensures { s.FollowsSaid said self.old result self.new }
    {
        match said {
            UserdbLine::Answer(reply) => self.take_reply(alloc, reply),
            UserdbLine::Passed => None,
            UserdbLine::Broken => {
                self.end(UserdbEnd::NoAnswer);
                None
            }
        }
    }

    // An answer came: it is told if its request waits.
    fn take_reply(&mut self, alloc: Global, reply: UserdbReply) -> Option<UserdbReply>
        ensures { s.TakesUserdbReply reply self.old result self.new }
    {
        if self.forget(alloc, reply.id) {
            return Some(reply);
        }
        self.end(UserdbEnd::Unasked);
        None
    }

    // A request no longer waits. Returns whether it did.
    fn forget(&mut self, alloc: Global, id: u32) -> bool
        ensures { s.ForgetsRequest id self.old result self.new }
    {
        let Some(at) = place_of(self.waiting.as_slice(), id) else {
            return false;
        };
        let mut waiting = mem::replace(&mut self.waiting, List::new(alloc)).into_vec();
        let _ = waiting.remove(at);
        self.waiting = List::from_vec(waiting);
        true
    }
}

// Where a number stands first.
fn place_of(numbers: &[u32], number: u32) -> Option<usize>
    ensures { MatchOption result (HasNone number numbers.now) (λ at. s.StandsFirstAt number numbers.now at) }
{
    for (at, other) in numbers.iter().enumerate() {
        if *other == number {
            return Some(at);
        }
    }
    None
}

// Appends an answer, if one is told. Lack of memory is the only error.
fn push_told(replies: &mut List<UserdbReply>, told: Option<UserdbReply>) -> Result<(), AllocError>
    ensures { OnOk result (replies.new ≡ replies.old ++ option_to_list told) }
{
    match told {
        Some(reply) => replies.push(reply),
        None => Ok(()),
    }
}
