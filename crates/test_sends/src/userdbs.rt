//! Dialogues with Dovecot's userdb.
use dovecot_userdb::{UserdbAnswer, UserdbConnection, UserdbReply, UserdbWanted, is_askable};
use octets::{Octets, write_decimal};
use std::alloc::{AllocError, Global};
use test_files::Answers;

/// How many octets come at once, at most: what is answered doesn't depend on that.
const PIECES: [usize; 4] = [4_096, 1, 2, 7];

/// Answers what is told, what is waited for at the end, the requests without an answer, and what was written.
///
/// A column is what happens next: `?` and a name that is asked for (nothing more, if it can't be or if no request may be made), `<` and
/// octets that come, or `>`, by which all is written that is to be.
#[derive(Drop)]
pub struct Userdbs;

impl Answers for Userdbs {
    fn answer(
        &mut self,
        alloc: Global,
        out: &mut Octets,
        given: &[Octets],
    ) -> Result<(), AllocError> {
        let mut first: Option<Octets> = None;
        for most in PIECES {
            let told = Dialogue::played(alloc, given, most)?;
            match &first {
                None => first = Some(told),
                Some(other) => {
                    if *other != told {
                        out.extend_from_slice(b"pieces differ: ")?;
                    }
                }
            }
        }
        match first {
            Some(told) => out.extend_from_slice(told.as_slice()),
            None => Ok(()),
        }
    }
}

// A dialogue, and what is told of it.
#[derive(Drop)]
struct Dialogue {
    connection: UserdbConnection,
    told: Octets,
    written: Octets,
}

impl Dialogue {
    // All of it, with so many octets at once, and what is told of it.
    fn played(alloc: Global, given: &[Octets], most: usize) -> Result<Octets, AllocError> {
        let mut dialogue = Dialogue {
            connection: UserdbConnection::new(alloc)?,
            told: Octets::new(alloc),
            written: Octets::new(alloc),
        };
        for column in given {
            match column.as_slice().split_first() {
                Some((b'?', name)) => dialogue.ask(name)?,
                Some((b'<', octets)) => dialogue.hear(octets, most)?,
                Some((b'>', _)) => dialogue.write(most)?,
                _ => {}
            }
        }
        dialogue.told_at_last(alloc)
    }

    fn ask(&mut self, name: &[u8]) -> Result<(), AllocError> {
        if !self.connection.may_ask() {
            return self.told.extend_from_slice(b"may not ask; ");
        }
        if !is_askable(name) {
            return self.told.extend_from_slice(b"not askable; ");
        }
        let _id = self.connection.ask(name)?;
        Ok(())
    }

    fn hear(&mut self, octets: &[u8], most: usize) -> Result<(), AllocError> {
        for piece in octets.chunks(most.max(1)) {
            let replies = self.connection.hear(piece)?;
            for reply in replies.as_slice() {
                self.tell(reply)?;
            }
        }
        Ok(())
    }

    fn tell(&mut self, reply: &UserdbReply) -> Result<(), AllocError> {
        write_decimal(&mut self.told, u64::from(reply.id))?;
        match &reply.answer {
            UserdbAnswer::Found { name } => {
                self.told.extend_from_slice(b" found ")?;
                self.told.extend_from_slice(name.as_slice())?;
            }
            UserdbAnswer::NotFound => self.told.extend_from_slice(b" not found")?,
            UserdbAnswer::Failed => self.told.extend_from_slice(b" failed")?,
        }
        self.told.extend_from_slice(b"; ")
    }

    fn write(&mut self, most: usize) -> Result<(), AllocError> {
        for _ in 0..self.connection.out().len() {
            let out = self.connection.out();
            let count = out.len().min(most);
            self.written.extend_from_slice(&out[..count])?;
            self.connection.wrote(count);
        }
        Ok(())
    }

    fn told_at_last(mut self, alloc: Global) -> Result<Octets, AllocError> {
        match self.connection.wanted() {
            UserdbWanted::Greeting => self.told.extend_from_slice(b"greeting")?,
            UserdbWanted::Answer => self.told.extend_from_slice(b"answer")?,
            UserdbWanted::Request => self.told.extend_from_slice(b"request")?,
            UserdbWanted::Nothing(end) => {
                let text = format!(in alloc; "{end}")?;
                self.told.extend_from_slice(text.as_bytes())?;
            }
        }
        self.told.extend_from_slice(b";")?;
        for id in self.connection.unanswered() {
            self.told.extend_from_slice(b" ")?;
            write_decimal(&mut self.told, u64::from(*id))?;
        }
        self.told.extend_from_slice(b"; ")?;
        self.told.extend_from_slice(self.written.as_slice())?;
        Ok(self.told)
    }
}
