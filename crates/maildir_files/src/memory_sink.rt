//! A sink over memory, for tests.
ghost use Rattle.std.specs.Prelude.{◌≡◌, ◌++◌, [], IfOk, OnOk, OnErr};
ghost use Rattle.maildir_files.specs.Kept.{kept_mail};

use crate::kept::KeptMail;
use crate::sink::{MailSink, SinkError};
use octets::{List, Octets};
use std::alloc::{AllocError, Global};
use std::io::ErrorKind;
use std::mem::replace;

/// Keeps messages in memory, whatever path it is given, and fails at one call that was chosen.
#[derive(Drop)]
pub struct MemorySink {
    messages: List<KeptMail>,
    /// Those that are put and not settled.
    unsettled: List<KeptMail>,
    alloc: Global,
    /// How many calls of `keep`, `put` and `settle` come before the one that fails.
    fail_after: Option<u64>,
    /// Whether no path is a Maildir's.
    refuses: bool,
}

impl MemorySink {
    /// A sink without messages. Takes no memory.
    pub fn new(alloc: Global) -> MemorySink
        ensures { result.messages ≡ [] }
    {
        MemorySink {
            messages: List::new(alloc),
            unsettled: List::new(alloc),
            alloc,
            fail_after: None,
            refuses: false,
        }
    }

    /// The one call of `keep`, `put` or `settle` after that many others answers `Failed`, and does nothing else.
    pub fn fail_after(&mut self, calls: u64)
        ensures { self.new.messages ≡ self.old.messages }
    {
        self.fail_after = Some(calls);
    }

    /// From now on each call of `open` answers `NoMaildir`.
    pub fn refuse_maildir(&mut self)
        ensures { self.new.messages ≡ self.old.messages }
    {
        self.refuses = true;
    }

    /// What was kept, in order. Takes no memory.
    pub fn messages(&self) -> &[KeptMail]
        ensures { result.now ≡ self.now.messages }
    {
        self.messages.as_slice()
    }

    /// Whether this call is the one that fails.
    fn fails(&mut self) -> bool
        ensures messages { self.new.messages ≡ self.old.messages }
        ensures unsettled { self.new.unsettled ≡ self.old.unsettled }
    {
        let calls = self.fail_after;
        self.fail_after = calls.and_then(|calls| calls.checked_sub(1));
        calls == Some(0)
    }

    /// A copy of the message that this call is told of, or `Failed` if this call is the one that fails.
    fn copy_told(
        &mut self,
        user: &[u8],
        folder: &[u8],
        number: u64,
        message: &[u8],
        flags: &[u8],
    ) -> Result<KeptMail, SinkError>
        ensures messages { self.new.messages ≡ self.old.messages }
        ensures unsettled { self.new.unsettled ≡ self.old.unsettled }
        ensures copied { IfOk result (λ mail. mail ≡ kept_mail user.now folder.now number message.now flags.now) }
    {
        if self.fails() {
            return Err(SinkError::Failed);
        }
        let alloc = self.alloc;
        Ok(KeptMail {
            user: Octets::from_slice(alloc, user)?,
            folder: Octets::from_slice(alloc, folder)?,
            number,
            message: Octets::from_slice(alloc, message)?,
            flags: Octets::from_slice(alloc, flags)?,
        })
    }

    /// Moves what was put to what is kept. Lack of memory is the only error; then nothing is kept of it.
    fn keep_all(&mut self) -> Result<(), AllocError>
        ensures kept { OnOk result (self.new.messages ≡ self.old.messages ++ self.old.unsettled) }
        ensures refused { OnErr result (self.new.messages ≡ self.old.messages) }
        ensures none { self.new.unsettled ≡ [] }
    {
        let mut more = replace(&mut self.unsettled, List::new(self.alloc)).into_vec();
        let mut messages = replace(&mut self.messages, List::new(self.alloc)).into_vec();
        let appended = messages.append(&mut more);
        self.messages = List::from_vec(messages);
        appended
    }
}

impl MailSink for MemorySink {
    ghost use Rattle.std.specs.Prelude.{true, None, Contains};

    ghost tells = { true };

    ghost kept = { λ sink. sink.messages };

    ghost unsettled = { λ sink. sink.unsettled };

    ghost said = { λ _. None };

    ghost has_put = { λ sink _ mail. Contains sink.unsettled mail };

    ghost keeps_at = { λ sink _ mail. Contains sink.messages mail };

    ghost told = { λ _ _ _ keeps _. keeps };

    fn open(&mut self, _path: &str) -> Result<(), SinkError> {
        if self.refuses {
            return Err(SinkError::NoMaildir);
        }
        self.unsettled = List::new(self.alloc);
        Ok(())
    }

    fn make(&mut self, _path: &str) -> Result<(), SinkError> {
        Ok(())
    }

    fn make_way(&mut self, _path: &str) -> Result<(), SinkError> {
        Ok(())
    }

    fn subscribe(&mut self, _home: &str, _place: &str) -> Result<(), SinkError> {
        Ok(())
    }

    fn keep(
        &mut self,
        user: &[u8],
        folder: &[u8],
        number: u64,
        message: &[u8],
        flags: &[u8],
    ) -> Result<(), SinkError> {
        let mail = self.copy_told(user, folder, number, message, flags)?;
        self.messages.push(mail)?;
        Ok(())
    }

    fn put(
        &mut self,
        user: &[u8],
        folder: &[u8],
        number: u64,
        message: &[u8],
        flags: &[u8],
    ) -> Result<(), SinkError> {
        let mail = self.copy_told(user, folder, number, message, flags)?;
        self.unsettled.push(mail)?;
        Ok(())
    }

    fn settle(&mut self) -> Result<(), SinkError> {
        if self.fails() {
            self.unsettled = List::new(self.alloc);
            return Err(SinkError::Failed);
        }
        self.keep_all()?;
        Ok(())
    }

    fn cause(&self) -> Option<ErrorKind> {
        None
    }
}
