//! The log on standard error, the counts of its status line, and the pause after a failure of the store.
ghost use Rattle.std.specs.Prelude.{◌≡◌, ◌-◌, ◌<◌, ◌⊎◌, true, false, None, nat_lt};
ghost use Rattle.cli_run.specs.Faults.{status_of};
ghost use Rattle.daemon_log.specs.Tallies.{is_no_count};
ghost use Rattle.daemon_log.specs.Times.{CountsEvent};
ghost use Rattle.daemon_host.specs.Events as events;
ghost use Rattle.daemon_host.specs.Log.{is_delivered_answer, moved_count as count_of, moving_failed_store};
ghost use Rattle.daemon_host.specs.Pauses.{PauseBegins, PauseIsOver};
ghost use Rattle.store_accounts.specs.declared.refusal.Refusal.TheVariants.{Store};
ghost use Rattle.store_engine.specs.declared.answer.Answer.TheVariants.{Refused};

use crate::log::{
    has_failed, is_delivered, moved_count, of_beginning, of_delivery, of_login, of_moving, of_slow,
};
use crate::pause::Pause;
use cli_run::fault::RunFault;
use cli_run::fault_with_cause::{FaultWithCause, FirstFault};
use daemon_core::gathered::GatheredRequest;
use daemon_log::tally::{StatusTally, status_line};
use lmtp_connections::DeliveryRequest;
use lmtp_dialogue::Lookup;
use maildir_moves::Moving;
use net_shares::TimeAccount;
use octets::Octets;
use sqlite::ErrorCode;
use std::alloc::{AllocError, Global};
use std::io::{ErrorKind, Write};
use store_engine::{Answer, Refusal};
use store_lock::cause::{FILE_IS_GONE, sqlite_cause};

/// An act of this many microseconds has a line of its own.
const SLOW: u64 = 200_000;

/// How many milliseconds pass between two lines `status`.
const STATUS_SPAN: u64 = 60000;

/// The errors, what was told on them of the store, and whether it failed; what happened since the last line `status`. Moments are
/// in milliseconds.
#[derive(Drop)]
pub struct HostLog<E: Write + Drop> {
    alloc: Global,
    errors: E,
    /// No delivery that was made is told of, no message that moved, and no login.
    quiet: bool,
    /// The store failed, and is to be given back.
    failed: bool,
    pause: Pause,
    /// The first fault of the store since it was taken.
    first_fault: FirstFault,
    tally: StatusTally,
    /// The moment of the last line `status`, or of a minute in which nothing happened.
    told: u64,
}

impl<E: Write + Drop> HostLog<E> {
    /// Nothing was told.
    pub fn new(alloc: Global, errors: E, quiet: bool) -> HostLog<E>
        ensures failed { result.failed ≡ false }
        ensures quiet { result.quiet ≡ quiet }
    {
        HostLog {
            alloc,
            errors,
            quiet,
            failed: false,
            pause: Pause::none(),
            first_fault: FirstFault::none(),
            tally: StatusTally::none(),
            told: 0,
        }
    }

    /// Writes the first line, the program's version and the number of its process, and then these lines, if there was memory for them.
    pub fn begin(&mut self, version: &[u8], pid: u32, lines: Result<Octets, AllocError>)
        ensures failed { self.new.failed ≡ self.old.failed }
        ensures tally { self.new.tally ≡ self.old.tally }
    {
        self.tell_line(of_beginning(self.alloc, version, pid));
        self.tell_line(lines);
    }

    /// Writes the line `status`, for each minute in which something happened.
    pub fn tell_status(&mut self, now: u64)
        ensures failed { self.new.failed ≡ self.old.failed }
        ensures soon { now - self.old.told < 60000 → self.new ≡ self.old }
        ensures tally { (self.new.tally ≡ self.old.tally) ⊎ (is_no_count self.new.tally.counts ≡ true) }
    {
        if now.saturating_sub(self.told) < STATUS_SPAN {
            return;
        }
        self.told = now;
        if self.tally.counts.is_none() {
            return;
        }
        let times = &self.tally.times;
        let line = status_line(
            self.alloc,
            &self.tally.counts,
            times.within(50),
            times.within(99),
        );
        self.tell_line(line);
        self.tally = StatusTally::none();
    }

    /// An event that asked the store took this many microseconds.
    pub fn note_time(&mut self, micros: u64)
        ensures times { CountsEvent micros self.old.tally.times self.new.tally.times }
        ensures counts { self.new.tally.counts ≡ self.old.tally.counts }
        ensures failed { self.new.failed ≡ self.old.failed }
    {
        self.tally.times.note(micros);
    }

    /// An act of that kind took this many microseconds of an account's time: if that is long, it is told.
    pub fn note_slow(&mut self, what: &[u8], account: &TimeAccount, micros: u64)
        ensures failed { self.new.failed ≡ self.old.failed }
        ensures tally { self.new.tally ≡ self.old.tally }
    {
        if micros < SLOW {
            return;
        }
        let line = of_slow(self.alloc, what, user_of(account), micros / 1000);
        self.tell_line(line);
    }

    /// A user logged in.
    pub fn tell_login(&mut self, user: &[u8])
        ensures failed { self.new.failed ≡ self.old.failed }
        ensures tally { self.new.tally ≡ self.old.tally }
        ensures quiet { self.old.quiet ≡ true → self.new ≡ self.old }
    {
        if !self.quiet {
            self.tell_line(of_login(self.alloc, user));
        }
    }

    /// A command of ManageSieve was answered.
    pub fn note_command(&mut self)
        ensures { self.new.tally.counts ≡ events.with_command self.old.tally.counts }
    {
        count(&mut self.tally.counts.commands);
    }

    /// The answer to a login that failed was told.
    pub fn note_failed_login(&mut self)
        ensures { self.new.tally.counts ≡ events.with_failed_login self.old.tally.counts }
    {
        count(&mut self.tally.counts.logins_failed);
    }

    /// Whether the store failed since it was taken.
    pub fn has_failed(&self) -> bool
        ensures { result ≡ self.now.failed }
    {
        self.failed
    }

    /// Whether the store is left alone at a moment.
    pub fn lasts(&self, now: u64) -> bool
        ensures { result ≡ nat_lt now self.now.pause.until }
    {
        self.pause.lasts(now)
    }

    /// Tells of the fault that ends the daemon, and gives its exit status.
    pub fn refuse(&mut self, fault: FaultWithCause) -> u8
        ensures { result ≡ status_of fault.fault }
    {
        fault.tell(&mut self.errors);
        fault.fault.status()
    }

    /// The store was taken.
    pub fn note_taken(&mut self)
        ensures first { self.new.first_fault.fault ≡ None }
        ensures untold { self.new.first_fault.is_told ≡ false }
        ensures failed { self.new.failed ≡ self.old.failed }
        ensures tally { self.new.tally ≡ self.old.tally }
    {
        self.first_fault = FirstFault::none();
    }

    /// The store can't be taken: that is told, and it is left alone for a while.
    pub fn leave_alone(&mut self, refusal: Refusal, cause: Option<&'static str>, now: u64)
        ensures left { PauseBegins now self.old.pause self.new.pause }
        ensures failed { self.new.failed ≡ self.old.failed }
        ensures tally { self.new.tally ≡ self.old.tally }
    {
        tell(&mut self.errors, refusal, cause);
        self.pause.begin(now);
    }

    /// The store was given back, and couldn't be closed if there is a refusal. After a failure it is left alone for a while.
    pub fn note_given(&mut self, refusal: Option<Refusal>, cause: Option<&'static str>, now: u64)
        ensures failed { self.new.failed ≡ false }
        ensures left { self.old.failed ≡ true → PauseBegins now self.old.pause self.new.pause }
        ensures asked { self.old.failed ≡ false → self.new.pause ≡ self.old.pause }
        ensures tally { self.new.tally ≡ self.old.tally }
    {
        if let Some(refusal) = refusal {
            tell(&mut self.errors, refusal, cause);
        }
        if self.failed {
            self.failed = false;
            self.pause.begin(now);
        }
    }

    /// The file at the path is no longer that of the store that is held.
    pub fn note_lost(&mut self)
        ensures failed { self.new.failed ≡ self.old.failed }
        ensures tally { self.new.tally ≡ self.old.tally }
    {
        tell(&mut self.errors, Refusal::Store, Some(FILE_IS_GONE));
    }

    /// Notes what an answer says of the store. The first failure since it was taken is told; after one that isn't lack of room the
    /// store is given back.
    pub fn note_answer(&mut self, answer: &Answer, code: Option<ErrorCode>)
        ensures failed { self.new.failed ≡ events.failed_by (events.answers_fault answer.now) code self.old.failed }
        ensures tally { self.new.tally ≡ self.old.tally }
    {
        match answer {
            Answer::Refused(Refusal::Store) => self.note_failure(code),
            Answer::Refused(_) => {}
            _ => self.note_success(),
        }
    }

    /// The same of a delivery, which is told of.
    pub fn note_delivery(
        &mut self,
        request: &DeliveryRequest,
        answer: &Answer,
        code: Option<ErrorCode>,
    )
        ensures failed { self.new.failed ≡ events.failed_by (events.answers_fault answer.now) code self.old.failed }
        ensures counted { self.new.tally.counts ≡ events.with_delivery (is_delivered_answer answer.now) self.old.tally.counts }
    {
        self.note_answer(answer, code);
        self.count_delivery(answer);
        if self.quiet && is_delivered(answer) {
            return;
        }
        self.tell_line(of_delivery(self.alloc, request, answer));
    }

    /// The same of each of these, by its answer, one after the other: they are 64 at most.
    pub fn note_deliveries(
        &mut self,
        requests: &[GatheredRequest],
        answers: &[Answer],
        code: Option<ErrorCode>,
    )
        ensures failed { self.new.failed ≡ events.failed_by_each requests.now answers.now code self.old.failed }
        ensures counted { self.new.tally.counts ≡ events.with_deliveries requests.now answers.now self.old.tally.counts }
    {
        let Some((it, more)) = requests.split_first() else {
            return;
        };
        let Some((answer, rest)) = answers.split_first() else {
            return;
        };
        self.note_delivery(&it.request, answer, code);
        self.note_deliveries(more, rest, code)
    }

    /// Refuses a delivery, since the file at the path is no longer that of the store, and tells so.
    pub fn refuse_delivery(&mut self, request: &DeliveryRequest) -> Answer
        ensures answer { result ≡ Refused Store }
        ensures counted { self.new.tally.counts ≡ events.with_delivery false self.old.tally.counts }
        ensures failed { self.new.failed ≡ self.old.failed }
    {
        let answer = Answer::Refused(Refusal::Store);
        self.count_delivery(&answer);
        self.tell_line(of_delivery(self.alloc, request, &answer));
        answer
    }

    fn count_delivery(&mut self, answer: &Answer)
        ensures counted { self.new.tally.counts ≡ events.with_delivery (is_delivered_answer answer.now) self.old.tally.counts }
        ensures failed { self.new.failed ≡ self.old.failed }
    {
        if is_delivered(answer) {
            count(&mut self.tally.counts.delivered);
        } else {
            count(&mut self.tally.counts.refused);
        }
    }

    /// The same of a look for an account.
    pub fn note_lookup(&mut self, lookup: Lookup, code: Option<ErrorCode>)
        ensures failed { self.new.failed ≡ events.failed_by (events.is_fault lookup) code self.old.failed }
    {
        match lookup {
            Lookup::Fault => self.note_failure(code),
            Lookup::NoRoom => {}
            _ => self.note_success(),
        }
    }

    /// The same of messages that were to move on, which are told of.
    pub fn note_moving(
        &mut self,
        moving: &Moving,
        code: Option<ErrorCode>,
        cause: Option<ErrorKind>,
    )
        ensures failed { self.new.failed ≡ events.failed_by (moving_failed_store moving.now) code self.old.failed }
        ensures counted { self.new.tally.counts ≡ events.moved_by (count_of moving.now) self.old.tally.counts }
    {
        if has_failed(moving) {
            self.note_failure(code);
        }
        let moved = &mut self.tally.counts.moved;
        *moved = moved.saturating_add(moved_count(moving));
        self.tell_line(of_moving(self.alloc, moving, cause, self.quiet));
    }

    /// Tells a line, if there was memory for it.
    fn tell_line(&mut self, line: Result<Octets, AllocError>)
        ensures failed { self.new.failed ≡ self.old.failed }
        ensures tally { self.new.tally ≡ self.old.tally }
    {
        if let Ok(line) = line {
            let _ = self.errors.write_all(line.as_slice());
        }
    }

    fn note_success(&mut self)
        ensures over { PauseIsOver self.new.pause }
        ensures failed { self.new.failed ≡ self.old.failed }
        ensures tally { self.new.tally ≡ self.old.tally }
    {
        self.pause = Pause::none();
    }

    fn note_failure(&mut self, code: Option<ErrorCode>)
        ensures failed { self.new.failed ≡ events.failed_by true code self.old.failed }
        ensures tally { self.new.tally ≡ self.old.tally }
    {
        self.first_fault.note(FaultWithCause {
            fault: RunFault::Refused(Refusal::Store),
            cause: code.and_then(sqlite_cause),
        });
        self.first_fault.tell(&mut self.errors);
        match code {
            Some(ErrorCode::DiskFull) => {}
            _ => {
                self.failed = true;
            }
        }
    }
}

/// The user whose time it is, if it is one's.
fn user_of(account: &TimeAccount) -> Option<&[u8]> {
    match account {
        TimeAccount::User(name) => Some(name.as_slice()),
        TimeAccount::Unauthenticated | TimeAccount::Senders => None,
    }
}

/// Counts it once more.
fn count(times: &mut u64)
    ensures { times.new ≡ events.more times.old }
{
    *times = times.saturating_add(1);
}

/// Tells of a fault of the store, and of its cause, if that is known.
fn tell<E: Write>(errors: &mut E, refusal: Refusal, cause: Option<&'static str>) {
    let fault = RunFault::Refused(refusal);
    let cause = match refusal {
        Refusal::Store => cause,
        _ => None,
    };
    FaultWithCause { fault, cause }.tell(errors);
}
