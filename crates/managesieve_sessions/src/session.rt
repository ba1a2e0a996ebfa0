//! One client's session.
ghost use Rattle.std.specs.Prelude.{◌≡◌, ◌≤◌, ◌++◌, cond, true, false, None, Some, is_some, length, IfOk, IfErr, OnOk, OnErr};
ghost use Rattle.store_accounts.specs.Cells.{borrowed_octets};
ghost use Rattle.managesieve_protocol.specs.Replies.{reply_octets};
ghost use Rattle.managesieve_sessions.specs.Clients.{client_given, has_failed, is_item, is_ready, reach_in, without_first, after_logout};
ghost use Rattle.managesieve_sessions.specs.Counts.{new_session, given_more, looked_in, scanned_past, scanned_in_step};
ghost use Rattle.managesieve_sessions.specs.GivenUp.{text_given_up, client_given_up, progress_given_up};
ghost use Rattle.managesieve_sessions.specs.Logins.{login_client};
ghost use Rattle.managesieve_sessions.specs.Replies as r;
ghost use Rattle.sqlite.specs.Held.{state};
ghost use Rattle.managesieve_sessions.specs.declared.command_class.StoreCommand.TheVariants.{Login, Script};
ghost use Rattle.managesieve_sessions.specs.Orders.{ActsStep, StepsAsked, MayRefuse};
ghost use Rattle.managesieve_sessions.specs.Refusing.{WasRefused};
ghost use Rattle.managesieve_sessions.specs.Steps.{progress_of, Asked, StepsFirst, StepsFree, IfOver, IfCommand, IfAsks, IfMade, gives_command, has_command, may_lack, may_fail};
ghost use Rattle.managesieve_sessions.specs.CommandOutcomes.{client_after};

use crate::account::{admitted, execute};
use crate::command_class::{LoginCommand, ScriptCommand, StoreCommand};
use crate::command_outcome::{CommandOutcome, SessionChange};
use crate::free::{FreeOutcome, free_outcome};
use crate::login::{MAX_FAILURES, exchange, login_text};
use crate::progress::{FirstItem, FreeStep, Progress};
use crate::replies::capability_reply;
use managesieve_protocol::{ItemExtent, Scan, command_at, spell};
use octets::{Octets, Pending};
use sqlite::Alter;
use std::alloc::{AllocError, Global};
use std::marker::Model;
use store_accounts::{Refusal, Store};

/// The reply if an item can't be answered now (RFC 5804, section 1.3).
const TRY_LATER: &[u8] = b"NO (TRYLATER) \"Try later.\"\r\n";

/// The reply to a line that is no command.
const SYNTAX: &[u8] = b"NO \"Syntax error.\"\r\n";

/// The reply to an item that is too long.
const TOO_BIG: &[u8] = b"BYE \"Too big.\"\r\n";

/// A client's session: who is logged in, how many logins failed, the octets that came and are not yet taken off, whether
/// a challenge waits for its answer, and whether the session has ended. Contracts see these, and two counts of octets: of
/// those that came, and of those that were scanned in items that are taken off.
///
/// The scans for the ends of items count each octet that comes at most once; a command's octets are read again for its
/// value. A session holds at most what may be unread: what is too big ends it.
#[derive(Drop)]
pub struct Session {
    alloc: Global,
    user: Option<Octets>,
    failures: u32,
    unread: Pending,
    pending: bool,
    closed: bool,
    scan: Scan,
    scanned: u64,
    given: u64,
}

impl Model for Session {
    ghost use Rattle.managesieve_sessions.specs.Counts.{SessionView, IsScanned};

    ghost Value = { SessionView };

    ghost view = { λ s. record {
      client = record { user = s.user; failures = s.failures; unread = s.unread; pending = s.pending; closed = s.closed };
      given = s.given;
      scanned = s.scanned;
    } };

    ghost invariant = { λ s. IsScanned s.pending s.scan s.unread s.scanned s.given };
}

impl Session {
    /// A new session, whose greeting is appended to the output. Lack of memory is the only error, and the output then stays.
    pub fn new(alloc: Global, out: &mut Octets) -> Result<Session, AllocError>
        ensures begins { IfOk result (λ session. session ≡ new_session) }
        ensures greets { OnOk result (out.new ≡ out.old ++ reply_octets (r.capability_reply None)) }
        ensures err { OnErr result (out.new ≡ out.old) }
    {
        let greeting = capability_reply(alloc, &None)?;
        spell(alloc, &greeting, out)?;
        Ok(Session {
            alloc,
            user: None,
            failures: 0,
            unread: Pending::new(alloc),
            pending: false,
            closed: false,
            scan: Scan::new(false),
            scanned: 0,
            given: 0,
        })
    }

    /// Appends a piece of the client's octets to those that are not yet taken off, and scans it up to the end of the first
    /// item. A session that has ended keeps nothing of it. Lack of memory is the only error, and nothing changes then.
    ///
    /// Time over all pieces is linear in their octets.
    pub fn give(&mut self, piece: &[u8]) -> Result<(), AllocError>
        ensures joins { OnOk result (self.new.client ≡ client_given piece.now self.old.client) }
        ensures counts { OnOk result (self.new.given ≡ given_more piece.now self.old) }
        ensures scans { OnOk result (self.new.scanned ≡ self.old.scanned) }
        ensures err { OnErr result (self.new ≡ self.old) }
    {
        if self.closed {
            return Ok(());
        }
        self.unread.extend_from_slice(piece)?;
        self.scan.feed(piece);
        self.given = self.given.saturating_add(piece.len() as u64);
        Ok(())
    }

    /// Whether an item can be taken off: one is whole, or the octets are too big; never after the session has ended.
    /// Takes no memory and constant time.
    pub fn ready(&self) -> bool
        ensures { result ≡ is_ready self.now.client }
    {
        !self.closed && !matches!(self.scan.state(), ItemExtent::Need)
    }

    /// The answer that `give_up` would return: empty if no item is whole, or if the session has ended. Takes no memory.
    pub fn text_given_up(&self) -> &'static [u8]
        ensures { result.now ≡ text_given_up self.now.client }
    {
        if self.closed {
            return b"";
        }
        match self.scan.state() {
            ItemExtent::Need => b"",
            ItemExtent::TooBig => TOO_BIG,
            _ => TRY_LATER,
        }
    }

    /// How the session would go on after `give_up`: it waits if no item is whole. Takes no memory.
    pub fn progress_given_up(&self) -> Progress
        ensures { result ≡ progress_given_up self.now.client }
    {
        if self.closed {
            return Progress::Close;
        }
        match self.scan.state() {
            ItemExtent::Need => Progress::Need,
            ItemExtent::TooBig => Progress::Close,
            _ => Progress::Done,
        }
    }

    /// Whether the session has ended: nothing more is taken from the client then. Takes no memory.
    pub fn is_closed(&self) -> bool
        ensures { result ≡ self.now.client.closed }
    {
        self.closed
    }

    /// Whether somebody is logged in. Takes no memory.
    pub fn is_logged_in(&self) -> bool
        ensures { result ≡ is_some self.now.client.user }
    {
        self.user.is_some()
    }

    /// Who is logged in, if anybody is. Takes no memory.
    pub fn user(&self) -> Option<&[u8]>
        ensures { borrowed_octets result ≡ self.now.client.user }
    {
        match &self.user {
            Some(user) => Some(user.as_slice()),
            None => None,
        }
    }

    /// Whether a login failed since the session began or the last login ended. Takes no memory.
    pub fn has_failed(&self) -> bool
        ensures { result ≡ has_failed self.now.client }
    {
        self.failures != 0
    }

    /// How many octets came and are not yet taken off. Takes no memory.
    pub fn unread_len(&self) -> usize
        ensures { result ≡ length self.now.client.unread }
    {
        self.unread.as_slice().len()
    }

    /// Drops the first item, which can't be answered now, and a pending challenge with it, and returns the answer. If
    /// no item is whole, or if the session has ended, that is empty, and nothing changes. An item that is too big ends the session.
    /// Takes no memory, and time linear in the octets up to the end of the next item.
    pub fn give_up(&mut self) -> &'static [u8]
        ensures text { result.now ≡ text_given_up self.old.client }
        ensures client { self.new.client ≡ client_given_up self.old.client }
        ensures counts { self.new.given ≡ self.old.given }
        ensures scans { self.new.scanned ≡ scanned_in_step self.old }
    {
        if self.closed {
            return b"";
        }
        match self.scan.state() {
            ItemExtent::Need => b"",
            ItemExtent::TooBig => {
                self.closed = true;
                TOO_BIG
            }
            _ => {
                self.take_off(false);
                TRY_LATER
            }
        }
    }

    /// The step if no command comes first: a bad line and an item that is too big are answered; nothing is answered if
    /// no item is whole, or if the session has ended. A command that comes first is read and returned, and
    /// nothing changes then. Lack of memory is the only error, if there is something to answer; nothing changes then.
    pub fn step_over(&mut self, out: &mut Octets) -> Result<FirstItem, AllocError>
        ensures step { IfOk result (λ first. StepsFirst self.old.client self.new.client first out.old out.new) }
        ensures command { IfOk result (λ first. gives_command first ≡ has_command self.old.client) }
        ensures counts { OnOk result (self.new.given ≡ self.old.given) }
        ensures scans { IfOk result (λ first. IfOver first (self.new.scanned ≡ scanned_in_step self.old)) }
        ensures same { IfOk result (λ first. IfCommand first ((self.new ≡ self.old) × (out.new ≡ out.old))) }
        ensures err { OnErr result ((self.new ≡ self.old) × (out.new ≡ out.old)) }
        ensures lacks { OnErr result (may_lack self.old.client ≡ true) }
    {
        if self.closed {
            return Ok(FirstItem::Made(Progress::Close));
        }
        match self.scan.state() {
            ItemExtent::Need => Ok(FirstItem::Made(Progress::Need)),
            ItemExtent::Command(used) => {
                let command = command_at(self.alloc, self.unread.as_slice(), self.pending, used)?;
                Ok(FirstItem::Command(command))
            }
            ItemExtent::Bad(_) => {
                out.extend_from_slice(SYNTAX)?;
                self.take_off(false);
                Ok(FirstItem::Made(Progress::Done))
            }
            ItemExtent::TooBig => {
                out.extend_from_slice(TOO_BIG)?;
                self.closed = true;
                Ok(FirstItem::Made(Progress::Close))
            }
        }
    }

    /// A step that asks no store: all of `step_over`, a command that needs a login and comes before one, and the commands
    /// of `free`. Any other command is returned, and nothing changes then.
    ///
    /// Lack of memory is the only error, if there is something to answer; nothing changes then.
    pub fn step_free(&mut self, out: &mut Octets) -> Result<FreeStep, AllocError>
        ensures step { IfOk result (λ stepped. StepsFree self.old.client self.new.client stepped out.old out.new) }
        ensures counts { OnOk result (self.new.given ≡ self.old.given) }
        ensures scans { IfOk result (λ stepped. IfMade stepped (self.new.scanned ≡ scanned_in_step self.old)) }
        ensures asks { IfOk result (λ stepped. IfAsks stepped (self.new ≡ self.old)) }
        ensures err { OnErr result ((self.new ≡ self.old) × (out.new ≡ out.old)) }
        ensures lacks { OnErr result (may_lack self.old.client ≡ true) }
        ensures refused { OnErr result (WasRefused self.old.client) }
    {
        let command = match self.step_over(out)? {
            FirstItem::Made(progress) => return Ok(FreeStep::Made(progress)),
            FirstItem::Command(command) => command,
        };
        match free_outcome(self.alloc, &self.user, command)? {
            FreeOutcome::Made(turn) => {
                let progress = self.apply_outcome(turn, out)?;
                Ok(FreeStep::Made(progress))
            }
            FreeOutcome::Asks(order) => Ok(FreeStep::Asks(order)),
        }
    }

    /// A step over a store: the first item is taken off and answered, as `step_free` does it; or what its command needs of
    /// the accounts is read, the answer is appended to the output, and the change is written. If no store is asked, it
    /// stays untouched. A user who is logged in and whose account isn't open any more is told to log in, and is logged out.
    ///
    /// Memory and Store are the only refusals, each only if it may come; the session, the output and the store are then
    /// as before. Time is linear in the octets of the item and in the names of the user's scripts, plus that of `check` for a
    /// script and of `accepts` for a login.
    pub fn step<S: Alter>(
        &mut self,
        store: &mut Store<S>,
        out: &mut Octets,
    ) -> Result<Progress, Refusal>
        ensures acts { ActsStep self.old.client self.new.client out.old out.new (state S.Store store.old) (state S.Store store.new) result }
        ensures counts { OnOk result (self.new.given ≡ self.old.given) }
        ensures scans { OnOk result (self.new.scanned ≡ scanned_in_step self.old) }
        ensures err { OnErr result ((self.new ≡ self.old) × (out.new ≡ out.old)) }
        ensures named { IfErr result (MayRefuse self.old.client) }
        ensures unasked { may_fail self.old.client ≡ false → store.new ≡ store.old }
    {
        match self.step_free(out)? {
            FreeStep::Made(progress) => Ok(progress),
            FreeStep::Asks(order) => self.step_asked(store, &order, out),
        }
    }

    /// The step of a command that is answered over the store, as `step_free` returned it: its octets are not read
    /// again. The refusals are those of `step`, and the session, the output and the store are then as before.
    pub fn step_asked<S: Alter>(
        &mut self,
        store: &mut Store<S>,
        order: &StoreCommand,
        out: &mut Octets,
    ) -> Result<Progress, Refusal>
        requires { Asked self.old.client order.now }
        ensures steps { StepsAsked self.old self.new out.old out.new (state S.Store store.old) (state S.Store store.new) result }
        ensures named { IfErr result (MayRefuse self.old.client) }
        ensures refused { OnErr result (WasRefused self.old.client) }
    {
        match order {
            StoreCommand::Login(command) => self.step_login(store, command, out),
            StoreCommand::Script { user, command } => self.step_scripts(store, user, command, out),
        }
    }

    // `AUTHENTICATE`, or the answer to a challenge.
    fn step_login<S: Alter>(
        &mut self,
        store: &mut Store<S>,
        command: &LoginCommand,
        out: &mut Octets,
    ) -> Result<Progress, Refusal>
        requires { Asked self.old.client (Login command.now) }
        ensures { StepsAsked self.old self.new out.old out.new (state S.Store store.old) (state S.Store store.new) result }
    {
        let who = admitted(self.alloc, store, login_text(&self.user, command))?;
        let turn = exchange(self.alloc, &self.user, self.failures, command, who)?;
        let progress = self.apply_outcome(turn, out)?;
        Ok(progress)
    }

    // A command about the user's scripts: after the change is written, nothing asks for memory.
    fn step_scripts<S: Alter>(
        &mut self,
        store: &mut Store<S>,
        user: &Octets,
        command: &ScriptCommand,
        out: &mut Octets,
    ) -> Result<Progress, Refusal>
        requires { Asked self.old.client (Script user.now command.now) }
        ensures { StepsAsked self.old self.new out.old out.new (state S.Store store.old) (state S.Store store.new) result }
    {
        let is_open = execute(self.alloc, store, user.as_slice(), command, out)?;
        self.follow(session_change_of(is_open));
        Ok(Progress::Done)
    }

    /// Takes the first item, a command with this outcome, off: appends the answer to the output, and then changes the session.
    ///
    /// Lack of memory is the only error; nothing changes then, and the output stays.
    pub fn apply_outcome(
        &mut self,
        turn: CommandOutcome,
        out: &mut Octets,
    ) -> Result<Progress, AllocError>
        requires { is_item (reach_in self.old.client) ≡ true }
        ensures told { OnOk result (out.new ≡ out.old ++ reply_octets turn.reply) }
        ensures session { OnOk result (self.new.client ≡ client_after turn.session_change (without_first false (reach_in self.old.client) self.old.client)) }
        ensures goes_on { IfOk result (λ progress. progress ≡ progress_of self.new.client) }
        ensures counts { OnOk result (self.new.given ≡ self.old.given) }
        ensures scans { OnOk result (self.new.scanned ≡ scanned_past self.old) }
        ensures err { OnErr result ((self.new ≡ self.old) × (out.new ≡ out.old)) }
    {
        let CommandOutcome {
            reply,
            session_change,
        } = turn;
        spell(self.alloc, &reply, out)?;
        self.follow(session_change);
        Ok(self.progress())
    }

    /// How many octets the scans for items have looked at since the session began, up to the largest number of 64 bits: never
    /// more than came. Takes no memory.
    pub fn looked(&self) -> u64
        ensures value { result ≡ looked_in self.now }
        ensures bound { result ≤ self.now.given }
    {
        self.scanned.saturating_add(self.scan.looked())
    }

    /// How many octets came since the session began, up to the largest number of 64 bits. Takes no memory.
    pub fn given(&self) -> u64
        ensures { result ≡ self.now.given }
    {
        self.given
    }

    /// How the session goes on: it waits for octets or a step, or it has ended. Takes no memory.
    pub fn progress(&self) -> Progress
        ensures { result ≡ progress_of self.now.client }
    {
        if self.closed {
            Progress::Close
        } else {
            Progress::Done
        }
    }

    // Takes off the first item, and changes the session. Takes no memory.
    fn follow(&mut self, session_change: SessionChange)
        requires { is_item (reach_in self.old.client) ≡ true }
        ensures session { self.new.client ≡ client_after session_change (without_first false (reach_in self.old.client) self.old.client) }
        ensures counts { self.new.given ≡ self.old.given }
        ensures scans { self.new.scanned ≡ scanned_past self.old }
    {
        match session_change {
            SessionChange::Stay => self.take_off(false),
            SessionChange::Challenge => self.take_off(true),
            SessionChange::Close => {
                self.take_off(false);
                self.closed = true;
            }
            SessionChange::LogIn(user) => {
                self.take_off(false);
                self.log_in(user);
            }
            SessionChange::LogOut => {
                self.take_off(false);
                self.log_out();
            }
            SessionChange::Fail => {
                self.take_off(false);
                self.fail();
            }
        }
    }

    fn log_in(&mut self, user: Octets)
        ensures client { self.new.client ≡ login_client (Some user) self.old.client }
        ensures counts { (self.new.given ≡ self.old.given) × (self.new.scanned ≡ self.old.scanned) }
    {
        self.user = Some(user);
        self.failures = 0;
    }

    fn log_out(&mut self)
        ensures client { self.new.client ≡ after_logout self.old.client }
        ensures counts { (self.new.given ≡ self.old.given) × (self.new.scanned ≡ self.old.scanned) }
    {
        self.user = None;
        self.failures = 0;
    }

    // The third failure ends the session.
    fn fail(&mut self)
        ensures client { self.new.client ≡ login_client None self.old.client }
        ensures counts { (self.new.given ≡ self.old.given) × (self.new.scanned ≡ self.old.scanned) }
    {
        if self.failures < MAX_FAILURES {
            self.failures += 1;
        } else {
            self.closed = true;
        }
    }

    // Takes off the first item, if one is whole, and looks for the next; sets whether a challenge waits then.
    fn take_off(&mut self, pending: bool)
        ensures client { self.new.client ≡ without_first pending (reach_in self.old.client) self.old.client }
        ensures counts { self.new.given ≡ self.old.given }
        ensures scans { self.new.scanned ≡ scanned_past self.old }
    {
        let (ItemExtent::Command(used) | ItemExtent::Bad(used)) = self.scan.state() else {
            return;
        };
        self.unread.drop_front(used);
        self.scanned = self.scanned.saturating_add(self.scan.looked());
        self.pending = pending;
        let mut scan = Scan::new(pending);
        scan.feed(self.unread.as_slice());
        self.scan = scan;
    }
}

/// How a command about the user's account changes the session, by whether the account is open.
fn session_change_of(is_open: bool) -> SessionChange
    ensures { result ≡ cond is_open SessionChange.Stay SessionChange.LogOut }
{
    if is_open {
        SessionChange::Stay
    } else {
        SessionChange::LogOut
    }
}
