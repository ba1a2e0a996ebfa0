//! Folders that rest, since a message of theirs couldn't be moved.
ghost use Rattle.std.specs.Prelude.{◌≡◌, [], filter, not, nat_eq, IfOk};
ghost use Rattle.std.specs.Cmp.Lexicographic.{pointwise};
ghost use Rattle.maildir_moves.specs.Rests as rests;

use crate::order::{is_behind, is_between};
use octets::Octets;
use std::alloc::{AllocError, Global};

/// For how many milliseconds a folder rests after the first failure.
const FIRST: u64 = 60000;

/// For how many at most.
const LONGEST: u64 = 3600000;

/// Of how many folders of a user it is known that they rest. If one more fails, all of the user's rest: it is the user's Maildir that
/// fails then, and so a user takes little memory, and little of a round.
const MAX_FOLDERS: u64 = 16;

/// A folder that rests. Moments and spans are in milliseconds.
#[derive(Drop)]
pub struct Rest {
    pub user: Octets,
    /// None if all folders of the user rest.
    pub folder: Option<Octets>,
    /// The moment until which it rests.
    pub until: u64,
    /// For how long it rests this time.
    pub span: u64,
}

impl Rest {
    fn is_of(&self, user: &[u8], folder: &[u8]) -> bool
        ensures { result ≡ rests.is_rest_of user.now folder.now self.now }
    {
        self.is_of_user(user) && is_folder(&self.folder, folder)
    }

    fn is_of_user(&self, user: &[u8]) -> bool
        ensures { result ≡ pointwise nat_eq self.now.user user.now }
    {
        self.user.as_slice() == user
    }

    fn lasts(&self, user: &[u8], folder: &[u8], now: u64) -> bool
        ensures { result ≡ rests.lasts_by now user.now folder.now self.now }
    {
        now < self.until && self.is_of(user, folder)
    }
}

/// Folders that failed, each with how long it rests: after the first failure a minute, after each further one twice as long, an
/// hour at most. One that succeeded is no longer in it, nor are those of a user without mail.
#[derive(Drop)]
pub struct Rests {
    pub entries: Vec<Rest>,
}

impl Rests {
    /// None. Takes no memory.
    pub fn new(alloc: Global) -> Rests
        ensures { result.entries.items ≡ [] }
    {
        Rests {
            entries: Vec::new(alloc),
        }
    }

    /// Whether a folder rests at a moment.
    pub fn last(&self, user: &[u8], folder: &[u8], now: u64) -> bool
        ensures { result ≡ rests.rests_at now user.now folder.now self.now.entries.items }
    {
        self.entries
            .iter()
            .any(|rest| rest.lasts(user, folder, now))
    }

    /// A folder succeeded.
    pub fn end(&mut self, user: &[u8], folder: &[u8])
        ensures { self.new.entries.items ≡ filter (λ rest. not (rests.is_rest_of user.now folder.now rest)) self.old.entries.items }
    {
        self.entries.retain(|rest| !rest.is_of(user, folder));
    }

    /// How many rests of a user are known: 17 at most.
    pub fn count(&self, user: &[u8]) -> u64
        ensures { result ≡ rests.rests_of user.now self.now.entries.items }
    {
        let many = self.entries.iter().filter(|rest| rest.is_of_user(user));
        many.count() as u64
    }

    /// Forgets the users between the one who had the last turn and this one: they have no mail.
    pub fn forget_between(&mut self, last: &Option<Octets>, user: &[u8]) {
        self.entries
            .retain(|rest| !is_between(last, user, rest.user.as_slice()));
    }

    /// Forgets the users after the one who had the last turn: they have no mail.
    pub fn forget_behind(&mut self, last: &Option<Octets>) {
        self.entries
            .retain(|rest| !is_behind(last, rest.user.as_slice()));
    }

    /// A folder failed: it rests from now on, and all of the user's if too many rest already. Returns whether it hadn't failed before,
    /// since its last success.
    ///
    /// Lack of memory is the only error; then it doesn't rest.
    pub fn begin(
        &mut self,
        alloc: Global,
        user: &[u8],
        folder: &[u8],
        now: u64,
    ) -> Result<bool, AllocError> {
        let before = self.span_of(user, folder);
        self.end(user, folder);
        let span = span_after(before);
        let rest = Rest {
            user: Octets::from_slice(alloc, user)?,
            folder: self.what_rests(alloc, user, folder)?,
            until: now.saturating_add(span),
            span,
        };
        self.entries.push(rest)?;
        Ok(before.is_none())
    }

    /// What rests from now on: the folder, or all of the user's.
    fn what_rests(
        &self,
        alloc: Global,
        user: &[u8],
        folder: &[u8],
    ) -> Result<Option<Octets>, AllocError>
        ensures { IfOk result (λ what. what ≡ rests.what_rests (rests.rests_of user.now self.now.entries.items) folder.now) }
    {
        if self.count(user) < MAX_FOLDERS {
            Ok(Some(Octets::from_slice(alloc, folder)?))
        } else {
            Ok(None)
        }
    }

    /// For how long a folder rested last.
    fn span_of(&self, user: &[u8], folder: &[u8]) -> Option<u64> {
        match self.entries.iter().find(|rest| rest.is_of(user, folder)) {
            Some(rest) => Some(rest.span),
            None => None,
        }
    }
}

/// Whether a rest of this folder, or of all, is one of that folder.
fn is_folder(what: &Option<Octets>, folder: &[u8]) -> bool
    ensures { result ≡ rests.is_folder folder.now what.now }
{
    match what {
        Some(other) => other.as_slice() == folder,
        None => true,
    }
}

/// For how long a folder rests that rested this long before.
fn span_after(before: Option<u64>) -> u64
    ensures { result ≡ rests.span_after before }
{
    match before {
        Some(span) => span.saturating_mul(2).min(LONGEST),
        None => FIRST,
    }
}
