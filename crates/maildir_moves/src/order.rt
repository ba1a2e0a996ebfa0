//! Whose turn it is: a batch of each user a round, and of a user's folders one after the other.
ghost use Rattle.std.specs.Prelude.{◌≡◌, ◌+◌, ◌<◌, ◌^◌, ◌++◌, ◌∷◌, [], None, IfOk, OnOk, OnErr, find, filter, not, option_copied};
ghost use Rattle.maildir_moves.specs.Order as order;
ghost use Rattle.maildir_moves.specs.Turns.{BeginsRound, OrderStays, TurnEnds, TurnGoesOn};

use octets::Octets;
use std::alloc::{AllocError, Global};
use store_accounts::CopyKey;

/// The folder of a user's last turn.
#[derive(Drop)]
pub struct FolderMark {
    pub user: Octets,
    pub folder: Octets,
}

/// Whose turn was last, and at which folders users had theirs. Users have their turns in the order of the octets of their names, round
/// by round, and a user's folders in that of theirs.
///
/// There is one mark for each user who has mail, at most: who has none as the round comes by is forgotten.
#[derive(Drop)]
pub struct MoveOrder {
    alloc: Global,
    /// The user who had the last turn of this round; none at its beginning.
    pub last: Option<Octets>,
    /// How many folders that rest were passed over in the current turn.
    pub passed: u64,
    pub marks: Vec<FolderMark>,
}

impl MoveOrder {
    /// A round begins, and nobody had a turn. Takes no memory.
    pub fn new(alloc: Global) -> MoveOrder
        ensures last { result.last ≡ None }
        ensures marks { result.marks.items ≡ [] }
    {
        MoveOrder {
            alloc,
            last: None,
            passed: 0,
            marks: Vec::new(alloc),
        }
    }

    /// The place after which the first message of the next user is.
    pub fn start(&self) -> Result<CopyKey, AllocError>
        ensures { IfOk result (λ place. place ≡ order.start_of self.now.last) }
    {
        let user = match &self.last {
            Some(last) => beyond(self.alloc, last.as_slice())?,
            None => Octets::new(self.alloc),
        };
        Ok(before(self.alloc, user))
    }

    /// The place after which a user's first message after the folder of the last turn is; none if nothing is known of a turn.
    pub fn start_in(&self, user: &[u8]) -> Result<Option<CopyKey>, AllocError>
        ensures { IfOk result (λ place. place ≡ order.start_behind user.now self.now.marks.items) }
    {
        let Some(mark) = self.mark_of(user) else {
            return Ok(None);
        };
        Ok(Some(CopyKey {
            user: Octets::from_slice(self.alloc, user)?,
            folder: beyond(self.alloc, mark.folder.as_slice())?,
            number: 0,
        }))
    }

    fn mark_of(&self, user: &[u8]) -> Option<&FolderMark>
        ensures { option_copied result ≡ find (λ m. order.is_same_user user.now m.user) self.now.marks.items }
    {
        self.marks.iter().find(|mark| mark.user.as_slice() == user)
    }

    /// A user had the turn, at this folder. Lack of memory is the only error; then the turn goes on.
    pub fn end_turn(&mut self, user: &[u8], folder: &[u8]) -> Result<(), AllocError>
        ensures ends { OnOk result (TurnEnds self.old user.now folder.now self.new) }
        ensures stays { OnErr result (OrderStays self.old self.new) }
    {
        let last = Octets::from_slice(self.alloc, user)?;
        self.mark(user, folder)?;
        self.last = Some(last);
        self.passed = 0;
        Ok(())
    }

    /// Passes a folder over; the user's turn goes on. Lack of memory is the only error.
    pub fn pass(&mut self, user: &[u8], folder: &[u8]) -> Result<(), AllocError>
        requires { self.old.passed + 1 < 2 ^ 64 }
        ensures passes { OnOk result (TurnGoesOn self.old user.now folder.now self.new) }
        ensures stays { OnErr result (OrderStays self.old self.new) }
    {
        self.mark(user, folder)?;
        self.passed += 1;
        Ok(())
    }

    /// Ends the round; the next one begins. Whoever has no mail after the last one is forgotten.
    pub fn end_round(&mut self)
        ensures { BeginsRound self.old self.new }
    {
        let last = self.last.take();
        self.marks
            .retain(|mark| !is_behind(&last, mark.user.as_slice()));
        self.passed = 0;
    }

    /// Notes this as the user's folder; who is between the last one and this user has no mail, and is forgotten.
    fn mark(&mut self, user: &[u8], folder: &[u8]) -> Result<(), AllocError>
        ensures marks { OnOk result (self.new.marks.items ≡ order.marked self.old.last user.now folder.now self.old.marks.items) }
        ensures last { self.new.last ≡ self.old.last }
        ensures passed { self.new.passed ≡ self.old.passed }
    {
        let mark = FolderMark {
            user: Octets::from_slice(self.alloc, user)?,
            folder: Octets::from_slice(self.alloc, folder)?,
        };
        self.forget(user);
        self.forget_between(user);
        self.marks.push(mark)?;
        Ok(())
    }

    fn forget(&mut self, user: &[u8])
        ensures marks { self.new.marks.items ≡ filter (λ m. not (order.is_same_user user.now m.user)) self.old.marks.items }
        ensures last { self.new.last ≡ self.old.last }
        ensures passed { self.new.passed ≡ self.old.passed }
    {
        self.marks.retain(|mark| mark.user.as_slice() != user);
    }

    fn forget_between(&mut self, user: &[u8])
        ensures marks { self.new.marks.items ≡ filter (λ m. not (order.is_user_between self.old.last user.now m.user)) self.old.marks.items }
        ensures last { self.new.last ≡ self.old.last }
        ensures passed { self.new.passed ≡ self.old.passed }
    {
        let last = &self.last;
        self.marks
            .retain(|mark| !is_between(last, user, mark.user.as_slice()));
    }
}

/// Whether a user comes after the one who had the last turn of a round.
pub fn is_behind(last: &Option<Octets>, user: &[u8]) -> bool
    ensures { result ≡ order.is_behind last.now user.now }
{
    match last {
        Some(last) => comes_before(last.as_slice(), user),
        None => true,
    }
}

/// Whether a user comes between the one who had the last turn of a round and another one.
pub fn is_between(last: &Option<Octets>, user: &[u8], other: &[u8]) -> bool
    ensures { result ≡ order.is_user_between last.now user.now other.now }
{
    is_behind(last, other) && comes_before(other, user)
}

fn comes_before(a: &[u8], b: &[u8]) -> bool
    ensures { result ≡ order.comes_before a.now b.now }
{
    a.cmp(b).is_lt()
}

/// The first text after all those that begin as this one and are no longer.
fn beyond(alloc: Global, text: &[u8]) -> Result<Octets, AllocError>
    ensures { IfOk result (λ later. later ≡ order.beyond text.now) }
{
    let mut later = Octets::from_slice(alloc, text)?;
    later.push(0)?;
    Ok(later)
}

/// Before the first message of a user.
fn before(alloc: Global, user: Octets) -> CopyKey
    ensures { result ≡ record { user = user; folder = []; number = 0 } }
{
    CopyKey {
        user,
        folder: Octets::new(alloc),
        number: 0,
    }
}
