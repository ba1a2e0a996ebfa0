//! Queues in memory.
use octets::{List, Octets};
use smtp_send::{DueMessage, QueueUnavailable, SendQueue, TakenOut};
use std::alloc::{AllocError, Global};

/// For how many milliseconds at most the store is held without a break.
const MAX_HAD: u64 = 1_000;

/// What another makes of the row with a number, once the store is given back after it was found.
#[derive(Drop)]
pub enum QueueChange {
    /// Nothing.
    None,
    /// It is taken out.
    Gone(u64),
    /// It is taken out, and this one has its number.
    Other(DueMessage),
}

/// Rows of queues, in their order.
#[derive(Drop)]
pub struct MemoryQueue {
    alloc: Global,
    rows: List<DueMessage>,
    /// Which are taken out, in the order of the rows.
    gone: Vec<bool>,
    /// How many more times a row that is to be taken out is refused.
    refusals: u64,
    /// Whether the store is held.
    is_had: bool,
    /// When the clock was first looked at since then.
    since: Option<u64>,
    /// How many looks come before the one at which somebody waits; none if nobody does.
    looks: Option<u64>,
    change: QueueChange,
    /// The number of the row that was found last.
    found: u64,
    trace: Octets,
}

impl MemoryQueue {
    /// Without rows. This many times taking a row out is refused. Of the looks whether somebody waits for the store, while it is held, the
    /// one after `looks` others finds somebody, who adds a row.
    pub fn new(alloc: Global, refusals: u64, looks: Option<u64>) -> MemoryQueue {
        MemoryQueue {
            alloc,
            rows: List::new(alloc),
            gone: Vec::new(alloc),
            refusals,
            is_had: false,
            since: None,
            looks,
            change: QueueChange::None,
            found: 0,
            trace: Octets::new(alloc),
        }
    }

    /// What another makes of a row.
    pub fn set_change(&mut self, change: QueueChange) {
        self.change = change;
    }

    /// Adds a row after the others.
    pub fn push(&mut self, row: DueMessage) -> Result<(), AllocError> {
        self.rows.push(row)?;
        self.gone.push(false)?;
        Ok(())
    }

    /// What was done, one after the other: `+` if the store was taken, `-` if it was given back, `?N` if the row with the number was
    /// found, `.` if none was, `xN` if it was taken out, `gN` if it was gone, `cN` if another had its number, `!` if that was
    /// refused.
    pub fn trace(&self) -> &[u8] {
        self.trace.as_slice()
    }

    fn take(&mut self) {
        if !self.is_had {
            self.note(b"+", None);
        }
        self.is_had = true;
    }

    fn hand_back(&mut self) {
        if self.is_had {
            self.note(b"-", None);
            self.make_change();
        }
        self.is_had = false;
        self.since = None;
    }

    // What another makes of the row that was found last.
    fn make_change(&mut self) {
        match std::mem::replace(&mut self.change, QueueChange::None) {
            QueueChange::Gone(id) if id == self.found => self.drop_row(id),
            QueueChange::Other(row) if row.id == self.found => {
                self.drop_row(row.id);
                let _ = self.push(row);
            }
            later => self.change = later,
        }
    }

    fn drop_row(&mut self, id: u64) {
        for (row, gone) in self.rows.as_slice().iter().zip(self.gone.iter_mut()) {
            if row.id == id {
                *gone = true;
            }
        }
    }

    // Takes out what has the number of a row, if it is that row.
    fn remove(&mut self, sent: &DueMessage) -> TakenOut {
        let mut taken = TakenOut::Gone;
        for (row, gone) in self.rows.as_slice().iter().zip(self.gone.iter_mut()) {
            if !*gone && row.user == sent.user && row.id == sent.id {
                if has_octets(row, sent) {
                    *gone = true;
                    taken = TakenOut::Removed;
                } else {
                    taken = TakenOut::Changed;
                }
            }
        }
        taken
    }

    fn note(&mut self, mark: &[u8], id: Option<u64>) {
        let _ = self.trace.extend_from_slice(mark);
        if let Some(id) = id {
            let _ = octets::write_decimal(&mut self.trace, id);
        }
    }

    // Somebody who waited adds a row.
    fn add(&mut self) {
        if let Ok(row) = row_of_other(self.alloc, self.rows.len()) {
            let _ = self.push(row);
        }
    }

    fn is_awaited(&mut self) -> bool {
        let looks = self.looks;
        self.looks = looks.and_then(|left| left.checked_sub(1));
        looks == Some(0)
    }

    fn find(&self, user: &[u8], id: u64) -> Result<Option<DueMessage>, AllocError> {
        for (row, gone) in self.rows.as_slice().iter().zip(self.gone.as_slice()) {
            if !*gone && comes_after(row, user, id) {
                return Ok(Some(copy_of(self.alloc, row)?));
            }
        }
        Ok(None)
    }

    /// The numbers of the rows that are left, a blank before each.
    pub fn tell(&self, out: &mut Octets) -> Result<(), AllocError> {
        for (row, gone) in self.rows.as_slice().iter().zip(self.gone.as_slice()) {
            if !*gone {
                out.push(b' ')?;
                octets::write_decimal(out, row.id)?;
            }
        }
        Ok(())
    }
}

impl SendQueue for MemoryQueue {
    ghost shows = { λ queue rows. ⊥ };

    fn next(&mut self, user: &[u8], id: u64) -> Result<Option<DueMessage>, QueueUnavailable> {
        self.take();
        match self.find(user, id) {
            Ok(Some(row)) => {
                self.found = row.id;
                self.note(b"?", Some(row.id));
                Ok(Some(row))
            }
            Ok(None) => {
                self.note(b".", None);
                Ok(None)
            }
            Err(_) => Err(QueueUnavailable::Memory),
        }
    }

    fn take_out(&mut self, row: &DueMessage) -> Result<TakenOut, QueueUnavailable> {
        self.take();
        if let Some(left) = self.refusals.checked_sub(1) {
            self.refusals = left;
            self.note(b"!", None);
            self.hand_back();
            return Err(QueueUnavailable::Store);
        }
        let taken = self.remove(row);
        let mark = match taken {
            TakenOut::Removed => b"x",
            TakenOut::Gone => b"g",
            TakenOut::Changed => b"c",
        };
        self.note(mark, Some(row.id));
        Ok(taken)
    }

    fn give_way(&mut self, moment: u64) -> bool {
        if !self.is_had {
            return false;
        }
        if self.is_awaited() {
            self.hand_back();
            self.add();
            return false;
        }
        let since = *self.since.get_or_insert(moment);
        let is_long = moment.saturating_sub(since) >= MAX_HAD;
        if is_long {
            self.hand_back();
        }
        is_long
    }

    fn give_back(&mut self) {
        self.hand_back();
    }
}

// Whether a row has the sender, the target and the message of another one.
fn has_octets(row: &DueMessage, other: &DueMessage) -> bool {
    row.sender == other.sender && row.target == other.target && row.message == other.message
}

// Whether a row comes after a place.
fn comes_after(row: &DueMessage, user: &[u8], id: u64) -> bool {
    row.user.as_slice() > user || (row.user.as_slice() == user && row.id > id)
}

fn copy_of(alloc: Global, row: &DueMessage) -> Result<DueMessage, AllocError> {
    Ok(DueMessage {
        user: row.user.try_clone(alloc)?,
        id: row.id,
        sender: row.sender.try_clone(alloc)?,
        target: row.target.try_clone(alloc)?,
        message: row.message.try_clone(alloc)?,
    })
}

// The row that somebody else adds after this many others.
fn row_of_other(alloc: Global, count: usize) -> Result<DueMessage, AllocError> {
    Ok(DueMessage {
        user: Octets::from_slice(alloc, b"u")?,
        id: u64::try_from(count).unwrap_or(0).saturating_add(1),
        sender: Octets::new(alloc),
        target: Octets::from_slice(alloc, b"w@x")?,
        message: Octets::from_slice(alloc, b"w\n")?,
    })
}
