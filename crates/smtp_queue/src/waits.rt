//! Rows that wait.
ghost use Rattle.std.specs.Prelude.{◌≡◌, Some, OnErr, OnOk, option_copied};
ghost use Rattle.std.specs.BTreeMap.{IsEmpty, IsUnchanged, Updates, insert_entry};
ghost use Rattle.smtp_queue.specs.Waits as s;

use crate::row_key::RowKey;
use crate::wait::{Wait, wait_after};
use smtp_dialogue::Ending;
use std::alloc::{AllocError, Global};
use std::collections::BTreeMap;

/// What is known of rows that were tried without success, by their places.
#[derive(Drop)]
pub struct RowWaits {
    pub(crate) map: BTreeMap<RowKey, Wait>,
}

impl RowWaits {
    /// Nothing is known.
    pub fn new(alloc: Global) -> RowWaits
        ensures { IsEmpty result.map }
    {
        RowWaits {
            map: BTreeMap::new(alloc),
        }
    }

    /// What is known of the row at a place. Time is logarithmic in the rows that wait.
    pub fn get(&self, place: &RowKey) -> Option<&Wait>
        ensures { option_copied result ≡ s.wait_of self.now place.now }
    {
        self.map.get(place)
    }

    /// Whether the row at a place is due at a moment. Time is logarithmic in the rows that wait.
    pub fn is_due(&self, place: &RowKey, now: u64) -> bool
        ensures { result ≡ s.is_row_due self.now now place.now }
    {
        match self.get(place) {
            Some(wait) => wait.is_over(now),
            None => true,
        }
    }

    /// Puts a wait for the row at a place in place of the one that is there. Lack of memory is the only error, and then nothing changes.
    pub(crate) fn put(&mut self, place: RowKey, wait: Wait) -> Result<(), AllocError>
        ensures updates { OnOk result (Updates s.row_key_cmp self.old.map self.new.map place (Some wait)) }
        ensures entries { OnOk result (self.new.map.entries ≡ insert_entry s.row_key_cmp self.old.map.entries place wait) }
        ensures same { OnErr result (IsUnchanged self.old.map self.new.map) }
    {
        match self.map.insert(place, wait) {
            Ok(_) => Ok(()),
            Err(_) => Err(AllocError),
        }
    }

    /// How many times the row at a place was tried without success.
    fn tries_of(&self, place: &RowKey) -> u64
        ensures { result ≡ s.tries_in (s.wait_of self.now place.now) }
    {
        match self.get(place) {
            Some(wait) => wait.tries,
            None => 0,
        }
    }

    /// What is known after the row at a place was tried and ended so at a moment: it waits, or nothing is known of it any more.
    ///
    /// Lack of memory is the only error, and then nothing changes. Time is logarithmic in the rows that wait.
    pub fn note(&mut self, place: RowKey, ending: Ending, moment: u64) -> Result<(), AllocError>
        ensures noted { OnOk result (s.NotesEnding place ending moment self.old self.new) }
        ensures same { OnErr result (IsUnchanged self.old.map self.new.map) }
    {
        match wait_after(self.tries_of(&place), ending, moment) {
            None => {
                let _ = self.map.remove(&place);
                Ok(())
            }
            Some(wait) => self.put(place, wait),
        }
    }
}
