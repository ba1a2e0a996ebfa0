//! How long events took.
ghost use Rattle.daemon_log.specs.Times.{IsSlotOf, IsFirstWith, IsPercentile, HasNoEvents, CountsEvent};

/// The longest time of each slot, in microseconds; the last slot also counts all that took longer.
const BOUNDS: [u64; 32] = [
    10, 20, 30, 50, 70, 100, 150, 200, 300, 500, 700, 1000, 1500, 2000, 3000, 5000, 7000, 10000,
    15000, 20000, 30000, 50000, 70000, 100000, 150000, 200000, 300000, 500000, 1000000, 2000000,
    5000000, 60000000,
];

/// A histogram of how long events took: 32 counts, whatever happens.
#[derive(Drop)]
pub struct Times {
    counts: [u32; 32],
    /// The number of events.
    total: u32,
}

impl Times {
    /// No event.
    pub fn none() -> Times
        ensures { HasNoEvents result }
    {
        Times {
            counts: [0; 32],
            total: 0,
        }
    }

    /// Notes an event that took that many microseconds. Counts saturate at the greatest number of 32 bits.
    pub fn note(&mut self, micros: u64)
        ensures { CountsEvent micros self.old self.new }
    {
        let slot = slot_of(micros);
        self.counts[slot] = self.counts[slot].saturating_add(1);
        self.total = self.total.saturating_add(1);
    }

    /// The bound, in microseconds, of the first slot up to which that percentage of the events was counted; the last slot also counts all
    /// longer ones. 0 if there were no events.
    pub fn within(&self, percent: u32) -> u64
        ensures { IsPercentile self.now percent result }
    {
        if self.total == 0 {
            return 0;
        }
        let wanted = (self.total as u64 * percent as u64).div_ceil(100);
        BOUNDS[slot_at(&self.counts, wanted)]
    }
}

/// The first slot whose bound isn't below the time; if there is none, the last.
fn slot_of(micros: u64) -> usize
    ensures { IsSlotOf micros result }
{
    for slot in 0..31 {
        if micros <= BOUNDS[slot] {
            return slot;
        }
    }
    31
}

/// The first slot up to which that many events were counted; if there is none, the last.
fn slot_at(counts: &[u32; 32], wanted: u64) -> usize
    ensures { IsFirstWith counts.now wanted result }
{
    let mut left = wanted;
    for slot in 0..31 {
        let count = counts[slot] as u64;
        if left <= count {
            return slot;
        }
        left -= count;
    }
    31
}
