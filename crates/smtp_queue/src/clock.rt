//! The clock, and waiting.

/// Tells the moment, and waits.
pub trait SendClock {
    /// The moment, in seconds since 1970-01-01 UTC.
    fn moment(&mut self) -> u64;

    /// The milliseconds of a clock that never goes back, from some moment on.
    fn uptime(&mut self) -> u64;

    /// Waits for this many milliseconds.
    fn pause(&mut self, milliseconds: u64);
}
