//! The clocks of a run of `send`.
use mio::{Events, Poll};
use smtp_queue::SendClock;
use std::time::{Duration, Instant, SystemTime};

/// The system's clocks.
#[derive(Clone, Copy)]
pub struct WallClock<'a> {
    rt: &'a HostRuntime,
    /// When it was made; `None` without a monotonic clock.
    start: Option<Instant>,
    /// How many milliseconds it has paused: it stands in for a monotonic clock.
    paused: u64,
}

impl<'a> WallClock<'a> {
    pub fn new(rt: &'a HostRuntime) -> WallClock<'a> {
        WallClock {
            rt,
            start: Instant::now(rt).ok(),
            paused: 0,
        }
    }

    /// Seconds since 1970, or 0 if the clock can't be read.
    pub fn now(self) -> u64 {
        match SystemTime::now(self.rt) {
            Ok(now) => match now.duration_since(SystemTime::UNIX_EPOCH) {
                Ok(span) => span.as_secs(),
                Err(_) => 0,
            },
            Err(_) => 0,
        }
    }
}

impl SendClock for WallClock<'_> {
    fn moment(&mut self) -> u64 {
        self.now()
    }

    fn uptime(&mut self) -> u64 {
        match self.start {
            Some(start) => match start.elapsed(self.rt) {
                Ok(span) => milliseconds_of(span),
                Err(_) => self.paused,
            },
            None => self.paused,
        }
    }

    fn pause(&mut self, milliseconds: u64) {
        self.paused = self.paused.saturating_add(milliseconds);
        let Ok(mut poll) = Poll::new(self.rt) else {
            return;
        };
        let Ok(mut events) = Events::with_capacity(self.rt.alloc(), 1) else {
            return;
        };
        let _ = poll.poll(&mut events, Some(Duration::from_millis(milliseconds)));
    }
}

fn milliseconds_of(span: Duration) -> u64 {
    let seconds = span.as_secs().saturating_mul(1_000);
    seconds.saturating_add(u64::from(span.subsec_millis()))
}
