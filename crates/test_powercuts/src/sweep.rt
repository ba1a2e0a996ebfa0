//! Stops at each call of the log's file and of the database's, and what is found then.
use crate::act::CutAct;
use crate::image::Image;
use crate::visit::{Errand, open_files};
use octets::Octets;
use std::alloc::{AllocError, Global};
use store_engine::Event;

/// More calls than an act makes.
const MOST: u64 = 10_000;

/// What was found.
#[derive(Clone, Copy)]
pub struct SweepCounts {
    pub stops: u64,
    /// How many states were opened: all that was written, what was synced, and two that are torn, if they aren't those of
    /// the stop before.
    pub opened: u64,
    pub before: u64,
    pub after: u64,
    /// How many of those after were answered, and so may not be as before.
    pub answered: u64,
    pub neither: u64,
}

impl SweepCounts {
    /// Counts one state more.
    fn with(self, found: Found, is_answered: bool) -> SweepCounts {
        let mut counts = self;
        counts.opened = self.opened.saturating_add(1);
        match found {
            Found::Before if !is_answered => counts.before = self.before.saturating_add(1),
            Found::After => counts.after = self.after.saturating_add(1),
            _ => counts.neither = self.neither.saturating_add(1),
        }
        if is_answered {
            counts.answered = self.answered.saturating_add(1);
        }
        counts
    }
}

/// How accounts are.
#[derive(Clone, Copy)]
enum Found {
    Before,
    After,
    Neither,
}

/// A file whose calls are counted.
#[derive(Clone, Copy)]
enum Counted {
    Log,
    Db,
}

/// An act over a store, and what the store shows before it and after it: the version is in it.
#[derive(Drop)]
struct Trial {
    base: Image,
    events: Vec<Event>,
    before: Octets,
    after: Octets,
}

/// What a stop leaves.
#[derive(Drop)]
struct Stop {
    is_answered: bool,
    seen: Image,
    synced: Image,
}

impl Stop {
    /// Whether it leaves what another one does.
    fn leaves_same(&self, other: &Stop) -> bool {
        self.is_answered == other.is_answered
            && self.seen.is_same(&other.seen)
            && self.synced.is_same(&other.synced)
    }
}

/// Stops an act at each call, of one file and then of the other, until it is answered.
pub fn sweep(alloc: Global, act: CutAct) -> Result<SweepCounts, AllocError> {
    let trial = trial_of(alloc, act)?;
    let mut counts = SweepCounts {
        stops: 0,
        opened: 0,
        before: 0,
        after: 0,
        answered: 0,
        neither: 0,
    };
    for counted in [Counted::Log, Counted::Db] {
        counts = sweep_file(alloc, &trial, counted, counts)?;
    }
    Ok(counts)
}

fn sweep_file(
    alloc: Global,
    trial: &Trial,
    counted: Counted,
    counts: SweepCounts,
) -> Result<SweepCounts, AllocError> {
    let mut counts = counts;
    let mut last = stop_at(alloc, &trial.base, &trial.events, counted, 0)?;
    counts.stops = counts.stops.saturating_add(1);
    counts = with_stop(alloc, trial, &last, counts)?;
    for calls in 1..MOST {
        let stop = stop_at(alloc, &trial.base, &trial.events, counted, calls)?;
        counts.stops = counts.stops.saturating_add(1);
        if !stop.leaves_same(&last) {
            counts = with_stop(alloc, trial, &stop, counts)?;
        }
        last = stop;
        if last.is_answered {
            break;
        }
    }
    Ok(counts)
}

/// Opens what a stop leaves: all that was written, what was synced, and two states between.
fn with_stop(
    alloc: Global,
    trial: &Trial,
    stop: &Stop,
    counts: SweepCounts,
) -> Result<SweepCounts, AllocError> {
    let even = Image::torn(alloc, &stop.synced, &stop.seen, false)?;
    let odd = Image::torn(alloc, &stop.synced, &stop.seen, true)?;
    let mut counts = counts;
    for image in [&stop.seen, &stop.synced, &even, &odd] {
        let found = found_in(alloc, trial, image)?;
        counts = counts.with(found, stop.is_answered);
    }
    Ok(counts)
}

fn found_in(alloc: Global, trial: &Trial, image: &Image) -> Result<Found, AllocError> {
    let shown = shown_by(alloc, image)?;
    Ok(match shown {
        Some(shown) if shown.as_slice() == trial.before.as_slice() => Found::Before,
        Some(shown) if shown.as_slice() == trial.after.as_slice() => Found::After,
        _ => Found::Neither,
    })
}

/// A store with an account, its scripts and its mail; and what it shows before the act, and after it.
fn trial_of(alloc: Global, act: CutAct) -> Result<Trial, AllocError> {
    let made = image_after(alloc, &Image::empty(alloc), Errand::Make(act.base()))?;
    let base = base_of(alloc, act, made)?;
    let events = act.events(alloc)?;
    let last = image_after(alloc, &base, Errand::Change(&events))?;
    let before = shown_by(alloc, &base)?.ok_or(AllocError)?;
    let after = shown_by(alloc, &last)?.ok_or(AllocError)?;
    Ok(Trial {
        base,
        events,
        before,
        after,
    })
}

/// The store after what happens before the act; as it was made if that is nothing, and not opened yet.
fn base_of(alloc: Global, act: CutAct, made: Image) -> Result<Image, AllocError> {
    let earlier = act.earlier(alloc)?;
    if earlier.is_empty() {
        return Ok(made);
    }
    image_after(alloc, &made, Errand::Change(&earlier))
}

/// What an errand leaves that nothing stops.
fn image_after(alloc: Global, base: &Image, errand: Errand<'_>) -> Result<Image, AllocError> {
    let files = base.files(alloc, u64::MAX, u64::MAX)?;
    let (visit, files) = open_files(alloc, files, errand);
    if !visit.is_done {
        return Err(AllocError);
    }
    Image::seen(alloc, &files)
}

/// What the store shows that is opened over these files, if it can be opened.
fn shown_by(alloc: Global, image: &Image) -> Result<Option<Octets>, AllocError> {
    let files = image.files(alloc, u64::MAX, u64::MAX)?;
    let (visit, _) = open_files(alloc, files, Errand::Look);
    Ok(visit.shown)
}

/// What is left of an act of which one file makes this many calls.
fn stop_at(
    alloc: Global,
    base: &Image,
    events: &[Event],
    counted: Counted,
    calls: u64,
) -> Result<Stop, AllocError> {
    let files = match counted {
        Counted::Log => base.files(alloc, calls, u64::MAX)?,
        Counted::Db => base.files(alloc, u64::MAX, calls)?,
    };
    let (visit, mut files) = open_files(alloc, files, Errand::Change(events));
    let seen = Image::seen(alloc, &files)?;
    let synced = Image::synced(alloc, &mut files)?;
    Ok(Stop {
        is_answered: visit.is_done,
        seen,
        synced,
    })
}
