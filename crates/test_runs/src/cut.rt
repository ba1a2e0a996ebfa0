//! Streams of a client that come in pieces, and how far they are scanned.
use managesieve_sessions::{FreeStep, Progress, Session};
use octets::Octets;
use sqlite::MemStore;
use std::alloc::{AllocError, Global};
use store_engine::{Answer, Event, World, run};
use test_files::LinePart::{Number, Text};
use test_files::add_parts;

/// The session that the streams come over, one after the other.
const NUMBER: u32 = 999;

/// Appends what a stream is answered, if that is the same however it is cut into two pieces; otherwise where it is not.
pub fn add_answers(
    alloc: Global,
    world: &mut World<MemStore>,
    out: &mut Octets,
    stream: &[u8],
) -> Result<(), AllocError> {
    let wanted = answers(alloc, world, stream, 0)?;
    add_cuts(alloc, world, out, stream, wanted.as_slice())
}

fn add_cuts(
    alloc: Global,
    world: &mut World<MemStore>,
    out: &mut Octets,
    stream: &[u8],
    wanted: &[u8],
) -> Result<(), AllocError> {
    for place in 0..=stream.len() {
        add_cut(alloc, world, out, stream, place, wanted)?;
    }
    out.extend_from_slice(wanted)
}

/// Appends the place where a stream is cut, if it isn't answered so.
fn add_cut(
    alloc: Global,
    world: &mut World<MemStore>,
    out: &mut Octets,
    stream: &[u8],
    place: usize,
    wanted: &[u8],
) -> Result<(), AllocError> {
    let told = answers(alloc, world, stream, place)?;
    if told.as_slice() == wanted {
        return Ok(());
    }
    add_parts(out, &[Text(b"differs at "), Number(place as u64)])
}

/// What a stream is answered that is cut at this place.
fn answers(
    alloc: Global,
    world: &mut World<MemStore>,
    stream: &[u8],
    place: usize,
) -> Result<Octets, AllocError> {
    let events = events(alloc, stream, place)?;
    let ran = run(world, &events);
    text_of(alloc, ran.answers.as_slice())
}

/// A client that sends a stream in two pieces. Each has as many steps after it as the stream has lines.
fn events(alloc: Global, stream: &[u8], place: usize) -> Result<Vec<Event>, AllocError> {
    let mut events = Vec::new(alloc);
    add_pieces(alloc, &mut events, stream, place)?;
    Ok(events)
}

fn add_pieces(
    alloc: Global,
    events: &mut Vec<Event>,
    stream: &[u8],
    place: usize,
) -> Result<(), AllocError> {
    let steps = stream.split(|octet| *octet == b'\n').count();
    let (front, back) = stream.split_at(place.min(stream.len()));
    events.push(Event::Open(NUMBER))?;
    add_piece(alloc, events, front, steps)?;
    add_piece(alloc, events, back, steps)?;
    events.push(Event::Close(NUMBER))?;
    Ok(())
}

fn add_piece(
    alloc: Global,
    events: &mut Vec<Event>,
    piece: &[u8],
    steps: usize,
) -> Result<(), AllocError> {
    let piece = Octets::from_slice(alloc, piece)?;
    events.push(Event::Give(NUMBER, piece))?;
    for _ in 0..steps {
        events.push(Event::Step(NUMBER))?;
    }
    Ok(())
}

/// What is told in these answers.
fn text_of(alloc: Global, answers: &[Answer]) -> Result<Octets, AllocError> {
    let mut told = Octets::new(alloc);
    for answer in answers {
        add_octets(&mut told, answer)?;
    }
    Ok(told)
}

fn add_octets(told: &mut Octets, answer: &Answer) -> Result<(), AllocError> {
    match answer {
        Answer::Out(_, octets) => told.extend_from_slice(octets.as_slice()),
        _ => told.extend_from_slice(b"no answer"),
    }
}

/// Appends of a stream that comes in pieces of that many octets: after each piece whether an item can be taken off, 0 or 1;
/// how many octets were looked at; and the same after each step.
pub fn add_counts(
    alloc: Global,
    out: &mut Octets,
    stream: &[u8],
    most: usize,
) -> Result<(), AllocError> {
    let mut answer = Octets::new(alloc);
    let mut session = Session::new(alloc, &mut answer)?;
    count(out, &mut session, &mut answer, stream, most)
}

fn count(
    out: &mut Octets,
    session: &mut Session,
    answer: &mut Octets,
    stream: &[u8],
    most: usize,
) -> Result<(), AllocError> {
    for piece in stream.chunks(most.max(1)) {
        give(out, session, piece)?;
    }
    add_count(out, session.looked())?;
    add_steps(out, session, answer, stream.len())
}

fn give(out: &mut Octets, session: &mut Session, piece: &[u8]) -> Result<(), AllocError> {
    session.give(piece)?;
    out.push(if session.ready() { b'1' } else { b'0' })
}

/// Appends after each of this many steps how many octets were looked at, while steps need no store.
fn add_steps(
    out: &mut Octets,
    session: &mut Session,
    answer: &mut Octets,
    most: usize,
) -> Result<(), AllocError> {
    for _ in 0..most {
        if !step(session, answer)? {
            break;
        }
        add_count(out, session.looked())?;
    }
    Ok(())
}

/// Makes a step, and says whether it was made without a store.
fn step(session: &mut Session, answer: &mut Octets) -> Result<bool, AllocError> {
    let stepped = session.step_free(answer)?;
    Ok(matches!(stepped, FreeStep::Made(Progress::Done)))
}

fn add_count(out: &mut Octets, count: u64) -> Result<(), AllocError> {
    add_parts(out, &[Text(b" "), Number(count)])
}
