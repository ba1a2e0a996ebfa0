//! Sessions of ManageSieve over a keeper: what one client is told.
use crate::stream::{NEVER, PieceReader, ShortWriter};
use cli_run::fault::RunFault;
use cli_run::session::{serve_client, serve_one};
use cli_subcommands::StoreLocation;
use octets::{Octets, parse_decimal};
use std::alloc::{AllocError, Global};
use std::format;
use std::io::ErrorKind;
use store_lock::Keeper;
use test_files::LinePart::Text;
use test_files::add_parts;

/// The greeting's last line.
const GREETED: &[u8] = b"OK\r\n";

/// What alice's client sends first; her password is `secret`.
const LOGIN: &[u8] = b"AUTHENTICATE \"PLAIN\" \"AGFsaWNlAHNlY3JldA==\"\r\n";

/// What it is told then.
const LOGGED_IN: &[u8] = b"OK \"Logged in.\"\r\n";

/// Appends the answer to a command that alice's client sends in a session of its own.
pub fn add_sent<K: Keeper>(
    alloc: Global,
    out: &mut Octets,
    keeper: &mut K,
    path: &str,
    command: &[u8],
) -> Result<(), AllocError> {
    let sent = after_login(alloc, command)?;
    let mut input = pieces_of(usize::MAX, sent.as_slice());
    let mut output = ShortWriter::new(alloc, NEVER);
    let ended = serve_one(alloc, location_of(path), &mut input, &mut output, keeper);
    let answers = after_greeting(output.written.as_slice());
    match answers.strip_prefix(LOGGED_IN) {
        Some(answer) if ended.is_ok() => out.extend_from_slice(answer),
        _ => out.extend_from_slice(answers),
    }
}

fn after_login(alloc: Global, command: &[u8]) -> Result<Octets, AllocError> {
    let mut sent = Octets::new(alloc);
    add_parts(&mut sent, &[Text(LOGIN), Text(command)])?;
    Ok(sent)
}

/// Appends how a session ended, and what the client was told: all of it, or what comes after the greeting; and then what was
/// told of the store, if anything, after a `|`. The number is how many octets a read gives at most, or of the call from which
/// on the input or the output fails.
pub fn answer_talk<K: Keeper>(
    alloc: Global,
    out: &mut Octets,
    keeper: &mut K,
    path: &str,
    call: &str,
    number: &[u8],
    input: &[u8],
) -> Result<(), AllocError> {
    let number = parse_decimal(number).unwrap_or(0);
    let most = usize::try_from(number).unwrap_or(0);
    let (input, writes, is_greeted) = match call {
        "greet" => (pieces_of(most, input), NEVER, true),
        "talk" => (pieces_of(most, input), NEVER, false),
        "gone" => (pieces_until(number, input), NEVER, false),
        "deaf" => (pieces_of(usize::MAX, input), number, true),
        "mute" => (pieces_of(1, input), number, true),
        _ => return out.extend_from_slice(b"no such call"),
    };
    let (mut input, mut output) = (input, ShortWriter::new(alloc, writes));
    let mut errors = Vec::new(alloc);
    let ended = serve_client(
        alloc,
        location_of(path),
        &mut input,
        &mut output,
        &mut errors,
        keeper,
    );
    add_told(alloc, out, ended, output.written.as_slice(), is_greeted)?;
    add_errors(out, errors.as_slice())
}

/// The store at a path, which isn't waited for.
fn location_of(path: &str) -> StoreLocation<'_> {
    StoreLocation { path, waits: false }
}

/// What gives that many octets at a time at most.
fn pieces_of(most: usize, left: &[u8]) -> PieceReader<'_> {
    PieceReader {
        left,
        most,
        calls: NEVER,
        fails_as: ErrorKind::ConnectionReset,
    }
}

/// What gives its octets one by one, and fails from a call on.
fn pieces_until(calls: u64, left: &[u8]) -> PieceReader<'_> {
    PieceReader {
        left,
        most: 1,
        calls,
        fails_as: ErrorKind::ConnectionReset,
    }
}

/// Appends how a session ended, and what the client was told.
fn add_told(
    alloc: Global,
    out: &mut Octets,
    ended: Result<(), RunFault>,
    told: &[u8],
    is_greeted: bool,
) -> Result<(), AllocError> {
    add_end(alloc, out, ended)?;
    out.extend_from_slice(if is_greeted {
        told
    } else {
        after_greeting(told)
    })
}

/// Appends what was told of the store, if anything.
fn add_errors(out: &mut Octets, errors: &[u8]) -> Result<(), AllocError> {
    if errors.is_empty() {
        return Ok(());
    }
    add_parts(out, &[Text(b"|"), Text(errors)])
}

/// Appends how the session ended.
fn add_end(alloc: Global, out: &mut Octets, ended: Result<(), RunFault>) -> Result<(), AllocError> {
    match ended {
        Ok(()) => out.extend_from_slice(b"ended|"),
        Err(fault) => out.extend_from_slice(format!(in alloc; "{fault}|")?.as_bytes()),
    }
}

/// What comes after the greeting, or all if it isn't whole.
fn after_greeting(told: &[u8]) -> &[u8] {
    match told.windows(GREETED.len()).position(|four| four == GREETED) {
        Some(at) => told.get(at.saturating_add(GREETED.len())..).unwrap_or(told),
        None => told,
    }
}
