//! Checks scripts in files, or on standard input, without a store.
use clap::ArgMatches;
use clap::error::ErrorKind as WordsKind;
use cli_run::check::{check_input, check_text};
use cli_run::fault::{RunFault, refuse};
use cli_subcommands::{ArgsError, read_files};
use managesieve_sessions::scripts::MAX_SCRIPT;
use std::alloc::{AllocError, Global};
use std::fs::{File, Files};
use std::io;
use std::io::{ErrorKind, Read, Write};

/// At most this many octets of a file are read: a file with that many is longer than a script may be.
pub const MOST: usize = MAX_SCRIPT + 1;

/// The exit status if a file can't be read (`EX_TEMPFAIL` of sysexits.h).
const UNREAD: u8 = 75;

/// Checks the files that the arguments name, in their order, or the input if they name none. Returns the exit status, the worst of
/// all files.
pub fn check<F: Files, R: Read, W: Write, E: Write>(
    system: &F,
    alloc: Global,
    matches: &ArgMatches<'_>,
    input: &mut R,
    output: &mut W,
    errors: &mut E,
) -> u8 {
    let files = match read_files(alloc, matches) {
        Ok(files) => files,
        Err(error) => return refuse(errors, fault_of(&error)),
    };
    if files.is_empty() {
        return check_input(alloc, input, output, errors);
    }
    let mut worst = 0;
    for file in files {
        worst = worst.max(check_file(system, alloc, file, output, errors));
    }
    worst
}

fn fault_of(error: &ArgsError) -> RunFault {
    match error {
        ArgsError::Said(error) if error.kind() == WordsKind::OutOfMemory => RunFault::from(
            AllocError,
        ),
        _ => RunFault::BadArgument,
    }
}

/// Checks the script in a file. Returns the exit status.
fn check_file<F: Files, W: Write, E: Write>(
    system: &F,
    alloc: Global,
    path: &str,
    output: &mut W,
    errors: &mut E,
) -> u8 {
    let mut text = Vec::new(alloc);
    if let Err(refused) = text.resize(MOST, 0) {
        return refuse(errors, RunFault::from(refused));
    }
    match read_front(system, path, text.as_mut_slice()) {
        Ok(len) => {
            text.truncate(len);
            check_text(alloc, Some(path), text.as_slice(), output, errors)
        }
        Err(error) => tell_unread(errors, path, error.kind()),
    }
}

/// Reads a file until the room is full or the file ends. Returns the number of octets read.
pub fn read_front<F: Files>(system: &F, path: &str, room: &mut [u8]) -> io::Result<usize> {
    let mut file = File::open(system, path)?;
    let mut filled = 0;
    for _ in 0..u32::MAX {
        if filled >= room.len() {
            break;
        }
        match file.read(&mut room[filled..]) {
            Ok(0) => break,
            Ok(more) => filled += more,
            Err(error) if error.kind() == ErrorKind::Interrupted => {}
            Err(error) => return Err(error),
        }
    }
    Ok(filled)
}

/// Reports why a file can't be read, and returns the exit status.
pub fn tell_unread<E: Write>(errors: &mut E, path: &str, kind: ErrorKind) -> u8 {
    let _ = errors.write_all(path.as_bytes());
    let _ = errors.write_all(b": ");
    let _ = errors.write_all(cause_of(kind).as_bytes());
    let _ = errors.write_all(b"\n");
    let _ = errors.flush();
    UNREAD
}

fn cause_of(kind: ErrorKind) -> &'static str {
    match kind {
        ErrorKind::NotFound | ErrorKind::NotADirectory => "no such file",
        ErrorKind::PermissionDenied => "permission denied",
        ErrorKind::IsADirectory => "is a directory",
        _ => "file can't be read",
    }
}
