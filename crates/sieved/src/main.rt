//! Files mail by each user's Sieve script and serves the scripts by ManageSieve: accounts, deliveries, folders, queue and
//! sessions from the command line.
#![tactic(auto)]

mod check;
mod daemon;
mod descriptors;
mod host_settings;
mod listener;
mod listening;
mod options;
mod run_file;
mod send;
mod wall_clock;

use check::check;
use cli_run::fault::{RunFault, refuse};
use cli_run::run::{run_subcommand, tell_unread};
use cli_run::session::run_session;
use cli_subcommands::{
    HostFiles, RawArgs, StoreDefaults, Subcommand, match_command_line, read_host_files,
    read_matches,
};
use daemon::serve_daemon;
use host_settings::read_texts;
use listener::serve;
use maildir_files::Maildir;
use octets::Octets;
use send::send;
use std::alloc::{AllocError, Global};
use std::env::{Env, FillError};
use std::fs::Files;
use std::io::{Read, Write};
use std::net::{Net, TcpListener, TcpStream};
use std::os::fd::AsFd;
use std::process;
use std::process::ExitCode;
use std::random::RandomSource;
use std::time::{Clock, SystemTime};
use store_lock::{FileKeeper, Keeper};

fn main(rt: HostRuntime) -> ExitCode {
    let status = match words_after_name(&rt) {
        Ok(words) => run(&rt, &words),
        Err(refused) => refuse(&mut rt.stderr(), RunFault::from(refused)),
    };
    ExitCode::from(status)
}

/// Runs the program with these arguments, over the standard streams and a file, and returns the exit status.
fn run(rt: &HostRuntime, words: &RawArgs) -> u8 {
    let alloc = rt.alloc();
    let matches = match match_command_line(alloc, words) {
        Ok(matches) => matches,
        Err(error) => return tell_unread(alloc, error, &mut rt.stdout(), &mut rt.stderr()),
    };
    match read_matches(words, &matches) {
        Err(error) => tell_unread(alloc, error, &mut rt.stdout(), &mut rt.stderr()),
        Ok(Subcommand::Send(asked)) => send(rt, asked, &mut rt.stdout(), &mut rt.stderr()),
        Ok(Subcommand::Check(_)) => check(
            rt,
            alloc,
            &matches,
            &mut rt.stdin(),
            &mut rt.stdout(),
            &mut rt.stderr(),
        ),
        Ok(asked) => match read_host_files(alloc, &matches) {
            Ok(files) => answer(
                rt,
                alloc,
                asked,
                &files,
                moment_of(rt),
                &mut rt.stdin(),
                &mut rt.stdout(),
                rt.stderr(),
                FileKeeper::new(rt),
                Maildir::new(rt),
            ),
            Err(refused) => refuse(&mut rt.stderr(), RunFault::from(refused)),
        },
    }
}

/// What the system tells when the program begins: the clock's moment in seconds since 1970 and 16 random octets, if they are
/// available, and the process number.
#[derive(Clone, Copy)]
struct Moment {
    clock: Option<u64>,
    random: Option<[u8; 16]>,
    pid: u32,
}

/// Serves clients, or runs what the subcommand says, and returns the exit status.
fn answer<N, R: Read + AsFd, W: Write, E: Write + Drop, K: Keeper + Drop>(
    net: &N,
    alloc: Global,
    asked: Subcommand<'_>,
    files: &HostFiles<'_>,
    moment: Moment,
    input: &mut R,
    output: &mut W,
    mut errors: E,
    mut keeper: K,
    mut sink: Maildir<'_>,
) -> u8
where
    N: Net<Listener = TcpListener, Stream = TcpStream> + Files + Clock,
{
    match asked {
        Subcommand::Serve(asked) => serve(net, alloc, asked, output, &mut errors, &mut keeper),
        Subcommand::Session(asked) => {
            run_session(
                alloc,
                asked.location,
                input,
                output,
                &mut errors,
                &mut keeper,
            )
        }
        Subcommand::Daemon(asked) => serve_daemon(
            net, alloc, asked, files, moment.pid, &*input, output, errors, keeper, sink,
        ),
        asked => {
            let host = match read_texts(net, alloc, files, output, &mut errors) {
                Ok(host) => host,
                Err(status) => return status,
            };
            run_subcommand(
                alloc,
                asked,
                input,
                output,
                &mut errors,
                &mut keeper,
                moment.clock,
                moment.random,
                host,
                &mut sink,
            )
        }
    }
}

/// The arguments after the program's name, in this environment.
fn words_after_name(rt: &HostRuntime) -> Result<RawArgs, AllocError> {
    let mut words = Vec::new(rt.alloc());
    for at in 1..usize::MAX {
        match text_at(rt, Place::Argument(at))? {
            Some(word) => words.push(word)?,
            None => break,
        }
    }
    let words = RawArgs::new(rt.alloc(), words)?;
    Ok(words.with_defaults(store_defaults(rt)?))
}

/// What the environment says of the store.
fn store_defaults(rt: &HostRuntime) -> Result<StoreDefaults, AllocError> {
    let db = text_at(rt, Place::Variable("SIEVED_DB"))?;
    let wait = text_at(rt, Place::Variable("SIEVED_WAIT"))?;
    Ok(StoreDefaults::from_variables(db, wait))
}

/// Where the system has a text for the program.
#[derive(Clone, Copy)]
enum Place<'a> {
    /// The argument at this index, counted from the program's name.
    Argument(usize),
    /// The variable of the environment with this name.
    Variable(&'a str),
}

/// The text at a place; `None` after the last argument, and of a variable that isn't set.
fn text_at(rt: &HostRuntime, place: Place<'_>) -> Result<Option<Octets>, AllocError> {
    let mut room = Vec::new(rt.alloc());
    for bits in 8..usize::BITS {
        room.resize(1 << bits, 0)?;
        let filled = match place {
            Place::Argument(at) => rt.arg(at, &mut room),
            Place::Variable(name) => rt.var(name, &mut room),
        };
        match filled {
            Ok(len) => return Ok(Some(Octets::from_slice(rt.alloc(), &room[..len])?)),
            Err(FillError::NotPresent) => return Ok(None),
            Err(FillError::TooLong) => {}
        }
    }
    Err(AllocError)
}

/// What the system tells now.
fn moment_of(rt: &HostRuntime) -> Moment {
    Moment {
        clock: clock(rt),
        random: random(rt),
        pid: process::id(rt.process()),
    }
}

/// Seconds since 1970, if the clock can be read.
fn clock(rt: &HostRuntime) -> Option<u64> {
    let now = SystemTime::now(rt).ok()?;
    Some(now.duration_since(SystemTime::UNIX_EPOCH).ok()?.as_secs())
}

/// 16 random octets that can't be guessed, if the system gives some.
fn random<S: RandomSource>(system: &S) -> Option<[u8; 16]> {
    let mut octets = [0u8; 16];
    system.fill_bytes(&mut octets).ok()?;
    Some(octets)
}
