//! Hands the queues of all users to a mail server.
use crate::options::host_of;
use crate::run_file::{lock_run, read_run, write_run};
use crate::wall_clock::WallClock;
use cli_run::fault::RunFault;
use cli_run::fault_with_cause::FaultWithCause;
use cli_run::values::decimal;
use cli_subcommands::SendArgs;
use net_sockets::{SocketPeer, Target};
use octets::Octets;
use smtp_queue::{Book, Ended, NotedWaits, RowWaits, Search, read_waits, send_due, tally_line};
use smtp_send::{SmtpClient, Stop};
use std::alloc::{AllocError, Global};
use std::io::Write;
use store_accounts::Refusal;
use store_lock::{FileKeeper, Keeper};

/// What the arguments of `send` ask for.
#[derive(Clone, Copy)]
struct SendOptions<'a> {
    path: &'a str,
    target: Target<'a>,
    host: &'a str,
    most: u64,
    send_8bit: bool,
}

/// Hands the rows of all queues that are due to a mail server. Returns the exit status.
pub fn send<W: Write, E: Write>(
    rt: &HostRuntime,
    words: SendArgs<'_>,
    output: &mut W,
    errors: &mut E,
) -> u8 {
    match read_send_options(words) {
        Ok(asked) => match send_all(rt, asked, output, errors) {
            Ok(()) => 0,
            Err(fault) => fault.refuse(errors),
        },
        Err(fault) => FaultWithCause::from(fault).refuse(errors),
    }
}

fn read_send_options(words: SendArgs<'_>) -> Result<SendOptions<'_>, RunFault> {
    let Some(target) = Target::read(words.smtp) else {
        return Err(RunFault::BadArgument);
    };
    let most = match words.most {
        Some(text) => decimal(text)?,
        None => u64::MAX,
    };
    Ok(SendOptions {
        path: words.path,
        target,
        host: host_of(words.host)?,
        most,
        send_8bit: words.send_8bit,
    })
}

/// Runs alone over a store: what is known of rows that wait is read first and written at the end, however the run ends.
fn send_all<W: Write, E: Write>(
    rt: &HostRuntime,
    asked: SendOptions<'_>,
    output: &mut W,
    errors: &mut E,
) -> Result<(), FaultWithCause> {
    let lock = lock_run(rt, asked.path)?;
    let ended = match read_run(rt, asked.path) {
        Ok(text) => send_known(rt, asked, text.as_slice(), output, errors),
        Err(refused) => Err(FaultWithCause::from(refused)),
    };
    drop(lock);
    ended
}

/// Sends the rows that are due, given the text of what is known of those that wait.
fn send_known<W: Write, E: Write>(
    rt: &HostRuntime,
    asked: SendOptions<'_>,
    text: &[u8],
    output: &mut W,
    errors: &mut E,
) -> Result<(), FaultWithCause> {
    let alloc = rt.alloc();
    let mut clock = WallClock::new(rt);
    let now = clock.now();
    let waits = read_waits(alloc, text)?;
    let search = Search {
        path: asked.path,
        waits: &waits,
        now,
    };
    let known = read_waits(alloc, text)?;
    let (known, ended) = send_rows(rt, asked, search, known, &mut clock, output, errors)?;
    write_run(rt, asked.path, &known.waits, now);
    let told = tell_tally(alloc, output, known.sent, known.waiting);
    match ended.tally {
        Ok(_) => told,
        Err(stop) => Err(fault_of_stop(stop, &ended.keeper, &known, errors)),
    }
}

/// Sends the rows that are due over one connection, and over another one if it is lost.
fn send_rows<'a, W: Write, E: Write>(
    rt: &'a HostRuntime,
    asked: SendOptions<'_>,
    search: Search<'_>,
    known: RowWaits,
    clock: &mut WallClock<'a>,
    output: &mut W,
    errors: &mut E,
) -> Result<(NotedWaits, Ended<FileKeeper<'a>>), FaultWithCause> {
    let alloc = rt.alloc();
    let host = Octets::from_slice(alloc, asked.host.as_bytes())?;
    let mut server = SmtpClient::new(alloc, SocketPeer::new(rt, asked.target), host);
    let mut book = Book::new(alloc, known, output, errors, clock);
    let ended = send_due(
        alloc,
        search,
        FileKeeper::new(rt),
        &mut server,
        &mut book,
        asked.send_8bit,
        asked.most,
    );
    Ok((book.into_memory(), ended))
}

/// The fault of a run that ended early. It names a row that the server has taken and that is still in the queue.
fn fault_of_stop<E: Write, K: Keeper>(
    stop: Stop,
    keeper: &K,
    known: &NotedWaits,
    errors: &mut E,
) -> FaultWithCause {
    match stop {
        Stop::Kept => {
            let _ = errors.write_all(b"sieved: sent, and in the queue still: ");
            let _ = errors.write_all(known.last.as_slice());
            let _ = errors.write_all(b"\n");
            FaultWithCause::of_store(RunFault::Refused(Refusal::Store), keeper)
        }
        Stop::Store => FaultWithCause::of_store(RunFault::Refused(Refusal::Store), keeper),
        Stop::Memory => FaultWithCause::from(AllocError),
        Stop::Unreachable | Stop::Output => FaultWithCause::from(RunFault::Stream),
    }
}

/// Prints the last line: how many rows were sent, and how many others were tried.
fn tell_tally<W: Write>(
    alloc: Global,
    output: &mut W,
    sent: u64,
    waiting: u64,
) -> Result<(), FaultWithCause> {
    let line = tally_line(alloc, sent, waiting)?;
    if output.write_all(line.as_slice()).is_err() || output.flush().is_err() {
        return Err(FaultWithCause::from(RunFault::Stream));
    }
    Ok(())
}
