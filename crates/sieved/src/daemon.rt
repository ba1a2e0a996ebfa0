//! Many clients at once.
use crate::descriptors::{TOO_FEW, are_enough};
use crate::host_settings::{lines_of, read_settings};
use crate::listening::{Listening, fault_of_socket, listen};
use crate::options::{DaemonOptions, MailOptions, read_options};
use cli_run::fault::RunFault;
use cli_run::fault_with_cause::FaultWithCause;
use cli_subcommands as words;
use cli_subcommands::HostFiles;
use daemon_core::life;
use daemon_core::mail::{MailDaemon, Places};
use daemon_host::host::Host;
use daemon_host::host_store::HostStore;
use daemon_host::host_system::{HostSystem, SocketsAndClock};
use daemon_host::mail_store::MailStore;
use maildir_files::Maildir;
use maildir_homes::{MailHomes, read_homes};
use maildir_moves::Route;
use net_loop::service::Service;
use net_sockets::SystemSockets;
use octets::Octets;
use std::alloc::{AllocError, Global};
use std::fs::Files;
use std::io::Write;
use std::net::Net;
use std::os::fd::AsFd;
use std::time::Clock;
use std::{fs, io};
use store_engine::HostSettings;
use store_lock::Keeper;

/// Serves many clients at once from a keeper's store. `descriptor` may hold a socket that another process left for LMTP. The
/// first line on the errors has the version and the process number, and the next ones name the files of the host's scripts. Returns
/// the exit status if the daemon ends.
pub fn serve_daemon<N: Net + Files + Clock, D: AsFd, W: Write, E: Write + Drop, K: Keeper + Drop>(
    system: &N,
    alloc: Global,
    words: words::DaemonArgs<'_>,
    files: &HostFiles<'_>,
    pid: u32,
    descriptor: &D,
    output: &mut W,
    mut errors: E,
    mut keeper: K,
    sink: Maildir<'_>,
) -> u8 {
    let asked = match read_options(words) {
        Ok(asked) => asked,
        Err(fault) => return FaultWithCause::from(fault).refuse(&mut errors),
    };
    let homes = match homes_of(alloc, asked.mail) {
        Ok(homes) => homes,
        Err(fault) => return fault.refuse(&mut errors),
    };
    let settings = match read_settings(system, alloc, asked.zone, files, output, &mut errors) {
        Ok(settings) => settings,
        Err(status) => return status,
    };
    let listening = match begin(
        system,
        alloc,
        words,
        &asked,
        &homes,
        descriptor,
        &mut errors,
        &mut keeper,
    ) {
        Ok(Some(listening)) => listening,
        Ok(None) => return 0,
        Err(fault) => return fault.refuse(&mut errors),
    };
    let lines = lines_of(alloc, files, &settings);
    let route = route_of(alloc, asked.mail, homes);
    let sockets = match watch(system, alloc, listening, output) {
        Ok(sockets) => sockets,
        Err(error) => return fault_of_socket(error).refuse(&mut errors),
    };
    live(
        alloc,
        words,
        &asked,
        settings,
        pid,
        lines,
        SocketsAndClock::new(sockets, system),
        HostStore::new(alloc, keeper, sink, route),
        errors,
    )
}

/// The listeners, opened once the lock for life is taken and the store has been checked; none if only that check is asked for.
fn begin<N: Net + Files, D: AsFd, E: Write, K: Keeper>(
    system: &N,
    alloc: Global,
    words: words::DaemonArgs<'_>,
    asked: &DaemonOptions<'_>,
    homes: &Option<MailHomes>,
    descriptor: &D,
    errors: &mut E,
    keeper: &mut K,
) -> Result<Option<Listening>, FaultWithCause> {
    look_at_limit(asked.places)?;
    look_at_store(words.path, errors, keeper)?;
    look_at_mail(system, homes)?;
    let listening = listen(system, alloc, asked, descriptor)?;
    if words.check {
        return Ok(None);
    }
    Ok(Some(listening))
}

/// Checks that the process may open as many descriptors as the daemon needs: with too few it could neither accept clients nor open
/// the store, and would still look healthy.
fn look_at_limit(places: Places) -> Result<(), FaultWithCause> {
    if are_enough(places) {
        return Ok(());
    }
    Err(FaultWithCause {
        fault: RunFault::BadArgument,
        cause: Some(TOO_FEW),
    })
}

/// Takes the lock for life, and then checks that the file is a store.
fn look_at_store<E: Write, K: Keeper>(
    path: &str,
    errors: &mut E,
    keeper: &mut K,
) -> Result<(), FaultWithCause> {
    if let Err(denial) = keeper.lock_for_life(path) {
        return Err(FaultWithCause::of_store(RunFault::from(denial), keeper));
    }
    keeper.wait_for_lock(true);
    match keeper.take(path, false) {
        Ok(store) => keeper.hand_back(store),
        Err(denial) => return Err(FaultWithCause::of_store(RunFault::from(denial), keeper)),
    }
    keeper.wait_for_lock(false);
    if let Some(refusal) = keeper.take_close_error() {
        FaultWithCause::of_store(RunFault::Refused(refusal), keeper).tell(errors);
    }
    Ok(())
}

/// Where the users' Maildirs are, if mail moves on.
fn homes_of(
    alloc: Global,
    mail: Option<MailOptions<'_>>,
) -> Result<Option<MailHomes>, FaultWithCause> {
    let Some(mail) = mail else {
        return Ok(None);
    };
    let domain = match mail.domain {
        Some(domain) => Some(Octets::from_slice(alloc, domain.as_bytes())?),
        None => None,
    };
    match read_homes(alloc, mail.homes.as_bytes(), domain) {
        Ok(Some(homes)) => Ok(Some(homes)),
        Ok(None) => Err(FaultWithCause::from(RunFault::BadArgument)),
        Err(refused) => Err(FaultWithCause::from(refused)),
    }
}

/// Checks that the directory that all Maildirs are in exists.
fn look_at_mail<N: Files>(system: &N, homes: &Option<MailHomes>) -> Result<(), FaultWithCause> {
    let Some(homes) = homes else {
        return Ok(());
    };
    let Ok(dir) = str::from_utf8(homes.dir.as_slice()) else {
        return Err(FaultWithCause::from(RunFault::NoMaildir));
    };
    match fs::metadata(system, dir) {
        Ok(found) if found.is_dir() => Ok(()),
        _ => Err(FaultWithCause::from(RunFault::NoMaildir)),
    }
}

/// The route of mail into Maildirs, if mail moves on.
fn route_of(
    alloc: Global,
    mail: Option<MailOptions<'_>>,
    homes: Option<MailHomes>,
) -> Option<Route> {
    Some(Route::new(alloc, homes?, mail?.separator))
}

/// Registers all listeners with the system, and prints that they listen.
fn watch<'n, N: Net + Clock, W: Write>(
    system: &'n N,
    alloc: Global,
    listening: Listening,
    output: &mut W,
) -> io::Result<SystemSockets<'n, N>> {
    let Listening { listeners, told } = listening;
    let sockets = SystemSockets::new(system, alloc, listeners)?;
    output.write_all(told.as_slice())?;
    output.flush()?;
    Ok(sockets)
}

/// Serves clients until the process ends. The first line on the errors has the process number, and these are the next ones.
fn live<S: HostSystem + Drop, E: Write + Drop, H: MailStore + Drop>(
    alloc: Global,
    words: words::DaemonArgs<'_>,
    asked: &DaemonOptions<'_>,
    settings: HostSettings,
    pid: u32,
    lines: Result<Octets, AllocError>,
    system: S,
    store: H,
    errors: E,
) -> u8 {
    let mut host = Host::new(
        alloc,
        system,
        store,
        words.path,
        settings,
        words.quiet,
        errors,
    );
    host.begin(words::VERSION.as_bytes(), pid, lines);
    let mut daemon = match daemon_of(alloc, asked) {
        Ok(daemon) => daemon,
        Err(refused) => return host.refuse(FaultWithCause::from(refused)),
    };
    let mut service = Service::new(alloc);
    match life::serve_clients(&mut host, &mut daemon, &mut service, u64::MAX) {
        Ok(()) => 0,
        Err(_) => host.refuse(FaultWithCause::from(RunFault::Stream)),
    }
}

/// A daemon with no client yet.
fn daemon_of(alloc: Global, asked: &DaemonOptions<'_>) -> Result<MailDaemon, AllocError> {
    let name = Octets::from_slice(alloc, asked.host.as_bytes())?;
    Ok(MailDaemon::new(
        alloc,
        asked.names,
        name,
        asked.mail.is_some(),
        asked.memory,
        asked.places,
    ))
}
