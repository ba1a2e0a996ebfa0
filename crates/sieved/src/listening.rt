//! The daemon's listeners, and the lines that tell where they listen.
use crate::options::{DaemonOptions, LmtpEndpoint};
use cli_run::fault::RunFault;
use cli_run::fault_with_cause::FaultWithCause;
use mio::net::TcpListener;
use net_sockets::{Listener, bind_path, inherit};
use octets::Octets;
use std::alloc::{AllocError, Global};
use std::fs::Files;
use std::io::ErrorKind;
use std::net::{Ipv4Addr, Net, SocketAddr};
use std::os::fd::AsFd;
use std::{format, io};
use store_lock::cause::socket_cause;

/// The listeners, in the order of the kinds of connections, and the lines that tell where they listen.
#[derive(Drop)]
pub struct Listening {
    pub listeners: Vec<Listener>,
    pub told: Octets,
}

/// Opens the listeners that the options ask for.
///
/// # Errors
///
/// [`RunFault::BadArgument`] if a path has something other than a socket; [`RunFault::Stream`] if a listener can't be opened, with
/// the cause.
pub fn listen<N: Net + Files, D: AsFd>(
    system: &N,
    alloc: Global,
    asked: &DaemonOptions<'_>,
    descriptor: &D,
) -> Result<Listening, FaultWithCause> {
    let mut listening = Listening {
        listeners: Vec::new(alloc),
        told: Octets::new(alloc),
    };
    listen_to_sieve(system, alloc, asked, &mut listening).map_err(fault_of_socket)?;
    match listen_to_mail(system, alloc, asked, descriptor, &mut listening) {
        Ok(()) => Ok(listening),
        Err(error) => Err(fault_of_listener(asked.lmtp, error)),
    }
}

fn listen_to_sieve<N: Net>(
    system: &N,
    alloc: Global,
    asked: &DaemonOptions<'_>,
    listening: &mut Listening,
) -> io::Result<()> {
    let listener = match asked.managesieve {
        Some(port) => bind_port(system, alloc, port, &mut listening.told)?,
        None => Listener::Nowhere,
    };
    listening.listeners.push(listener)?;
    Ok(())
}

fn listen_to_mail<N: Net + Files, D: AsFd>(
    system: &N,
    alloc: Global,
    asked: &DaemonOptions<'_>,
    descriptor: &D,
    listening: &mut Listening,
) -> io::Result<()> {
    let Some(endpoint) = asked.lmtp else {
        return Ok(());
    };
    let listener = match endpoint {
        LmtpEndpoint::Port(port) => bind_port(system, alloc, port, &mut listening.told)?,
        LmtpEndpoint::Path(path) => {
            let listener = bind_path(system, path)?;
            tell_listening(&mut listening.told, path.as_bytes())?;
            listener
        }
        LmtpEndpoint::Inherited => {
            let listener = inherit(descriptor)?;
            tell_listening(&mut listening.told, b"-")?;
            listener
        }
    };
    listening.listeners.push(listener)?;
    Ok(())
}

/// Listens on the loopback address.
fn bind_port<N: Net>(
    system: &N,
    alloc: Global,
    port: u16,
    told: &mut Octets,
) -> io::Result<Listener> {
    let listener = TcpListener::bind(system, SocketAddr::from((Ipv4Addr::LOCALHOST, port)))?;
    let address = listener.local_addr()?;
    tell_listening(told, format!(in alloc; "{address}")?.as_bytes())?;
    Ok(Listener::Tcp(listener))
}

/// Appends the line that tells where it listens.
fn tell_listening(told: &mut Octets, place: &[u8]) -> Result<(), AllocError> {
    told.extend_from_slice(b"listening on ")?;
    told.extend_from_slice(place)?;
    told.push(b'\n')
}

/// The fault of a listener that can't be opened, with its cause.
pub fn fault_of_socket(error: io::Error) -> FaultWithCause {
    FaultWithCause {
        fault: RunFault::Stream,
        cause: socket_cause(error.kind()),
    }
}

/// The same for the listener of LMTP. A path that has something other than a socket is a bad argument.
fn fault_of_listener(endpoint: Option<LmtpEndpoint<'_>>, error: io::Error) -> FaultWithCause {
    match (endpoint, error.kind()) {
        (Some(LmtpEndpoint::Path(_)), ErrorKind::AlreadyExists) => {
            FaultWithCause::from(RunFault::BadArgument)
        }
        _ => fault_of_socket(error),
    }
}
