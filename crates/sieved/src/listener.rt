//! Serves clients on the loopback address, one after the other.
use cli_run::fault::{RunFault, refuse};
use cli_run::session::serve_client;
use cli_run::values::{decimal, port_of};
use cli_subcommands::{ServeArgs, StoreLocation};
use std::alloc::Global;
use std::io::{ErrorKind, Write};
use std::net::{Ipv4Addr, Net, SocketAddr, TcpListener, TcpStream};
use std::{format, io};
use store_lock::Keeper;

/// Listens on 127.0.0.1 and serves one client after the other, however the one before ended. Returns the exit
/// status: 0 after as many sessions as were asked for.
pub fn serve<R, W: Write, E: Write, K: Keeper>(
    rt: &R,
    alloc: Global,
    asked: ServeArgs<'_>,
    output: &mut W,
    errors: &mut E,
    keeper: &mut K,
) -> u8
where
    R: Net<Listener = TcpListener, Stream = TcpStream>,
{
    match listen_and_serve(rt, alloc, asked, output, errors, keeper) {
        Ok(()) => 0,
        Err(fault) => refuse(errors, fault),
    }
}

fn listen_and_serve<R, W: Write, E: Write, K: Keeper>(
    rt: &R,
    alloc: Global,
    asked: ServeArgs<'_>,
    output: &mut W,
    errors: &mut E,
    keeper: &mut K,
) -> Result<(), RunFault>
where
    R: Net<Listener = TcpListener, Stream = TcpStream>,
{
    let port = port_of(asked.port)?;
    let sessions = match asked.sessions {
        Some(text) => Some(decimal(text)?),
        None => None,
    };
    let Ok(listener) = listen(rt, alloc, port, output) else {
        return Err(RunFault::Stream);
    };
    serve_all(alloc, asked.location, &listener, sessions, errors, keeper)
}

/// Opens a listener on the loopback address, and prints its address as the first line of the output.
fn listen<R, W: Write>(rt: &R, alloc: Global, port: u16, output: &mut W) -> io::Result<TcpListener>
where
    R: Net<Listener = TcpListener, Stream = TcpStream>,
{
    let listener = TcpListener::bind(rt, SocketAddr::from((Ipv4Addr::LOCALHOST, port)))?;
    tell_listening(alloc, listener.local_addr()?, output)?;
    Ok(listener)
}

/// Prints on the output where it listens.
pub fn tell_listening<W: Write>(
    alloc: Global,
    address: SocketAddr,
    output: &mut W,
) -> io::Result<()> {
    output.write_all(format!(in alloc; "listening on {address}\n")?.as_bytes())?;
    output.flush()
}

/// Serves each client that connects, up to that many. A client that has gone before it is accepted isn't counted. The first
/// fault of the store that a client meets is reported on the errors.
fn serve_all<E: Write, K: Keeper>(
    alloc: Global,
    location: StoreLocation<'_>,
    listener: &TcpListener,
    sessions: Option<u64>,
    errors: &mut E,
    keeper: &mut K,
) -> Result<(), RunFault> {
    let mut left = sessions;
    if left == Some(0) {
        return Ok(());
    }
    for stream in listener.incoming() {
        let stream = match stream {
            Ok(stream) => stream,
            Err(error) if error.kind() == ErrorKind::ConnectionAborted => continue,
            Err(_) => return Err(RunFault::Stream),
        };
        let (mut input, mut output) = (&stream, &stream);
        let _ = serve_client(alloc, location, &mut input, &mut output, errors, keeper);
        left = match left {
            Some(0 | 1) => return Ok(()),
            Some(more) => Some(more - 1),
            None => None,
        };
    }
    Ok(())
}
