//! Where listeners come from, besides a port: the file system, or the process that started this one.
use crate::listener::Listener;
use mio::net::{TcpListener, UnixListener, UnixStream};
use std::fs::{Files, Metadata, Permissions};
use std::io::ErrorKind;
use std::net::Net;
use std::os::fd::{AsFd, OwnedFd};
use std::os::unix::fs::{FileTypeExt, PermissionsExt};
use std::os::unix::net;
use std::{fs, io};

/// The owner of the file may connect, and its group.
const MODE: u32 = 0o660;

/// What listens at a path of the file system. A socket that a process left there when it ended is removed first.
///
/// # Errors
///
/// `AlreadyExists` if something other than a socket is there, `AddrInUse` if somebody listens at it, and what the system says.
pub fn bind_path<R: Files + Net>(system: &R, path: &str) -> io::Result<Listener> {
    if let Some(metadata) = find(system, path)? {
        clear(system, path, &metadata)?;
    }
    let listener = UnixListener::bind(system, path)?;
    fs::set_permissions(system, path, Permissions::from_mode(MODE))?;
    Ok(Listener::Unix(listener))
}

/// What is there, if anything is.
fn find<R: Files>(system: &R, path: &str) -> io::Result<Option<Metadata>> {
    match fs::symlink_metadata(system, path) {
        Ok(metadata) => Ok(Some(metadata)),
        Err(error) if error.kind() == ErrorKind::NotFound => Ok(None),
        Err(error) => Err(error),
    }
}

/// Removes a socket at which nobody listens, and nothing else.
fn clear<R: Files + Net>(system: &R, path: &str, metadata: &Metadata) -> io::Result<()> {
    if !metadata.file_type().is_socket() {
        return Err(io::Error::from(ErrorKind::AlreadyExists));
    }
    match UnixStream::connect(system, path) {
        Ok(_) => Err(io::Error::from(ErrorKind::AddrInUse)),
        Err(error) => clear_after(system, path, error),
    }
}

/// Judges by what an attempt to connect came to. A socket whose queue is full is in use: it answers later.
fn clear_after<R: Files>(system: &R, path: &str, error: io::Error) -> io::Result<()> {
    match error.kind() {
        ErrorKind::ConnectionRefused => fs::remove_file(system, path),
        ErrorKind::WouldBlock => Err(io::Error::from(ErrorKind::AddrInUse)),
        _ => Err(error),
    }
}

/// The listener that another process opened and left to this one, in the file system or by TCP, as systemd does on descriptor 0. From
/// now on it doesn't block, for either of the two.
///
/// # Errors
///
/// If it is no such socket, and what the system says. Whether it listens isn't seen before the first connection.
pub fn inherit(descriptor: &impl AsFd) -> io::Result<Listener> {
    let listener = net::UnixListener::from(descriptor.as_fd().try_clone_to_owned()?);
    if listener.local_addr().is_err() {
        return inherit_tcp(OwnedFd::from(listener));
    }
    listener.set_nonblocking(true)?;
    Ok(Listener::Unix(UnixListener::from_std(listener)))
}

fn inherit_tcp(descriptor: OwnedFd) -> io::Result<Listener> {
    let listener = std::net::TcpListener::from(descriptor);
    listener.local_addr()?;
    listener.set_nonblocking(true)?;
    Ok(Listener::Tcp(TcpListener::from_std(listener)))
}
