//! A connection over the system's sockets.
ghost use Rattle.std.specs.Prelude.{◌≤◌, length, IfOk, IfSome};

use crate::target::Target;
use smtp_send::{Lost, MOMENT, Patience, SmtpPeer};
use std::io::{ErrorKind, Read, Write};
use std::net::{Net, TcpStream};
use std::os::unix::net::UnixStream;
use std::time::Duration;

/// For how many seconds a connection is waited for.
const CONNECTING: u64 = 120;

/// How many times an interrupted read or write is retried.
const TRIES: u32 = 1_000;

/// A connection, or none.
#[derive(Drop)]
enum Link {
    None,
    Tcp(TcpStream),
    Unix(UnixStream),
}

/// Connections with one server, one after another. It tells nothing of what passes.
#[derive(Drop)]
pub struct SocketPeer<'a, N: Net<Stream = TcpStream>> {
    net: &'a N,
    target: Target<'a>,
    link: Link,
}

impl<'a, N: Net<Stream = TcpStream>> SocketPeer<'a, N> {
    /// Not yet connected.
    pub fn new(net: &'a N, target: Target<'a>) -> SocketPeer<'a, N> {
        SocketPeer {
            net,
            target,
            link: Link::None,
        }
    }
}

impl<'a, N: Net<Stream = TcpStream>> SmtpPeer for SocketPeer<'a, N> {
    ghost passed = { λ peer sent came. ⊥ };

    fn connect(&mut self) -> Result<(), Lost> {
        let link = match self.target {
            Target::Port(address) => {
                let wait = Duration::from_secs(CONNECTING);
                match TcpStream::connect_timeout(self.net, &address, wait) {
                    Ok(stream) => {
                        let _ = stream.set_nodelay(true);
                        Link::Tcp(stream)
                    }
                    Err(_) => return Err(Lost),
                }
            }
            Target::Path(path) => match UnixStream::connect(self.net, path) {
                Ok(stream) => Link::Unix(stream),
                Err(_) => return Err(Lost),
            },
        };
        self.link = link;
        Ok(())
    }

    fn send(&mut self, octets: &[u8], patience: Patience) -> Result<(), Lost> {
        let wait = Some(Duration::from_secs(patience.seconds()));
        let sent = match &mut self.link {
            Link::None => return Err(Lost),
            Link::Tcp(stream) => stream.set_write_timeout(wait).is_ok()
                && write_all(stream, octets),
            Link::Unix(stream) => stream.set_write_timeout(wait).is_ok()
                && write_all(stream, octets),
        };
        if sent { Ok(()) } else { Err(Lost) }
    }

    fn offer(&mut self, octets: &[u8]) -> Result<usize, Lost> {
        let wait = Some(Duration::from_millis(MOMENT));
        match &mut self.link {
            Link::None => Err(Lost),
            Link::Tcp(stream) => {
                if stream.set_write_timeout(wait).is_err() {
                    return Err(Lost);
                }
                write_some(stream, octets)
            }
            Link::Unix(stream) => {
                if stream.set_write_timeout(wait).is_err() {
                    return Err(Lost);
                }
                write_some(stream, octets)
            }
        }
    }

    fn receive(&mut self, piece: &mut [u8], patience: Patience) -> Result<usize, Lost> {
        let wait = Some(Duration::from_secs(patience.seconds()));
        match &mut self.link {
            Link::None => Err(Lost),
            Link::Tcp(stream) => {
                if stream.set_read_timeout(wait).is_err() {
                    return Err(Lost);
                }
                read_some(stream, piece)
            }
            Link::Unix(stream) => {
                if stream.set_read_timeout(wait).is_err() {
                    return Err(Lost);
                }
                read_some(stream, piece)
            }
        }
    }

    fn receive_at_once(&mut self, piece: &mut [u8]) -> Result<Option<usize>, Lost> {
        let wait = Some(Duration::from_millis(MOMENT));
        match &mut self.link {
            Link::None => Err(Lost),
            Link::Tcp(stream) => {
                if stream.set_read_timeout(wait).is_err() {
                    return Err(Lost);
                }
                read_at_once(stream, piece)
            }
            Link::Unix(stream) => {
                if stream.set_read_timeout(wait).is_err() {
                    return Err(Lost);
                }
                read_at_once(stream, piece)
            }
        }
    }

    fn disconnect(&mut self) {
        self.link = Link::None;
    }
}

// Writes all octets. Returns whether it could.
fn write_all<W: Write>(stream: &mut W, octets: &[u8]) -> bool {
    stream.write_all(octets).is_ok() && stream.flush().is_ok()
}

// Writes as many octets as are taken before the stream's wait is over.
fn write_some<W: Write>(stream: &mut W, octets: &[u8]) -> Result<usize, Lost>
    ensures { IfOk result (λ count. count ≤ length octets.now) }
{
    for _ in 0..TRIES {
        match stream.write(octets) {
            Ok(count) => return Ok(count),
            Err(error) if error.kind() == ErrorKind::Interrupted => {}
            Err(error) if is_late(error.kind()) => return Ok(0),
            Err(_) => return Err(Lost),
        }
    }
    Ok(0)
}

// Whether the stream's wait was over.
fn is_late(kind: ErrorKind) -> bool {
    matches!(kind, ErrorKind::WouldBlock | ErrorKind::TimedOut)
}

// Reads as many octets as there are before the stream's wait is over; none if there are none.
fn read_at_once<R: Read>(stream: &mut R, piece: &mut [u8]) -> Result<Option<usize>, Lost>
    ensures { IfOk result (λ found. IfSome found (λ count. count ≤ length piece.new)) }
{
    for _ in 0..TRIES {
        match stream.read(piece) {
            Ok(count) => return Ok(Some(count)),
            Err(error) if error.kind() == ErrorKind::Interrupted => {}
            Err(error) if is_late(error.kind()) => return Ok(None),
            Err(_) => return Err(Lost),
        }
    }
    Ok(None)
}

// Reads as many octets as there are.
fn read_some<R: Read>(stream: &mut R, piece: &mut [u8]) -> Result<usize, Lost>
    ensures { IfOk result (λ count. count ≤ length piece.new) }
{
    for _ in 0..TRIES {
        match stream.read(piece) {
            Ok(count) => return Ok(count),
            Err(error) if error.kind() == ErrorKind::Interrupted => {}
            Err(_) => return Err(Lost),
        }
    }
    Err(Lost)
}
