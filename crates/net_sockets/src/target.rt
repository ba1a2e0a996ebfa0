//! Where a server is.
use std::net::SocketAddr;

/// Where a server is: an address and a port, or the path of a socket.
#[derive(Clone, Copy)]
pub enum Target<'a> {
    Port(SocketAddr),
    Path(&'a str),
}

impl<'a> Target<'a> {
    /// What a word of the command line names: `ADDRESS:PORT`, as `127.0.0.1:25` or `[::1]:25`, or a path, which has a `/`. No name is
    /// resolved. None if it is neither.
    pub fn read(word: &'a str) -> Option<Target<'a>> {
        if word.as_bytes().contains(&b'/') {
            return Some(Target::Path(word));
        }
        match word.parse::<SocketAddr>() {
            Ok(address) => Some(Target::Port(address)),
            Err(_) => None,
        }
    }
}
