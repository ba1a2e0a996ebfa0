//! Sockets of the system, for the loop of `net_loop`: listeners, each for a kind of connection, and their connections, each under a
//! number. None of them blocks; the system is asked which are ready.
#![tactic(auto)]

pub mod listener;
pub mod socket_path;
pub mod sockets;
pub mod stream;

pub use listener::Listener;
pub use socket_path::{bind_path, inherit};
pub use sockets::SystemSockets;
pub use stream::Stream;

// Connections with a server over the system's sockets.

pub mod socket_peer;
pub mod target;

pub use socket_peer::SocketPeer;
pub use target::Target;
