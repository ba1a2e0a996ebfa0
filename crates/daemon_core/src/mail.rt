//! The daemon with its clients of LMTP.
ghost use Rattle.std.specs.Prelude.{◌≡◌, []};
ghost use Rattle.daemon_core.specs.MailRules as rules;

use crate::daemon::Daemon;
use crate::gathered::Gathered;
use crate::machine::{LMTP, MANAGESIEVE};
use lmtp_connections::LmtpConnection;
use lmtp_dialogue::Names;
use octets::Octets;
use std::alloc::Global;
use std::collections::BTreeMap;

/// How many clients may be there at once.
#[derive(Clone, Copy, Debug, PartialEq, Eq)]
pub struct Places {
    /// Of ManageSieve. A session holds one item and a piece at most: 2 MiB and 12 KiB.
    pub clients: u32,
    /// Of LMTP.
    pub senders: u32,
}

impl Places {
    /// How many of that kind.
    pub fn limit(self, kind: u32) -> usize
        ensures { result ≡ rules.limit_for self kind }
    {
        if kind == LMTP {
            self.senders as usize
        } else if kind == MANAGESIEVE {
            self.clients as usize
        } else {
            0
        }
    }
}

/// The daemon, which serves clients of ManageSieve, and beside them clients of LMTP, by their numbers.
#[derive(Drop)]
pub struct MailDaemon {
    pub daemon: Daemon,
    pub lmtp_connections: BTreeMap<u32, LmtpConnection>,
    /// Those of them whose messages are to be delivered together.
    pub gathered: Gathered,
    /// What names the account of a recipient.
    pub names: Names,
    /// The name with which clients of LMTP are greeted.
    pub host: Octets,
    /// How many KiB all connections may hold together, unread and of texts.
    pub memory: u32,
    pub places: Places,
}

impl MailDaemon {
    /// No connections. If `moves`, mail moves on. Takes no memory.
    ///
    /// Octets of a connection fit if it holds at most 8,192 with them, or if all hold at most `memory` KiB (of ManageSieve what isn't
    /// answered, of LMTP lines and texts), and those of ManageSieve that aren't logged in an eighth of it. If octets of LMTP don't fit, a
    /// text is dropped; a client of ManageSieve is told so, and its connection ends.
    pub fn new(
        alloc: Global,
        names: Names,
        host: Octets,
        moves: bool,
        memory: u32,
        places: Places,
    ) -> MailDaemon
        ensures sessions { result.daemon.clients.sessions.entries ≡ [] }
        ensures states { result.daemon.states.entries ≡ [] }
        ensures lmtp_connections { result.lmtp_connections.entries ≡ [] }
        ensures names { result.names ≡ names }
        ensures host { result.host ≡ host }
        ensures moves { result.daemon.holding.moves ≡ moves }
        ensures memory { result.memory ≡ memory }
        ensures places { result.places ≡ places }
    {
        MailDaemon {
            daemon: Daemon::new(alloc, moves),
            lmtp_connections: BTreeMap::new(alloc),
            gathered: Gathered::new(alloc),
            names,
            host,
            memory,
            places,
        }
    }
}
