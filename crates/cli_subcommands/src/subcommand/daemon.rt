//! `daemon`: many clients at once, until the process is ended.
ghost use Rattle.cli_subcommands.specs.Asks.{IsDaemonArgs};

use crate::argument::CliArgument;
use crate::given::Given;
use crate::subcommand_row::SubcommandRow;

pub static DAEMON: SubcommandRow = SubcommandRow {
    name: "daemon",
    about: "Serves many clients of ManageSieve and of LMTP at once, and moves mail into Maildirs",
    more: "At least one of --managesieve, --lmtp and --mail. Ports are of the loopback address; a PATH of digits alone is a port.
--mail: INBOX moves into DIR/USER, or where DIR names it by %u, %n and %d (USER, before and after its @); another folder into its
directory there (folders --maildir --separator). --domain: mail of a user of another domain stays; DIR may then have %n alone.
Prints `listening on 127.0.0.1:P`, `listening on PATH` or `listening on -` for each once all listen. Ends by a signal alone.
--before, --after: at most 16 each, and run in their order; a delivery reads all of them.
--memory: of what isn't answered and of mail that comes in; from 1 to 65536. A client without room is told BYE, mail 452.
--clients: from 1 to 1000. --senders: from 1 to 100. Where all places are taken one that isn't logged in, or has no recipient, makes room.
Status 0: all is right (--check). 64: wrong words or numbers, or no socket at PATH. 65: no store, no DIR. 75: can't listen, another daemon, or try again later.",
    arguments: &[
        CliArgument::Db,
        CliArgument::Managesieve,
        CliArgument::Lmtp,
        CliArgument::Names,
        CliArgument::Mail,
        CliArgument::Domain,
        CliArgument::Separator,
        CliArgument::Zone,
        CliArgument::Before,
        CliArgument::Default,
        CliArgument::After,
        CliArgument::Host,
        CliArgument::Memory,
        CliArgument::Clients,
        CliArgument::Senders,
        CliArgument::Quiet,
        CliArgument::Check,
    ],
};

/// Which store clients are to be served from, and where.
#[derive(Clone, Copy)]
pub struct DaemonArgs<'a> {
    /// The path of the database's file.
    pub path: &'a str,
    /// The port for ManageSieve, in decimal.
    pub managesieve: Option<&'a str>,
    /// The port for LMTP, in decimal, or the path of a socket; `-` for the socket that was left on descriptor 0.
    pub lmtp: Option<&'a str>,
    /// What part of a recipient's address names the account: `local` or `whole`.
    pub names: Option<&'a str>,
    /// The directory of the users' Maildirs into which mail moves, if it does.
    pub mail: Option<&'a str>,
    /// The domain whose users' mail alone moves there, if it is only one.
    pub domain: Option<&'a str>,
    /// The separator of the levels of a folder's name there: `.` or `/`.
    pub separator: Option<&'a str>,
    /// The host's zone; UTC if it is left out.
    pub zone: Option<&'a str>,
    /// The host name in the greeting to clients of LMTP.
    pub host: Option<&'a str>,
    /// How much all connections together may hold, in MiB, in decimal: for ManageSieve what isn't answered yet, for LMTP lines and texts.
    pub memory: Option<&'a str>,
    /// How many clients of ManageSieve may be there at once, in decimal.
    pub clients: Option<&'a str>,
    /// How many clients of LMTP may be there at once, in decimal.
    pub senders: Option<&'a str>,
    /// Whether deliveries that were made aren't logged.
    pub quiet: bool,
    /// Whether to check only what would go wrong.
    pub check: bool,
}

impl<'a> DaemonArgs<'a> {
    pub(crate) fn read(given: &Given<'a, '_>) -> DaemonArgs<'a>
        ensures { IsDaemonArgs given.now.line.now given.now.matches.now result }
    {
        DaemonArgs {
            path: given.path(),
            managesieve: given.value(CliArgument::Managesieve),
            lmtp: given.value(CliArgument::Lmtp),
            names: given.value(CliArgument::Names),
            mail: given.value(CliArgument::Mail),
            domain: given.value(CliArgument::Domain),
            separator: given.value(CliArgument::Separator),
            zone: given.value(CliArgument::Zone),
            host: given.value(CliArgument::Host),
            memory: given.value(CliArgument::Memory),
            clients: given.value(CliArgument::Clients),
            senders: given.value(CliArgument::Senders),
            quiet: given.flag(CliArgument::Quiet),
            check: given.flag(CliArgument::Check),
        }
    }
}
