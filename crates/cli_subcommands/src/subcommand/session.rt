//! `session`: one client of ManageSieve, over standard input and output.
ghost use Rattle.cli_subcommands.specs.Asks.{IsSessionArgs};

use crate::argument::CliArgument;
use crate::given::Given;
use crate::location::StoreLocation;
use crate::subcommand_row::SubcommandRow;

pub static SESSION: SubcommandRow = SubcommandRow {
    name: "session",
    about: "Serves one ManageSieve client over standard input and output",
    more: "For inetd, a systemd socket with Accept=yes, or ssh.
Status 0: the session has ended. 64: wrong words. 75: memory, input or output failed.",
    arguments: &[CliArgument::Db, CliArgument::Wait],
};

/// The store that a client is to be served from.
#[derive(Clone, Copy)]
pub struct SessionArgs<'a> {
    pub location: StoreLocation<'a>,
}

impl<'a> SessionArgs<'a> {
    pub(crate) fn read(given: &Given<'a, '_>) -> SessionArgs<'a>
        ensures { IsSessionArgs given.now.line.now given.now.matches.now result }
    {
        SessionArgs {
            location: given.location(),
        }
    }
}
