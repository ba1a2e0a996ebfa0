//! `serve`: clients of ManageSieve on the loopback address, one after the other.
ghost use Rattle.cli_subcommands.specs.Asks.{IsServeArgs};

use crate::argument::CliArgument;
use crate::given::Given;
use crate::location::StoreLocation;
use crate::subcommand_row::SubcommandRow;

pub static SERVE: SubcommandRow = SubcommandRow {
    name: "serve",
    about: "Serves ManageSieve on the loopback address, one client after the other",
    more: "Prints `listening on 127.0.0.1:P` once it listens.
Status 0: as many sessions as asked for have ended. 64: wrong words or numbers. 75: can't listen, or try again later.",
    arguments: &[
        CliArgument::Db,
        CliArgument::Wait,
        CliArgument::Port,
        CliArgument::Sessions,
    ],
};

/// Where clients are to be served.
#[derive(Clone, Copy)]
pub struct ServeArgs<'a> {
    pub location: StoreLocation<'a>,
    /// The port, in decimal.
    pub port: &'a str,
    /// The number of sessions after which it ends, in decimal; it never ends if it is left out.
    pub sessions: Option<&'a str>,
}

impl<'a> ServeArgs<'a> {
    pub(crate) fn read(given: &Given<'a, '_>) -> ServeArgs<'a>
        ensures { IsServeArgs given.now.line.now given.now.matches.now result }
    {
        ServeArgs {
            location: given.location(),
            port: given.text(CliArgument::Port),
            sessions: given.value(CliArgument::Sessions),
        }
    }
}
