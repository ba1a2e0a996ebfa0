//! `init`: a new store.
ghost use Rattle.cli_subcommands.specs.Asks.{IsInitArgs};

use crate::argument::CliArgument;
use crate::given::Given;
use crate::location::StoreLocation;
use crate::subcommand_row::SubcommandRow;

pub static INIT: SubcommandRow = SubcommandRow {
    name: "init",
    about: "Makes a store in a file that is absent or empty",
    more: "Reads nothing. Prints `ready`.
Status 0: made. 64: wrong words. 65: there is a store already. 75: try again later.",
    arguments: &[CliArgument::Db, CliArgument::Wait],
};

/// The place of a new store.
#[derive(Clone, Copy)]
pub struct InitArgs<'a> {
    pub location: StoreLocation<'a>,
}

impl<'a> InitArgs<'a> {
    pub(crate) fn read(given: &Given<'a, '_>) -> InitArgs<'a>
        ensures { IsInitArgs given.now.line.now given.now.matches.now result }
    {
        InitArgs {
            location: given.location(),
        }
    }
}
