//! `activate`: which of a user's scripts decides on mail.
ghost use Rattle.cli_subcommands.specs.Asks.{IsActivateArgs};

use crate::argument::CliArgument;
use crate::given::Given;
use crate::location::StoreLocation;
use crate::subcommand_row::SubcommandRow;

pub static ACTIVATE: SubcommandRow = SubcommandRow {
    name: "activate",
    about: "Makes a script of a user the active one",
    more: "Reads nothing. Prints `activated SCRIPT`.
Status 0: it is active, and that is on the disk. 64: wrong words. 65: no such script or store. 67: no such user. 75: try again later.",
    arguments: &[
        CliArgument::Db,
        CliArgument::Wait,
        CliArgument::User,
        CliArgument::Script,
    ],
};

/// The script that is to be the active one.
#[derive(Clone, Copy)]
pub struct ActivateArgs<'a> {
    pub location: StoreLocation<'a>,
    /// The account's name.
    pub user: &'a str,
    /// The script's name.
    pub script: &'a str,
}

impl<'a> ActivateArgs<'a> {
    pub(crate) fn read(given: &Given<'a, '_>) -> ActivateArgs<'a>
        ensures { IsActivateArgs given.now.line.now given.now.matches.now result }
    {
        ActivateArgs {
            location: given.location(),
            user: given.text(CliArgument::User),
            script: given.text(CliArgument::Script),
        }
    }
}
