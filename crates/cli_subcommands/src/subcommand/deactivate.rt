//! `deactivate`: no script of a user decides on mail.
ghost use Rattle.cli_subcommands.specs.Asks.{IsDeactivateArgs};

use crate::argument::CliArgument;
use crate::given::Given;
use crate::location::StoreLocation;
use crate::subcommand_row::SubcommandRow;

pub static DEACTIVATE: SubcommandRow = SubcommandRow {
    name: "deactivate",
    about: "Makes none of a user's scripts the active one",
    more: "Reads nothing. Prints `deactivated USER`, also if none was active. The host's default script decides then, or all is kept.
Status 0: none is active, and that is on the disk. 64: wrong words. 65: no such store. 67: no such user. 75: try again later.",
    arguments: &[CliArgument::Db, CliArgument::Wait, CliArgument::User],
};

/// The user of whose scripts none is to be active.
#[derive(Clone, Copy)]
pub struct DeactivateArgs<'a> {
    pub location: StoreLocation<'a>,
    /// The account's name.
    pub user: &'a str,
}

impl<'a> DeactivateArgs<'a> {
    pub(crate) fn read(given: &Given<'a, '_>) -> DeactivateArgs<'a>
        ensures { IsDeactivateArgs given.now.line.now given.now.matches.now result }
    {
        DeactivateArgs {
            location: given.location(),
            user: given.text(CliArgument::User),
        }
    }
}
