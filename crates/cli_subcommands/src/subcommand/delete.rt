//! `delete`: a script of a user that isn't wanted any more.
ghost use Rattle.cli_subcommands.specs.Asks.{IsDeleteArgs};

use crate::argument::CliArgument;
use crate::given::Given;
use crate::location::StoreLocation;
use crate::subcommand_row::SubcommandRow;

pub static DELETE: SubcommandRow = SubcommandRow {
    name: "delete",
    about: "Deletes a script of a user that isn't the active one",
    more: "Reads nothing. Prints `deleted SCRIPT`. The active script isn't deleted: `deactivate` it, or `activate` another one, first.
Status 0: deleted, and that is on the disk. 64: wrong words. 65: no such script or store, or it is active. 67: no such user.
75: try again later.",
    arguments: &[
        CliArgument::Db,
        CliArgument::Wait,
        CliArgument::User,
        CliArgument::Script,
    ],
};

/// The script that is to be deleted.
#[derive(Clone, Copy)]
pub struct DeleteArgs<'a> {
    pub location: StoreLocation<'a>,
    /// The account's name.
    pub user: &'a str,
    /// The script's name.
    pub script: &'a str,
}

impl<'a> DeleteArgs<'a> {
    pub(crate) fn read(given: &Given<'a, '_>) -> DeleteArgs<'a>
        ensures { IsDeleteArgs given.now.line.now given.now.matches.now result }
    {
        DeleteArgs {
            location: given.location(),
            user: given.text(CliArgument::User),
            script: given.text(CliArgument::Script),
        }
    }
}
