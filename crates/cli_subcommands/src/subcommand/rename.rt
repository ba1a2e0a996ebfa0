//! `rename`: another name for a script of a user.
ghost use Rattle.cli_subcommands.specs.Asks.{IsRenameArgs};

use crate::argument::CliArgument;
use crate::given::Given;
use crate::location::StoreLocation;
use crate::subcommand_row::SubcommandRow;

pub static RENAME: SubcommandRow = SubcommandRow {
    name: "rename",
    about: "Gives a script of a user another name",
    more: "Reads nothing. Prints `renamed NEWNAME`. The script stays active if it was.
Status 0: renamed, and that is on the disk. 64: wrong words. 65: no such script or store, a script has the new name already, or such
a name is not allowed. 67: no such user. 75: try again later.",
    arguments: &[
        CliArgument::Db,
        CliArgument::Wait,
        CliArgument::User,
        CliArgument::Script,
        CliArgument::NewName,
    ],
};

/// The script that is to have another name.
#[derive(Clone, Copy)]
pub struct RenameArgs<'a> {
    pub location: StoreLocation<'a>,
    /// The account's name.
    pub user: &'a str,
    /// The script's name as it is.
    pub script: &'a str,
    /// The name that it gets.
    pub new_name: &'a str,
}

impl<'a> RenameArgs<'a> {
    pub(crate) fn read(given: &Given<'a, '_>) -> RenameArgs<'a>
        ensures { IsRenameArgs given.now.line.now given.now.matches.now result }
    {
        RenameArgs {
            location: given.location(),
            user: given.text(CliArgument::User),
            script: given.text(CliArgument::Script),
            new_name: given.text(CliArgument::NewName),
        }
    }
}
