//! `folders`: a user's folders.
ghost use Rattle.cli_subcommands.specs.Asks.{IsFoldersArgs};

use crate::argument::CliArgument;
use crate::given::Given;
use crate::location::StoreLocation;
use crate::subcommand_row::SubcommandRow;

pub static FOLDERS: SubcommandRow = SubcommandRow {
    name: "folders",
    about: "Lists a user's folders",
    more: "Reads nothing. Prints `NAME COUNT` for each, in the order of their octets; with --maildir `DIRECTORY COUNT NAME`.
Status 0: listed. 64: wrong words or separator. 65: no such store. 67: no such user. 75: try again later.",
    arguments: &[
        CliArgument::Db,
        CliArgument::Wait,
        CliArgument::Directories,
        CliArgument::Separator,
        CliArgument::User,
    ],
};

/// Whose folders are to be listed, and how.
#[derive(Clone, Copy)]
pub struct FoldersArgs<'a> {
    pub location: StoreLocation<'a>,
    /// The account's name.
    pub user: &'a str,
    /// Whether each folder's directory in a Maildir is asked for.
    pub directories: bool,
    /// The separator of the levels of a folder's name, if it is given.
    pub separator: Option<&'a str>,
}

impl<'a> FoldersArgs<'a> {
    pub(crate) fn read(given: &Given<'a, '_>) -> FoldersArgs<'a>
        ensures { IsFoldersArgs given.now.line.now given.now.matches.now result }
    {
        FoldersArgs {
            location: given.location(),
            user: given.text(CliArgument::User),
            directories: given.flag(CliArgument::Directories),
            separator: given.value(CliArgument::Separator),
        }
    }
}
