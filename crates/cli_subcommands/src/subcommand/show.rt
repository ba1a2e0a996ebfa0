//! `show`: a message of a folder.
ghost use Rattle.cli_subcommands.specs.Asks.{IsShowArgs};

use crate::argument::CliArgument;
use crate::given::Given;
use crate::location::StoreLocation;
use crate::subcommand_row::SubcommandRow;

pub static SHOW: SubcommandRow = SubcommandRow {
    name: "show",
    about: "Shows a message of a folder",
    more: "Reads nothing. Prints the message as it was received.
Status 0: shown. 64: wrong words or number. 65: no such message or store. 67: no such user. 75: try again later.",
    arguments: &[
        CliArgument::Db,
        CliArgument::Wait,
        CliArgument::User,
        CliArgument::Folder,
        CliArgument::Number,
    ],
};

/// The message that is to be shown.
#[derive(Clone, Copy)]
pub struct ShowArgs<'a> {
    pub location: StoreLocation<'a>,
    /// The account's name.
    pub user: &'a str,
    /// The folder's name.
    pub folder: &'a str,
    /// The message's number in the folder, from 1, in decimal.
    pub number: &'a str,
}

impl<'a> ShowArgs<'a> {
    pub(crate) fn read(given: &Given<'a, '_>) -> ShowArgs<'a>
        ensures { IsShowArgs given.now.line.now given.now.matches.now result }
    {
        ShowArgs {
            location: given.location(),
            user: given.text(CliArgument::User),
            folder: given.text(CliArgument::Folder),
            number: given.text(CliArgument::Number),
        }
    }
}
