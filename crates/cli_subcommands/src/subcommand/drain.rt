//! `drain`: a folder's messages move into a Maildir.
ghost use Rattle.cli_subcommands.specs.Asks.{IsDrainArgs};

use crate::argument::CliArgument;
use crate::given::Given;
use crate::location::StoreLocation;
use crate::subcommand_row::SubcommandRow;

pub static DRAIN: SubcommandRow = SubcommandRow {
    name: "drain",
    about: "Moves a folder's messages into a Maildir, the first ones first",
    more: "Reads nothing. Prints `drained N`: how many moved. A message leaves the store once it is on the disk in MAILDIR.
Status 0: moved. 64: wrong words or number. 65: no such Maildir or store. 67: no such user. 75: some may have moved; try again later.",
    arguments: &[
        CliArgument::Db,
        CliArgument::Wait,
        CliArgument::Most,
        CliArgument::User,
        CliArgument::Folder,
        CliArgument::Maildir,
    ],
};

/// The folder that is to be drained, and where its messages go.
#[derive(Clone, Copy)]
pub struct DrainArgs<'a> {
    pub location: StoreLocation<'a>,
    /// How many messages move at most, in decimal; all of the folder's if it is left out.
    pub most: Option<&'a str>,
    /// The account's name.
    pub user: &'a str,
    /// The folder's name.
    pub folder: &'a str,
    /// The path of the Maildir.
    pub maildir: &'a str,
}

impl<'a> DrainArgs<'a> {
    pub(crate) fn read(given: &Given<'a, '_>) -> DrainArgs<'a>
        ensures { IsDrainArgs given.now.line.now given.now.matches.now result }
    {
        DrainArgs {
            location: given.location(),
            most: given.value(CliArgument::Most),
            user: given.text(CliArgument::User),
            folder: given.text(CliArgument::Folder),
            maildir: given.text(CliArgument::Maildir),
        }
    }
}
