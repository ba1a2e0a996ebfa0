//! `open`: a closed account is opened.
ghost use Rattle.cli_subcommands.specs.Asks.{IsOpenArgs};

use crate::argument::CliArgument;
use crate::given::Given;
use crate::location::StoreLocation;
use crate::subcommand_row::SubcommandRow;

pub static OPEN: SubcommandRow = SubcommandRow {
    name: "open",
    about: "Opens an account that is closed",
    more: "Reads nothing. Prints `opened NAME`. The account is as it was when it was closed.
Status 0: opened. 64: wrong words. 65: the user is open. 67: no such user. 75: try again later.",
    arguments: &[CliArgument::Db, CliArgument::Wait, CliArgument::Name],
};

/// The account that is to be opened.
#[derive(Clone, Copy)]
pub struct OpenArgs<'a> {
    pub location: StoreLocation<'a>,
    /// The account's name.
    pub user: &'a str,
}

impl<'a> OpenArgs<'a> {
    pub(crate) fn read(given: &Given<'a, '_>) -> OpenArgs<'a>
        ensures { IsOpenArgs given.now.line.now given.now.matches.now result }
    {
        OpenArgs {
            location: given.location(),
            user: given.text(CliArgument::Name),
        }
    }
}
