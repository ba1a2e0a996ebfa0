//! `remove`: an account is removed.
ghost use Rattle.cli_subcommands.specs.Asks.{IsRemoveArgs};

use crate::argument::CliArgument;
use crate::given::Given;
use crate::location::StoreLocation;
use crate::subcommand_row::SubcommandRow;

pub static REMOVE: SubcommandRow = SubcommandRow {
    name: "remove",
    about: "Removes an account",
    more: "Reads nothing. Prints `removed NAME`. What stays is when senders were answered, so that a new account of the name answers nobody twice.
Status 0: removed. 64: wrong words. 65: the user has mail. 67: no such user. 75: try again later.",
    arguments: &[
        CliArgument::Db,
        CliArgument::Wait,
        CliArgument::WithMail,
        CliArgument::Name,
    ],
};

/// The account that is to be removed.
#[derive(Clone, Copy)]
pub struct RemoveArgs<'a> {
    pub location: StoreLocation<'a>,
    /// Whether its messages are removed too.
    pub mail: bool,
    /// The account's name.
    pub user: &'a str,
}

impl<'a> RemoveArgs<'a> {
    pub(crate) fn read(given: &Given<'a, '_>) -> RemoveArgs<'a>
        ensures { IsRemoveArgs given.now.line.now given.now.matches.now result }
    {
        RemoveArgs {
            location: given.location(),
            mail: given.flag(CliArgument::WithMail),
            user: given.text(CliArgument::Name),
        }
    }
}
