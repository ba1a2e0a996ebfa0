//! `done`: a message left the queue.
ghost use Rattle.cli_subcommands.specs.Asks.{IsDoneArgs};

use crate::argument::CliArgument;
use crate::given::Given;
use crate::location::StoreLocation;
use crate::subcommand_row::SubcommandRow;

pub static DONE: SubcommandRow = SubcommandRow {
    name: "done",
    about: "Takes a message that went out off the queue",
    more: "Reads nothing. Prints `taken ID`.
Status 0: taken, and on the disk. 64: wrong words or number. 65: no such row or store. 67: no such user. 75: try again later.",
    arguments: &[
        CliArgument::Db,
        CliArgument::Wait,
        CliArgument::User,
        CliArgument::Id,
    ],
};

/// The message that was sent.
#[derive(Clone, Copy)]
pub struct DoneArgs<'a> {
    pub location: StoreLocation<'a>,
    /// The account's name.
    pub user: &'a str,
    /// The message's number in the queue, in decimal.
    pub id: &'a str,
}

impl<'a> DoneArgs<'a> {
    pub(crate) fn read(given: &Given<'a, '_>) -> DoneArgs<'a>
        ensures { IsDoneArgs given.now.line.now given.now.matches.now result }
    {
        DoneArgs {
            location: given.location(),
            user: given.text(CliArgument::User),
            id: given.text(CliArgument::Id),
        }
    }
}
