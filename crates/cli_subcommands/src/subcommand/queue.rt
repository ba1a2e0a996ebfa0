//! `queue`: a user's messages on their way out, or one of them; or those of all users.
ghost use Rattle.cli_subcommands.specs.Asks.{IsQueueArgs};

use crate::argument::CliArgument;
use crate::given::Given;
use crate::location::StoreLocation;
use crate::subcommand_row::SubcommandRow;

pub static QUEUE: SubcommandRow = SubcommandRow {
    name: "queue",
    about: "Lists the messages on their way out of a user, or of all, or shows one",
    more: "Reads nothing. Prints `ID KIND <SENDER> <TARGET> OCTETS` for each, or with ID the message as it goes out.
In an address an octet up to 32, 127, <, > or \\ is \\ and two hexadecimal digits, so that a line has five words.
--all: of all users, in the order of the octets of their names: `USER ID KIND <SENDER> <TARGET> OCTETS` for each. A closed account
isn't listed.
Status 0: listed or shown. 64: wrong words or number. 65: no such row or store. 67: no such user. 75: try again later.",
    arguments: &[
        CliArgument::Db,
        CliArgument::Wait,
        CliArgument::AllUsers,
        CliArgument::AnyUser,
        CliArgument::AnyId,
    ],
};

/// Whose queue is to be listed, or what of it is to be shown.
#[derive(Clone, Copy)]
pub struct QueueArgs<'a> {
    pub location: StoreLocation<'a>,
    /// Whether those of all users are asked for.
    pub all: bool,
    /// The account's name, if it is given.
    pub user: Option<&'a str>,
    /// The number of the message that is printed, in decimal; all messages are listed if it is left out.
    pub id: Option<&'a str>,
}

impl<'a> QueueArgs<'a> {
    pub(crate) fn read(given: &Given<'a, '_>) -> QueueArgs<'a>
        ensures { IsQueueArgs given.now.line.now given.now.matches.now result }
    {
        QueueArgs {
            location: given.location(),
            all: given.flag(CliArgument::AllUsers),
            user: given.value(CliArgument::AnyUser),
            id: given.value(CliArgument::AnyId),
        }
    }
}
