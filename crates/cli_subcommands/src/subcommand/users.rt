//! `users`: the accounts of a store.
ghost use Rattle.cli_subcommands.specs.Asks.{IsUsersArgs};

use crate::argument::CliArgument;
use crate::given::Given;
use crate::location::StoreLocation;
use crate::subcommand_row::SubcommandRow;

pub static USERS: SubcommandRow = SubcommandRow {
    name: "users",
    about: "Lists all users",
    more: "Reads nothing. Prints `NAME SCRIPT ADDRESS` for each, in the order of octets. SCRIPT is the active script's name as ManageSieve spells it,
or `-` where none is active. Of a closed account prints `closed NAME`, of a removed one nothing.
Status 0: listed. 64: wrong words. 65: no such store. 75: try again later.",
    arguments: &[CliArgument::Db, CliArgument::Wait],
};

/// Which store's users are to be listed.
#[derive(Clone, Copy)]
pub struct UsersArgs<'a> {
    pub location: StoreLocation<'a>,
}

impl<'a> UsersArgs<'a> {
    pub(crate) fn read(given: &Given<'a, '_>) -> UsersArgs<'a>
        ensures { IsUsersArgs given.now.line.now given.now.matches.now result }
    {
        UsersArgs {
            location: given.location(),
        }
    }
}
