//! `adduser`: a new account.
ghost use Rattle.cli_subcommands.specs.Asks.{IsAddUserArgs};

use crate::argument::CliArgument;
use crate::given::Given;
use crate::location::StoreLocation;
use crate::subcommand_row::SubcommandRow;

pub static ADDUSER: SubcommandRow = SubcommandRow {
    name: "adduser",
    about: "Adds an account",
    more: "Reads the password, up to the first line end. Prints `added NAME`.
An account of the name that is closed, and has no mail, is opened anew, with what it remembers of senders.
Status 0: added. 64: wrong words or salt. 65: such a user is not allowed, or there already. 75: try again later.",
    arguments: &[
        CliArgument::Db,
        CliArgument::Wait,
        CliArgument::Salt,
        CliArgument::Name,
        CliArgument::Address,
    ],
};

/// The account that is to be added.
#[derive(Clone, Copy)]
pub struct AddUserArgs<'a> {
    pub location: StoreLocation<'a>,
    /// The salt in hexadecimal digits; the system's random octets are the salt if it is left out.
    pub salt: Option<&'a str>,
    /// The account's name.
    pub name: &'a str,
    /// The account's address.
    pub address: &'a str,
}

impl<'a> AddUserArgs<'a> {
    pub(crate) fn read(given: &Given<'a, '_>) -> AddUserArgs<'a>
        ensures { IsAddUserArgs given.now.line.now given.now.matches.now result }
    {
        AddUserArgs {
            location: given.location(),
            salt: given.value(CliArgument::Salt),
            name: given.text(CliArgument::Name),
            address: given.text(CliArgument::Address),
        }
    }
}
