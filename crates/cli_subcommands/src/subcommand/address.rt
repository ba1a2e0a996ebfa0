//! `address`: another address of an account.
ghost use Rattle.cli_subcommands.specs.Asks.{IsAddressArgs};

use crate::argument::CliArgument;
use crate::given::Given;
use crate::location::StoreLocation;
use crate::subcommand_row::SubcommandRow;

pub static ADDRESS: SubcommandRow = SubcommandRow {
    name: "address",
    about: "Sets an account's mail address",
    more: "Reads nothing. Prints `changed NAME`.
Status 0: changed. 64: wrong words. 65: such an address is not allowed. 67: no such user. 75: try again later.",
    arguments: &[
        CliArgument::Db,
        CliArgument::Wait,
        CliArgument::Name,
        CliArgument::Address,
    ],
};

/// The account that gets another address.
#[derive(Clone, Copy)]
pub struct AddressArgs<'a> {
    pub location: StoreLocation<'a>,
    /// The account's name.
    pub user: &'a str,
    /// The account's new address.
    pub address: &'a str,
}

impl<'a> AddressArgs<'a> {
    pub(crate) fn read(given: &Given<'a, '_>) -> AddressArgs<'a>
        ensures { IsAddressArgs given.now.line.now given.now.matches.now result }
    {
        AddressArgs {
            location: given.location(),
            user: given.text(CliArgument::Name),
            address: given.text(CliArgument::Address),
        }
    }
}
