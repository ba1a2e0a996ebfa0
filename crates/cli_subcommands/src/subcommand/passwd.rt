//! `passwd`: another password of an account.
ghost use Rattle.cli_subcommands.specs.Asks.{IsPasswdArgs};

use crate::argument::CliArgument;
use crate::given::Given;
use crate::location::StoreLocation;
use crate::subcommand_row::SubcommandRow;

pub static PASSWD: SubcommandRow = SubcommandRow {
    name: "passwd",
    about: "Sets an account's password",
    more: "Reads the password, up to the first line end. Prints `changed NAME`. A session that is open stays logged in until it ends.
Status 0: changed. 64: wrong words or salt. 65: such a password is not allowed. 67: no such user. 75: try again later.",
    arguments: &[
        CliArgument::Db,
        CliArgument::Wait,
        CliArgument::Salt,
        CliArgument::Name,
    ],
};

/// The account that gets another password.
#[derive(Clone, Copy)]
pub struct PasswdArgs<'a> {
    pub location: StoreLocation<'a>,
    /// The salt in hexadecimal digits; the system's random octets are the salt if it is left out.
    pub salt: Option<&'a str>,
    /// The account's name.
    pub user: &'a str,
}

impl<'a> PasswdArgs<'a> {
    pub(crate) fn read(given: &Given<'a, '_>) -> PasswdArgs<'a>
        ensures { IsPasswdArgs given.now.line.now given.now.matches.now result }
    {
        PasswdArgs {
            location: given.location(),
            salt: given.value(CliArgument::Salt),
            user: given.text(CliArgument::Name),
        }
    }
}
