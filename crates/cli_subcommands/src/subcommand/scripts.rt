//! `scripts`: a user's scripts.
ghost use Rattle.cli_subcommands.specs.Asks.{IsScriptsArgs};

use crate::argument::CliArgument;
use crate::given::Given;
use crate::location::StoreLocation;
use crate::subcommand_row::SubcommandRow;

pub static SCRIPTS: SubcommandRow = SubcommandRow {
    name: "scripts",
    about: "Lists a user's scripts, or prints one",
    more: "Reads nothing. Prints for each what LISTSCRIPTS does: its name as ManageSieve spells it, and ` ACTIVE` behind the active one's.
With SCRIPT prints the octets of that script.
Status 0: listed or printed. 64: wrong words. 65: no such script or store. 67: no such user. 75: try again later.",
    arguments: &[
        CliArgument::Db,
        CliArgument::Wait,
        CliArgument::User,
        CliArgument::AnyScript,
    ],
};

/// Whose scripts are to be listed, or which one is to be printed.
#[derive(Clone, Copy)]
pub struct ScriptsArgs<'a> {
    pub location: StoreLocation<'a>,
    /// The account's name.
    pub user: &'a str,
    /// The name of the script that is printed; all are listed if it is left out.
    pub script: Option<&'a str>,
}

impl<'a> ScriptsArgs<'a> {
    pub(crate) fn read(given: &Given<'a, '_>) -> ScriptsArgs<'a>
        ensures { IsScriptsArgs given.now.line.now given.now.matches.now result }
    {
        ScriptsArgs {
            location: given.location(),
            user: given.text(CliArgument::User),
            script: given.value(CliArgument::AnyScript),
        }
    }
}
