//! `import`: an account, from its text.
ghost use Rattle.cli_subcommands.specs.Asks.{IsImportArgs};

use crate::argument::CliArgument;
use crate::given::Given;
use crate::location::StoreLocation;
use crate::subcommand_row::SubcommandRow;

pub static IMPORT: SubcommandRow = SubcommandRow {
    name: "import",
    about: "Adds the account of a text that `export` printed",
    more: "Reads the text. Prints `imported NAME`. A closed account of the name without mail is replaced; of that the moments of replies stay.
--as: the account gets this name in place of the one in the text; all else is as the text has it.
Status 0: added. 64: wrong words. 65: not the whole text of an account, the user exists, or has mail. 75: try again later.",
    arguments: &[CliArgument::Db, CliArgument::Wait, CliArgument::AsName],
};

/// The store that the account is added to.
#[derive(Clone, Copy)]
pub struct ImportArgs<'a> {
    pub location: StoreLocation<'a>,
    /// The name that the account gets; if it is left out, that in the text.
    pub name: Option<&'a str>,
}

impl<'a> ImportArgs<'a> {
    pub(crate) fn read(given: &Given<'a, '_>) -> ImportArgs<'a>
        ensures { IsImportArgs given.now.line.now given.now.matches.now result }
    {
        ImportArgs {
            location: given.location(),
            name: given.value(CliArgument::AsName),
        }
    }
}
