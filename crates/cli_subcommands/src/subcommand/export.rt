//! `export`: an account as a text.
ghost use Rattle.cli_subcommands.specs.Asks.{IsExportArgs};

use crate::argument::CliArgument;
use crate::given::Given;
use crate::location::StoreLocation;
use crate::subcommand_row::SubcommandRow;

pub static EXPORT: SubcommandRow = SubcommandRow {
    name: "export",
    about: "Prints an account as a text that `import` reads",
    more: "Reads nothing. Prints all that an open account has: address, password record, scripts, moments of replies, messages, queue, notices.
A text that broke off ends without its sum, and `import` refuses it.
--and-close: closes the account once the text is written; `open` opens it again.
Status 0: printed. 64: wrong words. 65: no such store. 67: no such user. 75: try again later; the account isn't closed.",
    arguments: &[
        CliArgument::Db,
        CliArgument::Wait,
        CliArgument::AndClose,
        CliArgument::User,
    ],
};

/// Whose account is to be printed.
#[derive(Clone, Copy)]
pub struct ExportArgs<'a> {
    pub location: StoreLocation<'a>,
    /// Whether the account is closed after the text is written.
    pub and_close: bool,
    /// The account's name.
    pub user: &'a str,
}

impl<'a> ExportArgs<'a> {
    pub(crate) fn read(given: &Given<'a, '_>) -> ExportArgs<'a>
        ensures { IsExportArgs given.now.line.now given.now.matches.now result }
    {
        ExportArgs {
            location: given.location(),
            and_close: given.flag(CliArgument::AndClose),
            user: given.text(CliArgument::User),
        }
    }
}
