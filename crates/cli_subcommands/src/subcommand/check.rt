//! `check`: whether scripts are valid.
ghost use Rattle.cli_subcommands.specs.Asks.{IsCheckArgs};

use crate::argument::CliArgument;
use crate::given::Given;
use crate::subcommand_row::SubcommandRow;

pub static CHECK: SubcommandRow = SubcommandRow {
    name: "check",
    about: "Says whether scripts are valid, and needs no store",
    more: "Reads the script where no FILE is named. Prints nothing of a valid one, and of another `line N: ..`, or `FILE:N: ..` with files.
Status 0: all are valid. 64: wrong words. 65: some isn't. 75: a file can't be read; memory, input or output failed.",
    arguments: &[CliArgument::Files],
};

/// What is to be checked. `read_files` returns all files that are named.
#[derive(Clone, Copy)]
pub struct CheckArgs<'a> {
    /// The first file's path; `None` for standard input.
    pub file: Option<&'a str>,
}

impl<'a> CheckArgs<'a> {
    pub(crate) fn read(given: &Given<'a, '_>) -> CheckArgs<'a>
        ensures { IsCheckArgs given.now.line.now given.now.matches.now result }
    {
        CheckArgs {
            file: given.value(CliArgument::Files),
        }
    }
}
