//! `put`: a script of a user.
ghost use Rattle.cli_subcommands.specs.Asks.{IsPutArgs};

use crate::argument::CliArgument;
use crate::given::Given;
use crate::location::StoreLocation;
use crate::subcommand_row::SubcommandRow;

pub static PUT: SubcommandRow = SubcommandRow {
    name: "put",
    about: "Stores a script of a user",
    more: "Reads the script, which takes the place of one of the name. Prints `stored SCRIPT`; or `line N: ..` of a script that isn't valid.
Status 0: stored. 64: wrong words. 65: not valid, or such a name, size or number of scripts is not allowed. 67: no such user.
75: try again later.",
    arguments: &[
        CliArgument::Db,
        CliArgument::Wait,
        CliArgument::Activate,
        CliArgument::User,
        CliArgument::Script,
    ],
};

/// The script that is to be stored.
#[derive(Clone, Copy)]
pub struct PutArgs<'a> {
    pub location: StoreLocation<'a>,
    /// Whether the script becomes the active one.
    pub activate: bool,
    /// The account's name.
    pub user: &'a str,
    /// The script's name.
    pub script: &'a str,
}

impl<'a> PutArgs<'a> {
    pub(crate) fn read(given: &Given<'a, '_>) -> PutArgs<'a>
        ensures { IsPutArgs given.now.line.now given.now.matches.now result }
    {
        PutArgs {
            location: given.location(),
            activate: given.flag(CliArgument::Activate),
            user: given.text(CliArgument::User),
            script: given.text(CliArgument::Script),
        }
    }
}
