//! `notices`: what went wrong in the deliveries of a user, or of all.
ghost use Rattle.cli_subcommands.specs.Asks.{IsNoticesArgs};

use crate::argument::CliArgument;
use crate::given::Given;
use crate::location::StoreLocation;
use crate::subcommand_row::SubcommandRow;

pub static NOTICES: SubcommandRow = SubcommandRow {
    name: "notices",
    about: "Lists what went wrong in a user's deliveries, or in all, and takes it where that is said",
    more: "Reads nothing. Prints `MOMENT TEXT` for each, the moment in seconds since 1970. They stay.
--all: of all users, in the order of the octets of their names: `USER MOMENT TEXT` for each. A closed account isn't listed.
--until: prints those up to that second, and takes them once they are printed; of one user, not with --all.
Status 0: listed. 64: wrong words or number. 65: no such store. 67: no such user. 75: try again later; none is taken.",
    arguments: &[
        CliArgument::Db,
        CliArgument::Wait,
        CliArgument::Until,
        CliArgument::AllUsers,
        CliArgument::AnyUser,
    ],
};

/// Whose notices are to be listed.
#[derive(Clone, Copy)]
pub struct NoticesArgs<'a> {
    pub location: StoreLocation<'a>,
    /// The moment of the last notice that is printed and taken, in seconds since 1970, in decimal; if it is left out, all
    /// are printed, and none is taken.
    pub until: Option<&'a str>,
    /// Whether those of all users are asked for.
    pub all: bool,
    /// The account's name, if it is given.
    pub user: Option<&'a str>,
}

impl<'a> NoticesArgs<'a> {
    pub(crate) fn read(given: &Given<'a, '_>) -> NoticesArgs<'a>
        ensures { IsNoticesArgs given.now.line.now given.now.matches.now result }
    {
        NoticesArgs {
            location: given.location(),
            until: given.value(CliArgument::Until),
            all: given.flag(CliArgument::AllUsers),
            user: given.value(CliArgument::AnyUser),
        }
    }
}
