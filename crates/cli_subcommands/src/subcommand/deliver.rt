//! `deliver`: a message for a user.
ghost use Rattle.cli_subcommands.specs.Asks.{IsDeliverArgs};

use crate::argument::CliArgument;
use crate::given::Given;
use crate::location::StoreLocation;
use crate::subcommand_row::SubcommandRow;

pub static DELIVER: SubcommandRow = SubcommandRow {
    name: "deliver",
    about: "Delivers a message to a user by the active script",
    more: "Reads the message. Prints `file NAME`, `send ADDRESS`, `vacation sent`, `vacation quiet N`, `notice TEXT`, or `discard`.
--before, --after: at most 16 each, and run in their order; a delivery reads all of them.
Status 0: delivered, and on the disk. 64: wrong words or values. 65: refused for good. 67: no such user. 75: try again later.",
    arguments: &[
        CliArgument::Db,
        CliArgument::Wait,
        CliArgument::From,
        CliArgument::To,
        CliArgument::At,
        CliArgument::Zone,
        CliArgument::Before,
        CliArgument::Default,
        CliArgument::After,
        CliArgument::User,
    ],
};

/// The envelope, moment and user of a message that is to be delivered. An address of the envelope that was left out is empty.
#[derive(Clone, Copy)]
pub struct DeliverArgs<'a> {
    pub location: StoreLocation<'a>,
    /// The envelope's sender.
    pub from: &'a [u8],
    /// The envelope's recipient.
    pub to: &'a [u8],
    /// The moment in seconds since 1970, in decimal; the clock's if it is left out.
    pub at: Option<&'a str>,
    /// The host's zone; UTC if it is left out.
    pub zone: Option<&'a str>,
    /// The account's name.
    pub user: &'a str,
}

impl<'a> DeliverArgs<'a> {
    pub(crate) fn read(given: &Given<'a, '_>) -> DeliverArgs<'a>
        ensures { IsDeliverArgs given.now.line.now given.now.matches.now result }
    {
        DeliverArgs {
            location: given.location(),
            from: given.address(CliArgument::From),
            to: given.address(CliArgument::To),
            at: given.value(CliArgument::At),
            zone: given.value(CliArgument::Zone),
            user: given.text(CliArgument::User),
        }
    }
}
