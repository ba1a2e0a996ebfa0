//! `try`: what a script does with a message.
ghost use Rattle.cli_subcommands.specs.Asks.{IsTryArgs};

use crate::argument::CliArgument;
use crate::given::Given;
use crate::subcommand_row::SubcommandRow;

pub static TRY: SubcommandRow = SubcommandRow {
    name: "try",
    about: "Says what a script does with a message, and stores nothing",
    more: "Reads a line with the script's length in decimal, the script, and the message. Length 0: the user has no active script.
Prints `file NAME`, `send ADDRESS`, `vacation wanted`, or `discard`; `failed: TEXT` of a run that fails; or `line N: ..` of a script that isn't valid.
--before, --after: at most 16 each, and run in their order, as in a delivery.
Status 0: said. 64: wrong words. 65: not valid, or no such input. 75: memory, input or output failed.",
    arguments: &[
        CliArgument::From,
        CliArgument::AnyTo,
        CliArgument::At,
        CliArgument::Zone,
        CliArgument::Before,
        CliArgument::Default,
        CliArgument::After,
    ],
};

/// The envelope of the message that a script is tried on, and the moment. An address that was left out is empty.
#[derive(Clone, Copy)]
pub struct TryArgs<'a> {
    /// The envelope's sender.
    pub from: &'a [u8],
    /// The envelope's recipient.
    pub to: &'a [u8],
    /// The moment in seconds since 1970, in decimal; the clock's if it is left out.
    pub at: Option<&'a str>,
    /// The host's zone; UTC if it is left out.
    pub zone: Option<&'a str>,
}

impl<'a> TryArgs<'a> {
    pub(crate) fn read(given: &Given<'a, '_>) -> TryArgs<'a>
        ensures { IsTryArgs given.now.line.now given.now.matches.now result }
    {
        TryArgs {
            from: given.address(CliArgument::From),
            to: given.address(CliArgument::AnyTo),
            at: given.value(CliArgument::At),
            zone: given.value(CliArgument::Zone),
        }
    }
}
