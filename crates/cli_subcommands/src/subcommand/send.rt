//! `send`: hands the rows of all queues to a mail server.
ghost use Rattle.cli_subcommands.specs.Asks.{IsSendArgs};

use crate::argument::CliArgument;
use crate::given::Given;
use crate::subcommand_row::SubcommandRow;

pub static SEND: SubcommandRow = SubcommandRow {
    name: "send",
    about: "Hands the queues of all users to a mail server by SMTP",
    more: "Prints `sent USER ID` or `waits USER ID: CAUSE` for each row that was tried, and `sent N, wait M`. A row leaves its queue once the server has taken it.
Status 0: done, whatever waits. 64: wrong words or values. 65: no store. 75: no server, another `send` on this store, or try again later.",
    arguments: &[
        CliArgument::Db,
        CliArgument::Smtp,
        CliArgument::HostName,
        CliArgument::MostRows,
        CliArgument::SendEightBit,
    ],
};

/// Which store's queues are to be sent, and where.
#[derive(Clone, Copy)]
pub struct SendArgs<'a> {
    /// The path of the database's file.
    pub path: &'a str,
    /// The mail server: an address and a port, or the path of a socket.
    pub smtp: &'a str,
    /// The name in EHLO.
    pub host: Option<&'a str>,
    /// The largest number of rows that are tried, in decimal.
    pub most: Option<&'a str>,
    /// Whether a message with octets over 127 goes to a server without 8BITMIME too.
    pub send_8bit: bool,
}

impl<'a> SendArgs<'a> {
    pub(crate) fn read(given: &Given<'a, '_>) -> SendArgs<'a>
        ensures { IsSendArgs given.now.line.now given.now.matches.now result }
    {
        SendArgs {
            path: given.path(),
            smtp: given.text(CliArgument::Smtp),
            host: given.value(CliArgument::HostName),
            most: given.value(CliArgument::MostRows),
            send_8bit: given.flag(CliArgument::SendEightBit),
        }
    }
}
