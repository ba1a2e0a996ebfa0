//! What a command line asks for.
ghost use Rattle.std.specs.Prelude.{◌≡◌, [], ◌↔◌};
ghost use Rattle.lmtp_dialogue.specs.declared.verb.LmtpVerb.TheVariants as verb;
ghost use Rattle.lmtp_dialogue.specs.Commands.{IsCommandLine};
ghost use Rattle.lmtp_dialogue.specs.ReadCommands as s;

use crate::argument::{ArgumentFault, MailArgument, read_mail, read_recipient};
use crate::reply::LmtpReply;
use crate::verb::{LmtpVerb, read_line};

/// What a command line asks for.
#[derive(Clone, Copy)]
pub enum LmtpCommand<'a> {
    /// A client tells its name.
    Lhlo(&'a [u8]),
    /// A message begins.
    Mail(MailArgument<'a>),
    /// A recipient of it.
    Rcpt(&'a [u8]),
    /// Its text follows.
    Data,
    /// What was begun is dropped.
    Rset,
    Noop,
    Vrfy,
    Help,
    Quit,
    /// None of these, whatever came before: this is answered.
    Refused(LmtpReply),
}

/// What a command line asks for, without its CRLF. Two passes at most; takes no memory.
pub fn read_lmtp_command(line: &[u8]) -> LmtpCommand<'_>
    ensures { s.ReadsLmtpCommand line.now result }
{
    let Some(command) = read_line(line) else {
        return LmtpCommand::Refused(LmtpReply::UnknownCommand);
    };
    match command.verb {
        LmtpVerb::Lhlo => command_of_name(command.argument),
        LmtpVerb::Mail => command_of_sender(command.argument),
        LmtpVerb::Rcpt => command_of_recipient(command.argument),
        LmtpVerb::Data => alone(command.argument, LmtpCommand::Data),
        LmtpVerb::Rset => alone(command.argument, LmtpCommand::Rset),
        LmtpVerb::Quit => alone(command.argument, LmtpCommand::Quit),
        LmtpVerb::Noop => LmtpCommand::Noop,
        LmtpVerb::Vrfy => LmtpCommand::Vrfy,
        LmtpVerb::Help => LmtpCommand::Help,
        LmtpVerb::Helo => LmtpCommand::Refused(LmtpReply::NotSmtp),
        LmtpVerb::Ehlo => LmtpCommand::Refused(LmtpReply::NotSmtp),
    }
}

fn command_of_name(argument: &[u8]) -> LmtpCommand<'_>
    ensures { s.ReadsName argument.now result }
{
    if argument.is_empty() {
        LmtpCommand::Refused(LmtpReply::BadArgument)
    } else {
        LmtpCommand::Lhlo(argument)
    }
}

fn command_of_sender(argument: &[u8]) -> LmtpCommand<'_>
    ensures { s.ReadsSender argument.now result }
{
    match read_mail(argument) {
        Ok(mail) => LmtpCommand::Mail(mail),
        Err(ArgumentFault::Syntax) => LmtpCommand::Refused(LmtpReply::BadArgument),
        Err(ArgumentFault::Address) => LmtpCommand::Refused(LmtpReply::BadSender),
        Err(ArgumentFault::Parameter) => LmtpCommand::Refused(LmtpReply::BadParameter),
    }
}

fn command_of_recipient(argument: &[u8]) -> LmtpCommand<'_>
    ensures { s.ReadsTarget argument.now result }
{
    match read_recipient(argument) {
        Ok(address) => LmtpCommand::Rcpt(address),
        Err(ArgumentFault::Syntax) => LmtpCommand::Refused(LmtpReply::BadArgument),
        Err(ArgumentFault::Address) => LmtpCommand::Refused(LmtpReply::BadRecipient),
        Err(ArgumentFault::Parameter) => LmtpCommand::Refused(LmtpReply::BadParameter),
    }
}

// A command after whose word nothing may follow.
fn alone<'a>(argument: &[u8], command: LmtpCommand<'a>) -> LmtpCommand<'a>
    ensures { s.ReadsAlone argument.now command.entry result }
{
    if argument.is_empty() {
        command
    } else {
        LmtpCommand::Refused(LmtpReply::BadArgument)
    }
}
