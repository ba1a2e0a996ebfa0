//! The arguments that were given to a subcommand.
ghost use Rattle.std.specs.Prelude.{◌≡◌, codes, false, option_copied};
ghost use Rattle.cli_subcommands.specs.Asks.{HasNoText, IsArgAddress, IsFlag, IsLocation, arg_text, arg_value, chosen_path};
ghost use Rattle.cli_subcommands.specs.Ids.{argument_id};

use crate::argument::CliArgument;
use crate::location::StoreLocation;
use crate::raw_args::RawArgs;
use clap::ArgMatches;

/// What `clap` found for a subcommand in a command line.
#[derive(Clone, Copy)]
pub struct Given<'a, 'm> {
    pub line: &'a RawArgs,
    pub matches: &'m ArgMatches<'a>,
}

impl<'a> Given<'a, '_> {
    /// The value of an argument, if it has one.
    pub fn value(&self, argument: CliArgument) -> Option<&'a str>
        ensures { option_copied result ≡ arg_value self.now.matches.now (argument_id argument) }
    {
        self.matches.get_str(argument.name())
    }

    /// The value of an argument, or the empty text if it was left out.
    pub fn text(&self, argument: CliArgument) -> &'a str
        ensures { result.now ≡ arg_text self.now.matches.now (argument_id argument) }
    {
        self.value(argument).unwrap_or("")
    }

    /// Whether a flag was given.
    pub fn flag(&self, argument: CliArgument) -> bool
        ensures { IsFlag self.now.matches.now (argument_id argument) result }
    {
        self.matches.get_flag(argument.name())
    }

    /// The octets of an address; empty if it was left out.
    pub fn address(&self, argument: CliArgument) -> &'a [u8]
        ensures { IsArgAddress self.now.line.now (arg_text self.now.matches.now (argument_id argument)) result.now }
    {
        self.line.address(self.text(argument))
    }

    /// The path of the store: that of the option, else the environment's.
    pub fn path(&self) -> &'a str
        ensures { result.now ≡ chosen_path self.now.line.now (arg_value self.now.matches.now (codes "db")) }
    {
        match self.value(CliArgument::Db) {
            Some(path) => path,
            None => self.line.default_path().unwrap_or(""),
        }
    }

    /// Where the store is.
    pub fn location(&self) -> StoreLocation<'a>
        ensures { IsLocation self.now.line.now self.now.matches.now result }
    {
        StoreLocation {
            path: self.path(),
            waits: self.flag(CliArgument::Wait) || self.line.waits_by_default(),
        }
    }

    /// Whether each argument is UTF-8, apart from the addresses of the envelope.
    pub fn is_text_elsewhere(&self) -> bool
        ensures { result ≡ false → HasNoText self.now.line.now }
    {
        let from = self.line.behind(self.text(CliArgument::From)).is_some();
        let to = self.line.behind(self.text(CliArgument::To)).is_some();
        usize::from(from) + usize::from(to) == self.line.stand_ins()
    }
}
