//! The row of a subcommand in the help.
ghost use Rattle.std.specs.Prelude.{IfOk};
ghost use Rattle.cli_subcommands.specs.Rows.{IsCommandOf};

use crate::argument::CliArgument;
use clap::Command;
use std::alloc::{AllocError, Global};

/// A subcommand's name, its help, and its arguments.
#[derive(Clone, Copy)]
pub struct SubcommandRow {
    pub name: &'static str,
    pub about: &'static str,
    /// What it reads and prints, and its exit statuses.
    pub more: &'static str,
    pub arguments: &'static [CliArgument],
}

impl SubcommandRow {
    /// The subcommand for `clap`: `has_store` says whether the environment names the store. Lack of memory is the only error.
    pub fn command<'a>(&self, alloc: Global, has_store: bool) -> Result<Command<'a>, AllocError>
        ensures { IfOk result (IsCommandOf self.now) }
    {
        let mut command = Command::new(alloc, self.name)
            .about(self.about)
            .after_help(self.more);
        for argument in self.arguments {
            command = command.arg(argument.arg(alloc, has_store)?)?;
        }
        Ok(command)
    }
}
