//! The files of the host's scripts, as the arguments name them.
ghost use Rattle.std.specs.Prelude.{◌≡◌, ◌&&◌, length, map, nat_le, not, IfOk};
ghost use Rattle.cli_subcommands.specs.Asks.{NamesHostFiles, arg_texts};
ghost use Rattle.cli_subcommands.specs.Ids.{argument_id};

use crate::argument::CliArgument;
use clap::ArgMatches;
use std::alloc::{AllocError, Global};

/// How many files may be named for `--before`, and for `--after`: each delivery reads the scripts in all of them anew.
pub const MAX_HOST_FILES: usize = 16;

/// The paths of the files of the host's scripts, in the order in which they were given.
#[derive(Drop)]
pub struct HostFiles<'a> {
    /// Of the scripts before a user's.
    pub before: Vec<&'a str>,
    /// Of the script for accounts without an active one.
    pub default: Option<&'a str>,
    /// Of the scripts after a user's.
    pub after: Vec<&'a str>,
}

impl HostFiles<'_> {
    /// Whether more than [`MAX_HOST_FILES`] are named for `--before`, or for `--after`.
    pub fn are_too_many(&self) -> bool
        ensures { result ≡ not (nat_le (length self.now.before.items) 16 && nat_le (length self.now.after.items) 16) }
    {
        !(self.before.len() <= MAX_HOST_FILES && self.after.len() <= MAX_HOST_FILES)
    }
}

/// The files in arguments that `clap` matched like this; none where the subcommand takes none, and where there is no subcommand.
/// Time and memory are linear in the arguments. Lack of memory is the only error.
pub fn read_host_files<'a>(
    alloc: Global,
    matches: &ArgMatches<'a>,
) -> Result<HostFiles<'a>, AllocError>
    ensures { IfOk result (NamesHostFiles matches.now) }
{
    let Some((_, found)) = matches.subcommand() else {
        return Ok(HostFiles {
            before: Vec::new(alloc),
            default: None,
            after: Vec::new(alloc),
        });
    };
    Ok(HostFiles {
        before: texts_of(alloc, found, CliArgument::Before)?,
        default: found.get_str(CliArgument::Default.name()),
        after: texts_of(alloc, found, CliArgument::After)?,
    })
}

/// The values of an argument that may have many, in their order; none if it was left out. Lack of memory is the only error.
pub(crate) fn texts_of<'a>(
    alloc: Global,
    found: &ArgMatches<'a>,
    argument: CliArgument,
) -> Result<Vec<&'a str>, AllocError>
    ensures { IfOk result (λ texts. map (λ text. text.now) texts.items ≡ arg_texts found.now (argument_id argument)) }
{
    found.get_strs(argument.name()).unwrap_or(&[]).to_vec(alloc)
}
