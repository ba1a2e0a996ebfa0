//! The command line, for `clap`.
use crate::subcommand::SubcommandName;
use clap::Command;
use std::alloc::{AllocError, Global};

/// The program's version, as a package has it: one that ends with `~dev` comes before the release.
pub const VERSION: &str = "2.0.0~dev";

/// The program with all subcommands; `has_store` says whether the environment names the store.
pub(crate) fn sieved<'a>(alloc: Global, has_store: bool) -> Result<Command<'a>, AllocError> {
    with_words(alloc, program(alloc)?, &SubcommandName::ALL, has_store)
}

/// A command with these subcommands added.
fn with_words<'a>(
    alloc: Global,
    program: Command<'a>,
    words: &[SubcommandName],
    has_store: bool,
) -> Result<Command<'a>, AllocError> {
    let mut command = program;
    for word in words {
        command = command.subcommand(word.row().command(alloc, has_store)?)?;
    }
    Ok(command)
}

/// The program without its subcommands.
fn program<'a>(alloc: Global) -> Result<Command<'a>, AllocError> {
    Command::new(alloc, "sieved")
        .version(VERSION)
        .about("Files mail by each user's Sieve script, and serves the scripts by ManageSieve")
        .after_help("Without a command it is `try` with an empty envelope.")
        .propagate_version(true)
        .no_binary_name(true)
        .disable_help_subcommand(true)
        .bin_name("sieved")
}
