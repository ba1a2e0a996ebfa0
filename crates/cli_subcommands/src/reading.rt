//! Reads what the arguments ask for.
ghost use Rattle.std.specs.Prelude.{◌≡◌, false, map, IfOk, IfErr, Ok, Err};
ghost use Rattle.cli_subcommands.specs.Asks.{HasNoText, NamesFiles, WasMatched, WasRead};

use crate::argument::CliArgument;
use crate::given::Given;
use crate::host_files::texts_of;
use crate::program::sieved;
use crate::raw_args::RawArgs;
use crate::subcommand::check::CHECK;
use crate::subcommand::try_script::TryArgs;
use crate::subcommand::{Subcommand, SubcommandName};
use clap::error::ErrorKind;
use clap::{ArgMatches, Error};
use std::alloc::Global;

/// Why arguments ask for nothing.
#[derive(Drop)]
pub enum ArgsError {
    /// A usage error, or `--help` or `--version`, with the text that `clap` has for it; or lack of memory.
    Said(Error),
    /// An argument isn't UTF-8, and isn't the value of `--from` or `--to` of a subcommand that takes them.
    NotText,
    /// `clap` knows the subcommand, and this crate doesn't. It knows none but those of this crate.
    Unknown,
}

/// What `clap` finds in the arguments after the program's name.
///
/// # Errors
///
/// [`ArgsError::Said`] and [`ArgsError::NotText`]. If an argument isn't UTF-8, the text of `clap` isn't printed, since it has read a
/// stand-in.
pub fn match_command_line<'a>(
    alloc: Global,
    words: &'a RawArgs,
) -> Result<ArgMatches<'a>, ArgsError>
    ensures ok { IfOk result (λ matches. WasMatched words.now (Ok matches)) }
    ensures err { IfErr result (λ error. WasRead words.now (Err error)) }
{
    match match_words(alloc, words) {
        Ok(matches) => Ok(matches),
        Err(error) if is_said(words, &error) => Err(ArgsError::Said(error)),
        Err(_) => Err(ArgsError::NotText),
    }
}

/// Reads what arguments ask for that `clap` matched like this; without any it is `try` with an empty envelope.
///
/// # Errors
///
/// [`ArgsError::NotText`] and [`ArgsError::Unknown`].
pub fn read_matches<'a>(
    words: &'a RawArgs,
    matches: &ArgMatches<'a>,
) -> Result<Subcommand<'a>, ArgsError>
    requires { WasMatched words.now (Ok matches.now) }
    ensures { WasRead words.now result }
{
    let Some((name, found)) = matches.subcommand() else {
        return Ok(Subcommand::Try(TryArgs {
            from: b"",
            to: b"",
            at: None,
            zone: None,
        }));
    };
    let given = Given {
        line: words,
        matches: found,
    };
    let Some(word) = SubcommandName::from_name(name) else {
        return Err(ArgsError::Unknown);
    };
    if given.is_text_elsewhere() {
        Ok(word.read(&given))
    } else {
        Err(ArgsError::NotText)
    }
}

/// Reads the arguments after the program's name: [`match_command_line`], and then [`read_matches`].
///
/// # Errors
///
/// Those of `ArgsError`.
pub fn read_command_line<'a>(alloc: Global, words: &'a RawArgs) -> Result<Subcommand<'a>, ArgsError>
    ensures { WasRead words.now result }
{
    match match_command_line(alloc, words) {
        Ok(matches) => read_matches(words, &matches),
        Err(error) => Err(error),
    }
}

/// The paths of the files in arguments that ask for `check`, in their order; none for standard input. Time and memory are linear
/// in the arguments.
///
/// # Errors
///
/// [`ArgsError::Unknown`] if the arguments ask for something else; [`ArgsError::Said`] for lack of memory.
pub fn read_files<'a>(alloc: Global, matches: &ArgMatches<'a>) -> Result<Vec<&'a str>, ArgsError>
    ensures { IfOk result (λ files. NamesFiles matches.now (map (λ file. file.now) files.items)) }
{
    let Some((name, found)) = matches.subcommand() else {
        return Err(ArgsError::Unknown);
    };
    if name != CHECK.name {
        return Err(ArgsError::Unknown);
    }
    match texts_of(alloc, found, CliArgument::Files) {
        Ok(files) => Ok(files),
        Err(refused) => Err(ArgsError::Said(Error::from(refused))),
    }
}

/// What `clap` finds in the arguments.
fn match_words<'a>(alloc: Global, words: &'a RawArgs) -> Result<ArgMatches<'a>, Error>
    ensures { WasMatched words.now result }
{
    sieved(alloc, words.default_path().is_some())?.try_get_matches_from(words.texts())
}

/// Whether the error speaks of the arguments themselves, or of lack of memory.
fn is_said(words: &RawArgs, error: &Error) -> bool
    ensures { result ≡ false → HasNoText words.now }
{
    error.kind() == ErrorKind::OutOfMemory || !words.has_stand_ins()
}
