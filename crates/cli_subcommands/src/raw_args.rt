//! The arguments of a command line: the octets that the system hands over, and the texts that `clap` reads.
ghost use Rattle.std.specs.Prelude.{◌≡◌, IfOk, IsTrue, option_copied};
ghost use Rattle.cli_subcommands.specs.Asks.{HasNoText, IsArgAddress, arg_octets};
ghost use Rattle.cli_subcommands.specs.Defaults.{AreNoDefaults, named_path};

use crate::environment::StoreDefaults;
use octets::Octets;
use std::alloc::{AllocError, Global};
use std::str;

/// The options that may come before an address, in the same argument.
const ADDRESS_OPTIONS: [&str; 2] = ["--from=", "--to="];

/// The arguments after the program's name, and what the environment says of the store where they don't.
///
/// An address may be any octets, while `clap` reads texts. So an argument that isn't UTF-8 has a stand-in there, in which `--from=`
/// and `--to=` stay. Each stand-in is longer than any argument, and than the stand-ins before it: no other value equals it, and if
/// `clap` finds it as an address, the octets of its argument are the address. Memory is that of the arguments, and of the longest
/// one for each stand-in.
#[derive(Drop)]
pub struct RawArgs {
    octets: Vec<Octets>,
    texts: Vec<String>,
    defaults: StoreDefaults,
}

impl RawArgs {
    /// From the arguments in their order, in an environment that says nothing. Lack of memory is the only error.
    pub fn new(alloc: Global, words: Vec<Octets>) -> Result<RawArgs, AllocError>
        ensures words { IfOk result (λ args. arg_octets args ≡ words.items) }
        ensures unsaid { IfOk result (λ args. AreNoDefaults args.defaults) }
    {
        let longest = words.iter().map(|word| word.len()).max().unwrap_or(0);
        let mut texts = Vec::new(alloc);
        for (at, word) in words.iter().enumerate() {
            let stand_in = longest.saturating_add(at).saturating_add(1);
            texts.push(text_of(alloc, word.as_slice(), stand_in)?)?;
        }
        Ok(RawArgs {
            octets: words,
            texts,
            defaults: StoreDefaults::none(),
        })
    }

    /// The same arguments in an environment that says this.
    pub fn with_defaults(self, defaults: StoreDefaults) -> RawArgs
        ensures words { arg_octets result ≡ arg_octets self }
        ensures defaults { result.defaults ≡ defaults }
    {
        RawArgs {
            octets: self.octets,
            texts: self.texts,
            defaults,
        }
    }

    /// The store's path in the environment, if it names one.
    pub(crate) fn default_path(&self) -> Option<&str>
        ensures { option_copied result ≡ named_path self.now.defaults }
    {
        self.defaults.path()
    }

    /// Whether the environment says to wait for the store's lock.
    pub(crate) fn waits_by_default(&self) -> bool
        ensures { result ≡ self.now.defaults.waits }
    {
        self.defaults.waits()
    }

    /// What `clap` reads, a text for each argument.
    pub(crate) fn texts(&self) -> &[String] {
        &self.texts
    }

    /// The number of arguments that aren't UTF-8.
    pub(crate) fn stand_ins(&self) -> usize {
        let words = self.octets.iter().zip(self.texts.iter());
        words
            .filter(|(octets, text)| stands_in(text.as_str(), octets.as_slice()))
            .count()
    }

    /// Whether some argument isn't UTF-8.
    pub(crate) fn has_stand_ins(&self) -> bool
        ensures { IsTrue result → HasNoText self.now }
    {
        self.stand_ins() > 0
    }

    /// The octets of the address with this value: the value itself, or the octets that it stands in for.
    pub(crate) fn address<'a>(&'a self, value: &'a str) -> &'a [u8]
        ensures { IsArgAddress self.now value.now result.now }
    {
        self.behind(value).unwrap_or(value.as_bytes())
    }

    /// The octets that the value of an option stands in for; `None` if it stands for itself.
    pub(crate) fn behind(&self, value: &str) -> Option<&[u8]> {
        for (octets, text) in self.octets.iter().zip(self.texts.iter()) {
            let found = behind_value(octets.as_slice(), text.as_str(), value);
            if found.is_some() {
                return found;
            }
        }
        None
    }
}

/// What `clap` reads for an argument, if a stand-in has that many octets.
fn text_of(alloc: Global, word: &[u8], stand_in: usize) -> Result<String, AllocError> {
    match str::from_utf8(word) {
        Ok(text) => String::from_str(alloc, text),
        Err(_) => stand_in_of(alloc, option_of(word), stand_in),
    }
}

fn stand_in_of(alloc: Global, option: &str, len: usize) -> Result<String, AllocError> {
    let mut text = String::from_str(alloc, option)?;
    for _ in 0..len {
        text.push('?')?;
    }
    Ok(text)
}

/// The option with `=` before the address in an argument; empty if there is none.
fn option_of(word: &[u8]) -> &'static str {
    for option in ADDRESS_OPTIONS {
        if word.starts_with(option.as_bytes()) {
            return option;
        }
    }
    ""
}

/// Whether a text is read in place of an argument.
fn stands_in(text: &str, word: &[u8]) -> bool {
    text.as_bytes() != word
}

/// The octets of an argument, or of the address in it, if the value is what is read in their place.
fn behind_value<'a>(word: &'a [u8], text: &str, value: &str) -> Option<&'a [u8]> {
    if !stands_in(text, word) {
        return None;
    }
    if text == value {
        return Some(word);
    }
    let option = option_of(word);
    if text.strip_prefix(option)? == value {
        return word.strip_prefix(option.as_bytes());
    }
    None
}
