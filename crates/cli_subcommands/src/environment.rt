//! What the environment says of the store: the variables `SIEVED_DB` and `SIEVED_WAIT`.
ghost use Rattle.std.specs.Prelude.{◌≡◌, Some, option_copied, option_map, string_bytes};
ghost use Rattle.std.specs.Str.{IsUtf8};
ghost use Rattle.cli_subcommands.specs.Defaults.{AreDefaults, AreNoDefaults, NamesPath, named_path, says_wait};

use octets::Octets;
use std::str;

/// What the environment says of the store, for a command line that doesn't say it.
#[derive(Drop)]
pub struct StoreDefaults {
    /// The path of the store's file, if `--db` is left out.
    path: Option<String>,
    /// Whether to wait for the store's lock, also without `--wait`.
    waits: bool,
}

impl StoreDefaults {
    /// Nothing is said. Takes no memory.
    pub fn none() -> StoreDefaults
        ensures { AreNoDefaults result }
    {
        StoreDefaults {
            path: None,
            waits: false,
        }
    }

    /// From the values of the variables, as far as they are set: `SIEVED_DB` is the path unless it is empty or isn't UTF-8, and
    /// of `SIEVED_WAIT` only `1` says to wait. Takes no memory.
    pub fn from_variables(db: Option<Octets>, wait: Option<Octets>) -> StoreDefaults
        ensures { AreDefaults db wait result }
    {
        StoreDefaults {
            path: path_in(db),
            waits: is_wait(&wait),
        }
    }

    /// The path of the store's file, if one is named.
    pub fn path(&self) -> Option<&str>
        ensures { option_copied result ≡ named_path self.now }
    {
        match &self.path {
            Some(path) => Some(path.as_str()),
            None => None,
        }
    }

    /// Whether to wait for the store's lock.
    pub fn waits(&self) -> bool
        ensures { result ≡ self.now.waits }
    {
        self.waits
    }
}

/// The path that a value of `SIEVED_DB` names, if it names one.
fn path_in(value: Option<Octets>) -> Option<String>
    ensures { NamesPath value (option_map string_bytes result) }
{
    match value {
        Some(value) => path_named(value),
        None => None,
    }
}

/// The path that a value names: itself, unless it is empty or isn't UTF-8.
fn path_named(value: Octets) -> Option<String>
    ensures { NamesPath (Some value) (option_map string_bytes result) }
{
    if value.is_empty() {
        return None;
    }
    match str::from_utf8(value.as_slice()) {
        Ok(_) => owned(value),
        Err(_) => None,
    }
}

/// The value as a text.
fn owned(value: Octets) -> Option<String>
    requires { IsUtf8 value }
    ensures { option_map string_bytes result ≡ Some value }
{
    match String::from_utf8(value.into_vec()) {
        Ok(text) => Some(text),
        Err(_) => None,
    }
}

/// Whether a value of `SIEVED_WAIT` says to wait.
fn is_wait(value: &Option<Octets>) -> bool
    ensures { result ≡ says_wait value.now }
{
    match value {
        Some(value) => value.as_slice() == b"1".as_slice(),
        None => false,
    }
}
