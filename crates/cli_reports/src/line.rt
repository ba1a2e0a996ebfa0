//! One line.
ghost use Rattle.std.specs.Prelude.{◌≡◌, ◌++◌, OnOk};
ghost use Rattle.cli_reports.specs.Reports.{ended_line};

use octets::Octets;
use std::alloc::AllocError;

/// Appends a word and its object, as a line.
pub fn add_line(text: &mut Octets, word: &[u8], what: &[u8]) -> Result<(), AllocError>
    ensures { OnOk result (text.new ≡ text.old ++ ended_line (word.now ++ what.now)) }
{
    text.extend_from_slice(word)?;
    text.extend_from_slice(what)?;
    text.push(b'\n')
}
