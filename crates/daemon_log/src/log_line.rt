//! A line, from its beginning to its end.
ghost use Rattle.std.specs.Prelude.{◌≡◌, ◌++◌, ◌∷◌, [], IfOk, OnOk, decimal};
ghost use Rattle.daemon_log.specs.Lines.{line_start, pair_text};

use crate::value::add_value;
use octets::{Octets, write_decimal};
use std::alloc::{AllocError, Global};

/// Begins a line: `sieved: ` and a word.
pub fn begin(alloc: Global, word: &[u8]) -> Result<Octets, AllocError>
    ensures { IfOk result (λ line. line ≡ line_start word.now) }
{
    let mut line = Octets::new(alloc);
    line.extend_from_slice(b"sieved: ")?;
    line.extend_from_slice(word)?;
    Ok(line)
}

/// Appends a blank, a name, `=` and its value.
///
/// # Errors
///
/// Lack of memory; a part of it may have been appended then.
pub fn add_pair(line: &mut Octets, name: &[u8], value: &[u8]) -> Result<(), AllocError>
    ensures { OnOk result (line.new ≡ line.old ++ pair_text name.now value.now) }
{
    line.push(b' ')?;
    line.extend_from_slice(name)?;
    line.push(b'=')?;
    add_value(line, value)
}

/// Appends a blank, a name, `=` and a number in decimal.
///
/// # Errors
///
/// Lack of memory; a part of it may have been appended then.
pub fn add_number(
    line: &mut Octets,
    alloc: Global,
    name: &[u8],
    number: u64,
) -> Result<(), AllocError>
    ensures { OnOk result (line.new ≡ line.old ++ pair_text name.now (decimal number)) }
{
    let mut digits = Octets::new(alloc);
    write_decimal(&mut digits, number)?;
    add_pair(line, name, digits.as_slice())
}

/// Ends a line: appends LF.
///
/// # Errors
///
/// Lack of memory.
pub fn end(mut line: Octets) -> Result<Octets, AllocError>
    ensures { IfOk result (λ whole. whole ≡ line ++ 10 ∷ []) }
{
    line.push(b'\n')?;
    Ok(line)
}
