//! The inside of quoted strings.
ghost use Rattle.std.specs.Prelude.{◌≡◌, ◌≤◌, length, drop, IfOk, Some, None};
ghost use Rattle.std.specs.List.{prefix_len};
ghost use Rattle.sieve_lex.specs.Finding.{IfFault, IfFaultLine};
ghost use Rattle.sieve_lex.specs.Inside.{string_from, is_plain_octet};
ghost use Rattle.sieve_lex.specs.declared.quoted.Mode.TheVariants.{Inside};

use crate::fault::{FaultKind, ScriptError, ScriptFault};
use crate::said::Said;
use octets::Octets;
use std::alloc::Global;

/// Where in a quoted string an octet is.
#[derive(Clone, Copy)]
pub(crate) enum Mode {
    /// After whole pieces.
    Inside,
    /// After a backslash.
    Escape,
    /// After a CR.
    Return,
}

/// Reads the string whose opening quotation mark precedes this text: what it stands for, each line end as CRLF, and how many
/// octets there are up to and including its closing quotation mark. A string without line ends and backslashes isn't copied.
#[inline(always)]
pub(crate) fn read_quoted<'a>(
    alloc: Global,
    octets: &'a [u8],
    line: u64,
) -> Result<(Said<'a>, usize), ScriptError>
    ensures within { IfOk result (λ r. r.1 ≤ length octets.now) }
    ensures found { IfOk result (λ r. string_from Inside octets.now ≡ Some (r.0, drop r.1 octets.now)) }
    ensures fault { IfFault result (string_from Inside octets.now ≡ None) }
    ensures lines { IfFaultLine result (λ n. n ≡ line) }
{
    let (plain, rest) = octets.split_at(plain_len(octets));
    if let Some((b'"', _)) = rest.split_first() {
        return Ok((Said::in_text(plain), plain.len() + 1));
    }
    let (value, len) = read_pieces(alloc, octets, line)?;
    Ok((Said::apart(value), len))
}

/// How many octets at the beginning stand for themselves.
fn plain_len(octets: &[u8]) -> usize
    ensures { result ≡ prefix_len is_plain_octet octets.now }
{
    octets.iter().take_while(|octet| is_plain(**octet)).count()
}

/// Whether the octet is neither a quotation mark nor a backslash nor part of a line end.
fn is_plain(octet: u8) -> bool
    ensures { result ≡ is_plain_octet octet }
{
    octet != b'"' && octet != b'\\' && octet != b'\r' && octet != b'\n'
}

/// Reads any such string, octet by octet.
fn read_pieces(alloc: Global, octets: &[u8], line: u64) -> Result<(Octets, usize), ScriptError>
    ensures within { IfOk result (λ r. r.1 ≤ length octets.now) }
    ensures found { IfOk result (λ r. string_from Inside octets.now ≡ Some (r.0, drop r.1 octets.now)) }
    ensures fault { IfFault result (string_from Inside octets.now ≡ None) }
    ensures lines { IfFaultLine result (λ n. n ≡ line) }
{
    let bad = ScriptError::Fault(ScriptFault {
        line,
        kind: FaultKind::BadByte,
    });
    let mut value = Octets::new(alloc);
    let mut mode = Mode::Inside;
    for (i, octet) in octets.iter().enumerate() {
        match mode {
            Mode::Inside => match *octet {
                b'"' => return Ok((value, i + 1)),
                b'\\' => mode = Mode::Escape,
                b'\r' => mode = Mode::Return,
                b'\n' => value.extend_from_slice(b"\r\n")?,
                plain => value.push(plain)?,
            },
            Mode::Escape => match *octet {
                0 | b'\r' | b'\n' => return Err(bad),
                escaped => {
                    value.push(escaped)?;
                    mode = Mode::Inside;
                }
            },
            Mode::Return => match *octet {
                b'\n' => {
                    value.extend_from_slice(b"\r\n")?;
                    mode = Mode::Inside;
                }
                _ => return Err(bad),
            },
        }
    }
    Err(ScriptError::Fault(ScriptFault {
        line,
        kind: FaultKind::OpenString,
    }))
}
