//! Strings of several lines.
ghost use Rattle.std.specs.Prelude.{◌≡◌, ◌≤◌, ◌++◌, length, drop, IfOk, OnOk, Some, None};
ghost use Rattle.sieve_lex.specs.Finding.{IfFault, IfFaultLine};
ghost use Rattle.sieve_lex.specs.Body.{body_from, emitted, body_state_after};
ghost use Rattle.sieve_lex.specs.declared.multiline.BodyState.TheVariants.{Opening};

use crate::fault::{FaultKind, ScriptError, ScriptFault};
use octets::{Octets, is_blank};
use std::alloc::{AllocError, Global};

/// Where in a string of several lines an octet is.
#[derive(Clone, Copy)]
pub(crate) enum BodyState {
    /// After `text:` and blanks.
    Opening,
    /// In the comment after them.
    Comment,
    /// After the CR of the first line.
    OpeningReturn,
    /// At the start of a line.
    Start,
    /// After the dot at the start of a line.
    Dot,
    /// After that dot and a CR.
    DotReturn,
    /// In a line.
    Inside,
    /// After the CR of a line.
    Return,
    /// After the last line.
    Done,
    /// After an octet that isn't allowed there.
    Broken,
}

impl BodyState {
    /// Where the octet after this one is.
    fn after(self, octet: u8) -> BodyState
        ensures { result ≡ body_state_after self octet }
    {
        match self {
            BodyState::Opening => after_opening(octet),
            BodyState::Comment => match octet {
                b'\n' => BodyState::Start,
                _ => BodyState::Comment,
            },
            BodyState::OpeningReturn | BodyState::Return => match octet {
                b'\n' => BodyState::Start,
                _ => BodyState::Broken,
            },
            BodyState::Start => match octet {
                b'.' => BodyState::Dot,
                b'\r' => BodyState::Return,
                b'\n' => BodyState::Start,
                _ => BodyState::Inside,
            },
            BodyState::Dot => match octet {
                b'\r' => BodyState::DotReturn,
                b'\n' => BodyState::Done,
                _ => BodyState::Inside,
            },
            BodyState::DotReturn => match octet {
                b'\n' => BodyState::Done,
                _ => BodyState::Broken,
            },
            BodyState::Inside => match octet {
                b'\r' => BodyState::Return,
                b'\n' => BodyState::Start,
                _ => BodyState::Inside,
            },
            BodyState::Done => BodyState::Done,
            BodyState::Broken => BodyState::Broken,
        }
    }
}

/// Where the octet after this one is, if this one is after `text:` and blanks.
fn after_opening(octet: u8) -> BodyState
    ensures { result ≡ body_state_after Opening octet }
{
    if is_blank(octet) {
        return BodyState::Opening;
    }
    match octet {
        b'#' => BodyState::Comment,
        b'\r' => BodyState::OpeningReturn,
        b'\n' => BodyState::Start,
        _ => BodyState::Broken,
    }
}

/// Appends what the octet adds to the string's value.
fn emit(value: &mut Octets, stage: BodyState, octet: u8) -> Result<(), AllocError>
    ensures { OnOk result (value.new ≡ value.old ++ emitted stage octet) }
{
    match stage {
        BodyState::Start => match octet {
            b'.' | b'\r' => Ok(()),
            b'\n' => value.extend_from_slice(b"\r\n"),
            _ => value.push(octet),
        },
        BodyState::Dot => match octet {
            b'\r' | b'\n' => Ok(()),
            b'.' => value.push(b'.'),
            _ => value.extend_from_slice(&[b'.', octet]),
        },
        BodyState::Inside => match octet {
            b'\r' => Ok(()),
            b'\n' => value.extend_from_slice(b"\r\n"),
            _ => value.push(octet),
        },
        BodyState::Return => match octet {
            b'\n' => value.extend_from_slice(b"\r\n"),
            _ => Ok(()),
        },
        _ => Ok(()),
    }
}

/// Reads the string whose `text:` precedes these octets: what it stands for, each line with CRLF, and how many octets
/// there are up to its end.
pub(crate) fn read_body(
    alloc: Global,
    octets: &[u8],
    line: u64,
) -> Result<(Octets, usize), ScriptError>
    ensures within { IfOk result (λ r. r.1 ≤ length octets.now) }
    ensures found { IfOk result (λ r. body_from Opening octets.now ≡ Some (r.0, drop r.1 octets.now)) }
    ensures fault { IfFault result (body_from Opening octets.now ≡ None) }
    ensures lines { IfFaultLine result (λ n. n ≡ line) }
{
    let mut value = Octets::new(alloc);
    let mut stage = BodyState::Opening;
    for (i, octet) in octets.iter().enumerate() {
        if let BodyState::Done = stage {
            return Ok((value, i));
        }
        emit(&mut value, stage, *octet)?;
        stage = stage.after(*octet);
    }
    match stage {
        BodyState::Done | BodyState::Dot => Ok((value, octets.len())),
        BodyState::Opening | BodyState::OpeningReturn | BodyState::Broken => Err(
            ScriptError::Fault(ScriptFault {
                line,
                kind: FaultKind::Unexpected,
            }),
        ),
        _ => Err(ScriptError::Fault(ScriptFault {
            line,
            kind: FaultKind::OpenString,
        })),
    }
}
