//! Which texts can be scripts at all, and lines.
ghost use Rattle.std.specs.Prelude.{◌≡◌, ◌+◌, ◌<◌, ◌≤◌, length, take, MatchOption, IfSome};
ghost use Rattle.std.specs.Char.{is_ascii};
ghost use Rattle.std.specs.List.{list_all};
ghost use Rattle.std.specs.Str.{IsUtf8};
ghost use Rattle.sieve_lex.specs.Text.{IsScriptText, HasGoodOctets, line_ends};

use crate::fault::{FaultKind, ScriptFault};
use memchr::memchr2;
use std::str;

/// Why the text can't be a script, whatever its tokens: it is not UTF-8, or has a NUL or a lone CR.
pub(crate) fn text_fault(text: &[u8]) -> Option<ScriptFault>
    ensures fault { MatchOption result (IsScriptText text.now) (λ _. IsScriptText text.now → ⊥) }
    ensures lines { IfSome result (λ f. (1 ≤ f.line) × (f.line ≤ 1 + line_ends text.now)) }
{
    let (place, kind) = match broken_at(text) {
        Some(place) => (place, FaultKind::NotUtf8),
        None => (bad_octet(text)?, FaultKind::BadByte),
    };
    let (before, _) = text.split_at(place);
    Some(ScriptFault {
        line: 1 + line_feeds(before),
        kind,
    })
}

/// Where the text stops being UTF-8.
fn broken_at(text: &[u8]) -> Option<usize>
    ensures { MatchOption result (IsUtf8 text.now) (λ place. (place ≤ length text.now) × (IsUtf8 text.now → ⊥)) }
{
    if is_ascii(text) {
        return None;
    }
    match str::from_utf8(text) {
        Err(broken) => Some(broken.valid_up_to()),
        Ok(_) => None,
    }
}

/// Whether all octets are ASCII: such a text is UTF-8, and most scripts are ASCII. It has no early exit, so it becomes vector code.
fn is_ascii(text: &[u8]) -> bool
    ensures { result ≡ list_all is_ascii text.now }
{
    let mut all = true;
    for octet in text {
        all &= octet.is_ascii();
    }
    all
}

/// The place of the first NUL or lone CR.
fn bad_octet(text: &[u8]) -> Option<usize>
    ensures { MatchOption result (HasGoodOctets text.now) (λ place. (place < length text.now) × (HasGoodOctets text.now → ⊥)) }
{
    let mut at = 0;
    while at < text.len() {
        let (_, ahead) = text.split_at(at);
        let Some(before) = memchr2(0, b'\r', ahead) else {
            return None;
        };
        at += before;
        if text[at] == 0 {
            return Some(at);
        }
        if text.get(at + 1) != Some(&b'\n') {
            return Some(at);
        }
        at += 1;
    }
    None
}

/// How many lines end in the octets.
pub(crate) fn line_feeds(octets: &[u8]) -> u64
    ensures { result ≡ line_ends octets.now }
{
    octets.iter().filter(|octet| **octet == b'\n').count() as u64
}
