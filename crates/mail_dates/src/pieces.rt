//! The pieces of a date's text, from the beginning.
ghost use Rattle.std.specs.Prelude.{◌≡◌, ◌≤◌, ◌<◌, ◌^◌, ◌+◌, false, None, Some, MatchOption, length};
ghost use Rattle.std.specs.List.{prefix_len};
ghost use Rattle.mail_dates.specs.Gaps as gaps;
ghost use Rattle.mail_dates.specs.Pieces as spec;
ghost use Rattle.mail_dates.specs.Reading as reading;

/// Whether the octet begins a gap: SP, TAB, CR, LF, or a comment's parenthesis.
fn opens_gap(octet: u8) -> bool
    ensures { result ≡ gaps.opens_gap octet }
{
    octet == b' ' || octet == b'\t' || octet == b'\r' || octet == b'\n' || octet == b'('
}

/// How many comments are open after an octet of a gap, and whether it is a backslash that escapes the next one.
#[tactic(auto, unfolding(crate::specs::Reading::next_state))]
fn next_state(depth: usize, escaped: bool, octet: u8) -> (usize, bool)
    requires { depth < 2 ^ 63 }
    ensures is { result ≡ reading.next_state depth escaped octet }
    ensures slow { result.0 ≤ depth + 1 }
{
    if escaped {
        return (depth, false);
    }
    match octet {
        b'\\' => (depth, true),
        b'(' => (depth + 1, false),
        b')' => (depth.saturating_sub(1), false),
        _ => (depth, false),
    }
}

/// What follows the gap at the beginning; `None` if a comment isn't closed.
fn after_gap(text: &[u8]) -> Option<&[u8]>
    ensures { MatchOption result (reading.after_gap 0 false text.now ≡ None) (λ rest. reading.after_gap 0 false text.now ≡ Some rest.now) }
{
    let mut depth: usize = 0;
    let mut escaped = false;
    for (i, octet) in text.iter().enumerate() {
        if depth == 0 && !opens_gap(*octet) {
            return Some(&text[i..]);
        }
        let (deeper, slash) = next_state(depth, escaped, *octet);
        depth = deeper;
        escaped = slash;
    }
    if depth == 0 {
        Some(&text[text.len()..])
    } else {
        None
    }
}

/// Whether the octet continues the piece that begins with the first one.
#[tactic(auto, unfolding(crate::specs::Pieces::goes_on))]
fn goes_on(first: u8, octet: u8) -> bool
    ensures { result ≡ spec.goes_on first octet }
{
    match first {
        b'a'..=b'z' | b'A'..=b'Z' => octet.is_ascii_alphabetic(),
        b'0'..=b'9' | b'+' | b'-' => octet.is_ascii_digit(),
        _ => false,
    }
}

/// How many of the others continue the piece that begins with the first octet.
fn piece_len(first: u8, others: &[u8]) -> usize
    ensures is { result ≡ prefix_len (spec.goes_on first) others.now }
    ensures within { result ≤ length others.now }
{
    others
        .iter()
        .take_while(|octet| goes_on(first, **octet))
        .count()
}

/// The piece at the beginning of a text that doesn't begin with a gap, and what follows it.
#[tactic(auto, unfolding(crate::specs::Reading::cut))]
fn cut(text: &[u8]) -> (&[u8], &[u8])
    ensures piece { result.0.now ≡ (reading.cut text.now).0 }
    ensures rest { result.1.now ≡ (reading.cut text.now).1 }
{
    match text.split_first() {
        Some((first, others)) => text.split_at(1 + piece_len(*first, others)),
        None => (text, text),
    }
}

/// The first piece of a text, and what follows it.
#[tactic(auto, unfolding(crate::specs::Reading::piece))]
pub(crate) fn next_piece(text: &[u8]) -> Option<(&[u8], &[u8])>
    ensures { MatchOption result (reading.piece text.now ≡ None) (λ r. reading.piece text.now ≡ Some (r.0.now, r.1.now)) }
{
    let rest = after_gap(text)?;
    Some(cut(rest))
}
